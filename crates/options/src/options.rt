// What the arguments mean: each by its text and its place, and what they ask for together.
ghost use Rattle.std.specs.Prelude.{◌≡◌};
ghost use Rattle.options.specs.Options.{argument_of, image_name_of, option_of, once as when_first, dashed, no_request};
ghost use Rattle.options.specs.Options.{with_name, with_argument, is_at, place_of, is_missing, act_of};

use check::same;

// What an argument is.
#[derive(Clone, Copy)]
pub enum Argument {
    // The name of a file.
    Name,
    // `-`: standard input.
    Stdin,
    // `--`: what follows are names.
    Dashes,
    Help,
    Version,
    // `--write-image` and `--read-image`: the name of the image's file follows.
    WriteImage,
    ReadImage,
    ImageName,
    // `-` in place of that name.
    NoName,
    // An option for an image that has come before.
    Repeated,
    // An option that there is not.
    Unknown,
}

// What the argument with this text is, at this place, after those that the request has.
pub fn argument_of(text: &[u8], place: usize, request: Request) -> Argument
    ensures { result ≡ argument_of request place text.now }
{
    if is_at(request.written, place) | is_at(request.read, place) {
        return image_name_of(text);
    }
    if same(text, b"-") {
        return Argument::Stdin;
    }
    if request.dashes | !is_dashed(text) {
        return Argument::Name;
    }
    option_of(text, request)
}

fn image_name_of(text: &[u8]) -> Argument
    ensures { result ≡ image_name_of text.now }
{
    if same(text, b"-") {
        return Argument::NoName;
    }
    Argument::ImageName
}

fn option_of(text: &[u8], request: Request) -> Argument
    ensures { result ≡ option_of request text.now }
{
    if same(text, b"--") {
        return Argument::Dashes;
    }
    if same(text, b"--help") {
        return Argument::Help;
    }
    if same(text, b"--version") {
        return Argument::Version;
    }
    if same(text, b"--write-image") {
        return once(request.written, Argument::WriteImage);
    }
    if same(text, b"--read-image") {
        return once(request.read, Argument::ReadImage);
    }
    Argument::Unknown
}

// The option, if the place of its name is not known yet.
fn once(name: Option<usize>, option: Argument) -> Argument
    ensures { result ≡ when_first name option }
{
    match name {
        None => option,
        Some(_) => Argument::Repeated,
    }
}

fn is_dashed(text: &[u8]) -> bool
    ensures { result ≡ dashed text.now }
{
    matches!(text, [b'-', ..])
}

// What the arguments so far ask for.
#[derive(Clone, Copy)]
pub struct Request {
    // An input is named.
    named: bool,
    // Two or more are.
    several: bool,
    // `--` is among them.
    dashes: bool,
    help: bool,
    version: bool,
    // One of them is not understood.
    refused: bool,
    // The places of the arguments that name the image to write and the image to read.
    pub written: Option<usize>,
    pub read: Option<usize>,
}

// What the program does.
#[derive(Clone, Copy)]
pub enum Act {
    Nothing,
    // The name of the image to write is missing, or of the image to read.
    RefuseName { writing: bool },
    PrintHelp,
    PrintVersion,
    // Two or more inputs, and an image to write or to read.
    RefuseInputs { writing: bool },
    PlayStdin,
    PlayNames { headed: bool },
}

impl Request {
    // No argument yet.
    pub fn new() -> Self
        ensures { result ≡ no_request }
    {
        Request {
            named: false,
            several: false,
            dashes: false,
            help: false,
            version: false,
            refused: false,
            written: None,
            read: None,
        }
    }

    // One argument more; `next` is the place after it.
    pub fn with(mut self, argument: Argument, next: usize) -> Self
        ensures { result ≡ with_argument self argument next }
    {
        match argument {
            Argument::Name => self = self.with_name(),
            Argument::Stdin => self = self.with_name(),
            Argument::Dashes => self.dashes = true,
            Argument::Help => self.help = true,
            Argument::Version => self.version = true,
            Argument::WriteImage => self.written = place_of(next),
            Argument::ReadImage => self.read = place_of(next),
            Argument::ImageName => {}
            Argument::NoName => self.refused = true,
            Argument::Repeated => self.refused = true,
            Argument::Unknown => self.refused = true,
        }
        self
    }

    fn with_name(mut self) -> Self
        ensures { result ≡ with_name self }
    {
        self.several = self.named;
        self.named = true;
        self
    }

    // What all arguments ask for; there are so many, the program's own name among them.
    pub fn act(self, count: usize) -> Act
        ensures { result ≡ act_of self count }
    {
        let lacks_written = is_missing(self.written, count);
        let writing = self.written.is_some();
        if self.refused {
            return Act::Nothing;
        }
        if lacks_written | is_missing(self.read, count) {
            return Act::RefuseName {
                writing: lacks_written,
            };
        }
        if self.help {
            return Act::PrintHelp;
        }
        if self.version {
            return Act::PrintVersion;
        }
        if self.several & (writing | self.read.is_some()) {
            return Act::RefuseInputs { writing };
        }
        if self.named {
            return Act::PlayNames {
                headed: self.several,
            };
        }
        Act::PlayStdin
    }
}

// The place of a name, after an option; 0 is the place of the program's own name, and no option's.
fn place_of(next: usize) -> Option<usize>
    ensures { result ≡ place_of next }
{
    if next == 0 { None } else { Some(next) }
}

// Whether the name of an image stands at this place; the program's own name is read as one.
fn is_at(name: Option<usize>, place: usize) -> bool
    ensures { result ≡ is_at name place }
{
    match name {
        Some(named) => named == place,
        None => place == 0,
    }
}

// Whether an image is given, and its name would stand past the last argument.
fn is_missing(name: Option<usize>, count: usize) -> bool
    ensures { result ≡ is_missing name count }
{
    name.is_some_and(|place| count <= place)
}
