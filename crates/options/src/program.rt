// The programs that have this command line.
ghost use Rattle.std.specs.Prelude.{◌≡◌};
ghost use Rattle.options.specs.Program.{number_of, program_name};

#[derive(Clone, Copy)]
pub enum Program {
    Play = 0,
    Explain = 1,
    Traffic = 2,
}

impl Program {
    // The program of a number; a number past the last is the last's.
    pub fn numbered(number: u8) -> Self
        ensures { program_name (number_of result) ≡ program_name number }
    {
        match number {
            0 => Program::Play,
            1 => Program::Explain,
            _ => Program::Traffic,
        }
    }

    pub fn number(self) -> u8
        ensures { result ≡ number_of self }
    {
        self as u8
    }

    pub fn name(self) -> &'static [u8]
        ensures { result.now ≡ program_name (number_of self) }
    {
        match self {
            Program::Play => b"play",
            Program::Explain => b"explain",
            Program::Traffic => b"traffic",
        }
    }
}
