// The line that explains a step or a setting: what is printed for it, and after four spaces what happened.
ghost use Rattle.std.specs.Prelude.{ℕ, ◌+◌, ◌/◌, ◌≤◌, ◌≡◌, List, [], ◌++◌, length};
ghost use Rattle.sizes.specs.Sizes.{Permitted};
ghost use Rattle.protocol.specs.declared.reply.Granting.{Granting};
ghost use Rattle.protocol.specs.declared.reply.Reply.{Reply};
ghost use Rattle.words.specs.Rows.{table_words};
ghost use Rattle.words.specs.Said.{said_room, calls_said, Says};
ghost use Rattle.service.specs.Lent.{lent_flags};
ghost use Rattle.ledger.specs.Ledger.{lines_at};
ghost use Rattle.stepfile.specs.Text.{bytes, argument_text};
ghost use Rattle.writer.specs.Buffer.{Wrote, WroteIfRoom};
ghost use Rattle.sentences.specs.Scene.{scene_held, whole_held};
ghost use Rattle.sentences.specs.Explained.{said_of, setting_text, explained_text, explained_room};

use crate::sentence::put_sentence;
use ledger::{Ledger, Told};
use phrases::put_text;
use protocol::Step;
use service::{FLAGS, HeldService};
use sizes::Sizes;
use stepfile::{NoSizes, Setting};
use words::{SAID, WORDS, calls_with, reply_of};
use writer::{put_argument, put_byte, put_said};

// The room that an explained line is given: more than any takes.
pub const EXPLAINED_ROOM: usize = 64000;

// Writes the line of a step, and answers the offset past it. The words before the step are those that keep_before has
// kept; the service is that after it, and the flags and the ledger those before it. Where the buffer
// has less than EXPLAINED_ROOM bytes from the offset on, writes nothing and answers the offset.
pub fn explain_step(
    out: &mut [u8],
    at: usize,
    number: u64,
    fresh: bool,
    sizes: Sizes,
    step: Step,
    said: u64,
    words: &[u64; SAID],
    before: &[u64; WORDS],
    came: &[bool; FLAGS],
    service: &HeldService,
    ledger: &Ledger,
    told: Told,
    caching: bool,
) -> usize
    requires permitted { Permitted sizes }
    requires said_bound { said / 256 ≤ said_room }
    requires words_len { length words.now ≡ said_room }
    requires before_len { length before.now ≡ table_words }
    requires came_len { length came.now ≡ lent_flags }
    ensures wrote_if_room { (reply : Reply) (calls : List ℕ) (granted : List Granting)
        → Says said words.now reply calls granted
        → calls_said said words.now ≡ calls
        → WroteIfRoom explained_room out.old at
        (explained_text number reply calls granted
        (said_of fresh
        (scene_held sizes step before.now service.now.table came.now
        service.now.stores.dirty ledger.now.since told caching)
        (whole_held before.now service.now.table
        (lines_at ledger.now))
        step calls reply))
        out.new result }
    ensures upper_bound { result ≤ at + explained_room }
{
    if out.len() < EXPLAINED_ROOM {
        return at;
    }
    if out.len() - EXPLAINED_ROOM < at {
        return at;
    }
    let reply = reply_of(said, words);
    let calls = calls_with(said, words);
    let space = put_said(out, at, number, said, words);
    let sentence = put_text(out, space, b"    ");
    let feed = put_sentence(
        out, sentence, fresh, sizes, step, reply, calls, before, came, service, ledger, told,
        caching,
    );
    put_byte(out, feed, b'\n')
}

// Writes the line of a setting, or of a line that is no step, in the same way.
pub fn explain_setting(
    out: &mut [u8],
    at: usize,
    number: u64,
    said: u64,
    words: &[u64; SAID],
    setting: Setting,
) -> usize
    requires said_bound { said / 256 ≤ said_room }
    requires words_len { length words.now ≡ said_room }
    ensures wrote_if_room { (reply : Reply) (calls : List ℕ) (granted : List Granting)
        → Says said words.now reply calls granted
        → WroteIfRoom explained_room out.old at
        (explained_text number reply calls granted (setting_text setting)) out.new result }
    ensures upper_bound { result ≤ at + explained_room }
{
    if out.len() < EXPLAINED_ROOM {
        return at;
    }
    if out.len() - EXPLAINED_ROOM < at {
        return at;
    }
    let space = put_said(out, at, number, said, words);
    let sentence = put_text(out, space, b"    ");
    let feed = put_setting(out, sentence, setting);
    put_byte(out, feed, b'\n')
}

fn put_setting(out: &mut [u8], at: usize, setting: Setting) -> usize
    requires { at + 134 ≤ length out.old }
    ensures wrote { Wrote out.old at (setting_text setting) out.new result }
    ensures upper_bound { result ≤ at + 134 }
{
    match setting {
        Ok(sizes) => put_sizes(out, at, sizes),
        Err(NoSizes::OutOfRange) => put_text(
            out,
            at,
            b"a setting lies outside its range: 1 to 8 stations, 1 to 64 files, 1 to 8 blocks, 0 to 512 places",
        ),
        Err(NoSizes::Missing) => put_text(out, at, b"this line is no step"),
    }
}

fn put_sizes(out: &mut [u8], at: usize, sizes: Sizes) -> usize
    requires { at + 134 ≤ length out.old }
    ensures wrote { Wrote out.old at (setting_text (Ok sizes)) out.new result }
    ensures upper_bound { result ≤ at + 134 }
{
    let clients = put_text(out, at, b"the service has");
    let word = put_argument(out, clients, sizes.clients as u64);
    let files = put_text(out, word, b" stations,");
    let named = put_argument(out, files, sizes.files as u64);
    let blocks = put_text(out, named, b" files of");
    let unit = put_argument(out, blocks, sizes.blocks as u64);
    put_room(out, unit, sizes.store)
}

// How many places the store has, after the number of blocks.
fn put_room(out: &mut [u8], at: usize, store: usize) -> usize
    requires { at + 37 ≤ length out.old }
    ensures wrote { Wrote out.old at (bytes " blocks; places:" ++ argument_text store) out.new result }
    ensures upper_bound { result ≤ at + 37 }
{
    let told = put_text(out, at, b" blocks; places:");
    put_argument(out, told, store as u64)
}
