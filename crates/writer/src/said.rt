// The reply line of a step, from its letter and its words: the only writer of reply lines.
ghost use Rattle.std.specs.Prelude.{ℕ, ◌+◌, ◌*◌, ◌/◌, ◌≤◌, ◌≡◌, List, length, take};
ghost use Rattle.protocol.specs.declared.reply.Granting.{Granting};
ghost use Rattle.protocol.specs.declared.reply.Reply.{Reply};
ghost use Rattle.stepfile.specs.Line.{line_text, reply_text};
ghost use Rattle.stepfile.specs.Text.{values_text};
ghost use Rattle.words.specs.Said.{said_room, Says};
ghost use Rattle.writer.specs.Buffer.{Wrote, WroteIfRoom, line_room, words_room};
ghost use Rattle.writer.specs.Said.{fields_said, said_text};

use crate::decimal::{has_room, put_argument, put_byte, put_decimal};
use crate::reply::{LINE_ROOM, put_calls, put_letter};
use words::{SAID, calls_of};

// Writes the line of what is said, and answers the offset past it. Where the buffer has less than LINE_ROOM bytes from
// the offset on, writes nothing and answers the offset.
pub fn write_said(out: &mut [u8], at: usize, number: u64, said: u64, words: &[u64; SAID]) -> usize
    requires said_bound { said / 256 ≤ said_room }
    requires words_len { length words.now ≡ said_room }
    ensures wrote_if_room { (reply : Reply) (calls : List ℕ) (grants : List Granting)
        → Says said words.now reply calls grants
        → WroteIfRoom line_room out.old at (line_text number reply calls grants) out.new result }
    ensures upper_bound { result ≤ at + line_room }
{
    if !has_room(out, at, LINE_ROOM) {
        return at;
    }
    let feed = put_said(out, at, number, said, words);
    put_byte(out, feed, b'\n')
}

// What is said, without the end of the line.
pub fn put_said(out: &mut [u8], at: usize, number: u64, said: u64, words: &[u64; SAID]) -> usize
    requires said_bound { said / 256 ≤ said_room }
    requires words_len { length words.now ≡ said_room }
    requires words_room_in_bounds { at + (words_room + 22) ≤ length out.old }
    ensures wrote { (reply : Reply) (calls : List ℕ) (grants : List Granting)
        → Says said words.now reply calls grants
        → Wrote out.old at (reply_text number reply calls grants) out.new result }
    ensures upper_bound { result ≤ at + (words_room + 22) }
{
    let letter = put_decimal(out, at, number);
    let fields = put_letter(out, letter, (said % 256) as u8);
    put_fields(out, fields, said, words)
}

// What follows the letter: the calls, or the words. A K with no words, the commonest but for values, goes first.
fn put_fields(out: &mut [u8], at: usize, said: u64, words: &[u64; SAID]) -> usize
    requires said_bound { said / 256 ≤ said_room }
    requires words_len { length words.now ≡ said_room }
    requires words_room_in_bounds { at + words_room ≤ length out.old }
    ensures wrote { Wrote out.old at (fields_said said words.now) out.new result }
    ensures upper_bound { result ≤ at + words_room }
{
    if said == 75 {
        return at;
    }
    if said % 256 == 87 {
        return put_calls(out, at, calls_of(words[0]));
    }
    put_words(out, at, (said / 256) as usize, words)
}

// So many words, each after a space.
fn put_words(out: &mut [u8], at: usize, count: usize, words: &[u64; SAID]) -> usize
    requires count_le_said_room { count ≤ said_room }
    requires words_len { length words.now ≡ said_room }
    requires words_room_in_bounds { at + words_room ≤ length out.old }
    ensures wrote { Wrote out.old at (values_text (take count words.now)) out.new result }
    ensures upper_bound { result ≤ at + words_room }
{
    let mut next = at;
    for &word in &words[..count] {
        next = put_argument(out, next, word);
    }
    next
}
