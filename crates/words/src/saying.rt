// What a step says: the letter of its reply, and the words after it.
ghost use Rattle.std.specs.Prelude.{◌≡◌, cond, List, [], ◌∷◌, ◌++◌, ℕ, ◌+◌, ◌*◌, ◌%◌, ◌≤◌, ◌<◌, ltb, length};
ghost use Rattle.sizes.specs.Sizes.{max_files};
ghost use Rattle.protocol.specs.Reply.{grant_values, no_granting, no_grants};
ghost use Rattle.records.specs.Version.{version_of};
ghost use Rattle.words.specs.Said.{said_room, Begun, SaysIn, grant_said, answer_said, reply_said, calls_said};
ghost use Rattle.words.specs.Said.{letter_said, granting_said, grants_from, grants_said};

use crate::words::{calls_of, calls_word};
use protocol::{Grant, Granting, Reply};
use records::Version;
use sizes::{MAX_CLIENTS, MAX_FILES};
use std::array;

// The words that a step has for what it says: eight for its own reply, and four for a grant on each file.
pub const SAID: usize = 8 + 4 * MAX_FILES;

// What is told of each reply: its letter, and 256 for each word after it.
const GRANTED: u64 = 3 * 256 + b'G' as u64;

const WAITING: u64 = 256 + b'W' as u64;

const VALUE: u64 = 256 + b'V' as u64;

const REFUSED: u64 = 256 + b'N' as u64;

const ANSWERED: u64 = 256 + b'A' as u64;

const ANSWERED_GRANT: u64 = 5 * 256 + b'A' as u64;

const DONE: u64 = b'K' as u64;

// The latest version, the previous one, and the permission, as the next three words.
fn say_grant(grant: Grant, at: usize, words: &mut [u64; SAID])
    requires words_len { length words.old ≡ said_room }
    requires at_bound { at + 3 ≤ said_room }
    ensures by_index { (words₀ vs : List ℕ) → Begun words₀ at vs words.old
        → Begun words₀ (at + 3) (vs ++ grant_values grant) words.new }
    ensures at_after { grant_said words.new at ≡ grant }
{
    words[at] = u64::from(grant.latest.number());
    words[at + 1] = u64::from(grant.previous.number());
    words[at + 2] = u64::from(grant.caching);
}

// The open of another client that is granted: the client and the numbers of the grant, as the next four words. Those
// that were said before can still be read back.
pub fn say_granting(client: u8, grant: Grant, at: usize, words: &mut [u64; SAID])
    requires words_len { length words.old ≡ said_room }
    requires at_bound { at + 4 ≤ said_room }
    ensures by_index { (words₀ vs : List ℕ) → Begun words₀ at vs words.old
        → Begun words₀ (at + 4) (vs ++ (client ∷ grant_values grant)) words.new }
    ensures at_after { granting_said words.new at ≡ record { client = client; grant = grant } }
    ensures by_index_2 { (j : ℕ) → j + 4 ≤ at
        → granting_said words.new j ≡ granting_said words.old j }
{
    words[at] = u64::from(client);
    say_grant(grant, at + 1, words);
}

// The first two words.
fn say_two(first: u64, second: u64, words: &mut [u64; SAID])
    requires { length words.old ≡ said_room }
    ensures { Begun words.old 2 (first ∷ second ∷ []) words.new }
{
    words[0] = first;
    words[1] = second;
}

// A reply, and the calls that go out with it.
pub fn say(reply: Reply, calls: [u8; MAX_CLIENTS], words: &mut [u64; SAID]) -> u64
    requires { length words.old ≡ said_room }
    ensures { SaysIn words.old result words.new reply calls no_grants }
{
    match reply {
        Reply::Granted(grant) => {
            say_grant(grant, 0, words);
            GRANTED
        }
        Reply::Waiting => {
            words[0] = calls_word(calls);
            WAITING
        }
        Reply::Value(value) => {
            words[0] = value;
            VALUE
        }
        Reply::Refused(refusal) => {
            words[0] = u64::from(refusal);
            REFUSED
        }
        Reply::Answered(sent) => {
            words[0] = sent as u64;
            ANSWERED
        }
        Reply::AnsweredGrant(sent, client, grant) => {
            say_two(sent as u64, u64::from(client), words);
            say_grant(grant, 2, words);
            ANSWERED_GRANT
        }
        Reply::Done => DONE,
    }
}

// ---- what was said, read back

// The letter of a reply.
// Stays: a number, which the lent words of the step and the printed lines hold; any letter may stand in it (`reply_said`).
pub fn letter_of(said: u64) -> u8
    ensures { result ≡ letter_said said }
{
    (said % 256) as u8
}

fn version_said(word: u64) -> Version
    ensures { result ≡ version_of (word % 4294967296) }
{
    Version::numbered((word % 4294967296) as u32)
}

fn grant_said(words: &[u64; SAID], at: usize) -> Grant
    requires words_len { length words.now ≡ said_room }
    requires at_bound { at + 3 ≤ said_room }
    ensures { result ≡ grant_said words.now at }
{
    Grant {
        latest: version_said(words[at]),
        previous: version_said(words[at + 1]),
        caching: words[at + 2] == 1,
    }
}

fn answer_said(count: u64, words: &[u64; SAID]) -> Reply
    requires { length words.now ≡ said_room }
    ensures { result ≡ answer_said count words.now }
{
    let sent = words[0] as usize;
    if count == 1 {
        return Reply::Answered(sent);
    }
    Reply::AnsweredGrant(sent, (words[1] % 256) as u8, grant_said(words, 2))
}

// The reply.
pub fn reply_of(said: u64, words: &[u64; SAID]) -> Reply
    requires { length words.now ≡ said_room }
    ensures { result ≡ reply_said said words.now }
{
    match letter_of(said) {
        b'G' => Reply::Granted(grant_said(words, 0)),
        b'W' => Reply::Waiting,
        b'V' => Reply::Value(words[0]),
        b'N' => Reply::Refused((words[0] % 256) as u8),
        b'A' => answer_said(said / 256, words),
        _ => Reply::Done,
    }
}

// The calls that go out with it.
pub fn calls_with(said: u64, words: &[u64; SAID]) -> [u8; MAX_CLIENTS]
    requires { length words.now ≡ said_room }
    ensures { result ≡ calls_said said words.now }
{
    if letter_of(said) == b'W' {
        return calls_of(words[0]);
    }
    [0; MAX_CLIENTS]
}

// The k-th of the opens of others that were granted, where so many words were said; they stand from a word on.
fn granting_at(from: usize, count: u64, k: usize, words: &[u64; SAID]) -> Granting
    requires words_len { length words.now ≡ said_room }
    requires from_bound { from ≤ 5 }
    requires k_lt_max_files { k < max_files }
    ensures { result ≡ cond (ltb (from + 4 * k) count) (granting_said words.now (from + 4 * k)) no_granting }
{
    let at = from + 4 * k;
    if (at as u64) < count {
        return Granting {
            client: (words[at] % 256) as u8,
            grant: grant_said(words, at + 1),
        };
    }
    Granting::none()
}

fn grants_from(from: usize, count: u64, words: &[u64; SAID]) -> [Granting; MAX_FILES]
    requires words_len { length words.now ≡ said_room }
    requires from_bound { from ≤ 5 }
    ensures { result ≡ grants_from from count words.now }
{
    array::from_fn(|k| granting_at(from, count, k, words))
}

// The opens of others that were granted.
pub fn grants_of(said: u64, words: &[u64; SAID]) -> [Granting; MAX_FILES]
    requires { length words.now ≡ said_room }
    ensures { result ≡ grants_said said words.now }
{
    match letter_of(said) {
        b'K' => grants_from(0, said / 256, words),
        b'A' => grants_from(5, said / 256, words),
        _ => { [Granting::none(); MAX_FILES] }
    }
}
