// What is said of an accepted close, write, flush, crash, report, end, restart or lift, and of an answer.
ghost use Rattle.std.specs.Prelude.{◌+◌, ◌≤◌, false, length};
ghost use Rattle.writer.specs.Buffer.{Wrote};
ghost use Rattle.phrases.specs.Accepted.{answer_text, wasted_text, done_text};

use crate::phrase::{
    put_at_file, put_block, put_client, put_either, put_embargo, put_file, put_numbered,
    put_of_client,
};
use protocol::Step;
use writer::put_text;

// The sentence of a step that is answered K; caching says of a write whether its client may cache, aside whether it is
// under embargo, and embargo since which line.
pub fn put_done(
    out: &mut [u8],
    at: usize,
    caching: bool,
    aside: bool,
    embargo: u64,
    step: Step,
) -> usize
    requires { at + 161 ≤ length out.old }
    ensures wrote { Wrote out.old at (done_text caching aside embargo step) out.new result }
    ensures upper_bound { result ≤ at + 161 }
{
    match step {
        Step::Close { mode, client, file } => {
            put_at_file(out, at, client, b" closes", file, mode)
        }
        Step::Write {
            client,
            file,
            block,
            ..
        } => put_write(out, at, caching, aside, embargo, client, file, block),
        Step::Flush {
            client,
            file,
            block,
        } => put_flush(out, at, client, file, block),
        Step::Crash => put_text(out, at, b"the server crashes; every station has to report"),
        Step::Report { client } => put_of_client(out, at, client, b" reports what it has open"),
        Step::End => put_text(out, at, b"the recovery ends"),
        Step::Restart { client } => put_of_client(out, at, client, b" restarts"),
        Step::Lift { client } => put_of_client(out, at, client, b" is told of its embargo"),
        Step::Open { .. } | Step::Read { .. } | Step::Answer { .. } | Step::Embargo { .. } => at,
    }
}

fn put_write(
    out: &mut [u8],
    at: usize,
    caching: bool,
    aside: bool,
    embargo: u64,
    client: usize,
    file: usize,
    block: usize,
) -> usize
    requires { at + 161 ≤ length out.old }
    ensures wrote { Wrote out.old at
        (done_text caching aside embargo (Step.Write client file block 0)) out.new result }
    ensures upper_bound { result ≤ at + 161 }
{
    let word = put_client(out, at, client);
    let named = put_text(out, word, b" writes");
    let to = put_block(out, named, file, block);
    let loss = put_either(out, to, caching, b" in its copy", b" at the server");
    put_wasted(out, loss, aside, embargo)
}

// Under embargo the write is lost.
fn put_wasted(out: &mut [u8], at: usize, aside: bool, embargo: u64) -> usize
    requires { at + 59 ≤ length out.old }
    ensures wrote { Wrote out.old at (wasted_text aside embargo) out.new result }
    ensures upper_bound { result ≤ at + 59 }
{
    if !aside {
        return at;
    }
    let word = put_text(out, at, b"; lost: it");
    put_embargo(out, word, embargo)
}

fn put_flush(out: &mut [u8], at: usize, client: usize, file: usize, block: usize) -> usize
    requires { at + 101 ≤ length out.old }
    ensures wrote { Wrote out.old at
        (done_text false false 0 (Step.Flush client file block)) out.new result }
    ensures upper_bound { result ≤ at + 101 }
{
    let word = put_client(out, at, client);
    let named = put_text(out, word, b" sends");
    let to = put_block(out, named, file, block);
    put_text(out, to, b" to the server")
}

// How many blocks an answer sent.
pub fn put_answer(out: &mut [u8], at: usize, sent: usize, client: usize, file: usize) -> usize
    requires { at + 101 ≤ length out.old }
    ensures wrote { Wrote out.old at (answer_text sent client file) out.new result }
    ensures upper_bound { result ≤ at + 101 }
{
    let word = put_client(out, at, client);
    let named = put_text(out, word, b" answers for");
    let count = put_file(out, named, file);
    put_numbered(out, count, b", blocks sent:", sent as u64)
}
