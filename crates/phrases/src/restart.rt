// What is said of a restart and of an embargo: the files that were open, and the writes that are lost.
ghost use Rattle.std.specs.Prelude.{ℕ, ◌+◌, ◌≤◌, ◌<◌, cond, List, [], length};
ghost use Rattle.sizes.specs.Sizes.{max_files, max_blocks};
ghost use Rattle.ledger.specs.Ledger.{lines_at, risks_in};
ghost use Rattle.writer.specs.Buffer.{Wrote};
ghost use Rattle.phrases.specs.Accepted.{loss_text, next_text, losses_on, risks_text};

use crate::phrase::{put_block, put_either, put_numbered};
use ledger::Ledger;
use sizes::MAX_BLOCKS;
use writer::put_text;

// The writes of the client that are at risk, by file and block.
pub fn put_losses(
    out: &mut [u8],
    at: usize,
    files: usize,
    blocks: usize,
    client: usize,
    ledger: &Ledger,
) -> usize
    requires files_le_max_files { files ≤ max_files }
    requires blocks_le_max_blocks { blocks ≤ max_blocks }
    requires at_in_bounds { at + 42496 ≤ length out.old }
    ensures wrote { Wrote out.old at
        (risks_text (lines_at ledger.now) client files blocks)
        out.new result }
    ensures upper_bound { result ≤ at + 42496 }
{
    let mut next = at;
    for file in 0..files {
        next = put_losses_on(out, at, next, file, blocks, client, ledger);
    }
    if next == at {
        return put_text(out, next, b" none");
    }
    next
}

// Those on the file, after what the list has from its start on.
fn put_losses_on(
    out: &mut [u8],
    start: usize,
    at: usize,
    file: usize,
    blocks: usize,
    client: usize,
    ledger: &Ledger,
) -> usize
    requires file_lt_max_files { file < max_files }
    requires blocks_le_max_blocks { blocks ≤ max_blocks }
    requires at_in_bounds { at + 664 ≤ length out.old }
    ensures by_index { (out₀ told : List ℕ) → Wrote out₀ start told out.old at → Wrote out₀ start
        (losses_on
        (λ f b. risks_in client (lines_at ledger.now f b))
        (λ f b. (lines_at ledger.now f b).risk)
        file blocks told)
        out.new result }
    ensures upper_bound { result ≤ at + 664 }
{
    let mut next = at;
    for block in 0..blocks {
        let lines = ledger.lines_in(file * MAX_BLOCKS + block);
        next = put_loss_if(
            out,
            start,
            next,
            !(lines.risk == 0) & (lines.risker as usize == client),
            file,
            block,
            lines.risk,
        );
    }
    next
}

// A lost write, if it is lost, after what the list has from its start on.
pub fn put_loss_if(
    out: &mut [u8],
    start: usize,
    at: usize,
    lost: bool,
    file: usize,
    block: usize,
    line: u64,
) -> usize
    requires { at + 83 ≤ length out.old }
    ensures by_index { (out₀ told : List ℕ) → Wrote out₀ start told out.old at → Wrote out₀ start
        (cond lost (next_text told (loss_text file block line)) told) out.new result }
    ensures upper_bound { result ≤ at + 83 }
{
    if !lost {
        return at;
    }
    let loss = put_either(out, at, at == start, b"", b",");
    put_loss(out, loss, file, block, line)
}

fn put_loss(out: &mut [u8], at: usize, file: usize, block: usize, line: u64) -> usize
    requires { at + 82 ≤ length out.old }
    ensures wrote { Wrote out.old at (loss_text file block line) out.new result }
    ensures upper_bound { result ≤ at + 82 }
{
    let word = put_block(out, at, file, block);
    put_numbered(out, word, b" at line", line)
}
