// The lines of a file's blocks at one client, of its files, and of all clients, ascending.
ghost use Rattle.std.specs.Prelude.{◌+◌, ◌≤◌, ◌<◌, [], length};
ghost use Rattle.sizes.specs.Sizes.{max_clients, max_files, max_blocks, Permitted};
ghost use Rattle.blocks.specs.Stores.{lent, dirty_in};
ghost use Rattle.options.specs.Program.{number_of};
ghost use Rattle.writer.specs.Buffer.{Wrote};
ghost use Rattle.image.specs.Bytes.{flat};
ghost use Rattle.unsaved.specs.Unsaved.{block_lines, file_lines, client_lines};

use crate::line::put_line_if;
use options::Program;
use sizes::{MAX_BLOCKS, MAX_CELLS, MAX_CLIENTS, Sizes};

fn put_blocks(
    out: &mut [u8],
    at: usize,
    program: Program,
    dirty: &[bool; MAX_CELLS],
    client: usize,
    file: usize,
    each: usize,
) -> usize
    requires each_le_max_blocks { each ≤ max_blocks }
    requires client_lt_max_clients { client < max_clients }
    requires file_lt_max_files { file < max_files }
    requires at_in_bounds { at + 976 ≤ length out.old }
    ensures wrote { Wrote out.old at
        (flat (block_lines (number_of program) each (dirty_in (lent [] [] [] dirty.now)) client file))
        out.new result }
    ensures upper_bound { result ≤ at + 976 }
{
    let base = (file * MAX_CLIENTS + client) * MAX_BLOCKS;
    let mut next = at;
    for block in 0..each {
        next = put_line_if(out, next, program, dirty[base + block], client, file, block);
    }
    next
}

fn put_files(
    out: &mut [u8],
    at: usize,
    program: Program,
    sizes: Sizes,
    dirty: &[bool; MAX_CELLS],
    client: usize,
) -> usize
    requires permitted { Permitted sizes }
    requires client_lt_max_clients { client < max_clients }
    requires at_in_bounds { at + 62464 ≤ length out.old }
    ensures wrote { Wrote out.old at
        (flat (file_lines (number_of program) sizes (dirty_in (lent [] [] [] dirty.now)) client))
        out.new result }
    ensures upper_bound { result ≤ at + 62464 }
{
    let mut next = at;
    for file in 0..sizes.files {
        next = put_blocks(out, next, program, dirty, client, file, sizes.blocks);
    }
    next
}

pub fn put_clients(
    out: &mut [u8],
    at: usize,
    program: Program,
    sizes: Sizes,
    dirty: &[bool; MAX_CELLS],
) -> usize
    requires permitted { Permitted sizes }
    requires at_in_bounds { at + 499712 ≤ length out.old }
    ensures wrote { Wrote out.old at
        (flat (client_lines (number_of program) sizes (dirty_in (lent [] [] [] dirty.now)))) out.new result }
    ensures upper_bound { result ≤ at + 499712 }
{
    let mut next = at;
    for client in 0..sizes.clients {
        next = put_files(out, next, program, sizes, dirty, client);
    }
    next
}
