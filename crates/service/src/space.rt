// The store, on the held service: whether a write takes a free place, and how many blocks are used or
// reserved by a client that the server knows of.
ghost use Rattle.std.specs.Prelude.{◌≡◌, Bool, false, cond, ◌&&◌, ℕ, ◌+◌, ◌-◌, ◌%◌, ◌<◌, ◌≤◌, length, get_or, set};
ghost use Rattle.sizes.specs.Sizes.{Permitted, max_clients, max_files, max_blocks, max_places, max_cells, place, cell};
ghost use Rattle.words.specs.Rows.{table_rows, table_words};
ghost use Rattle.service.specs.Lent.{lent_flags, recovering_held, used_held, free_held};
ghost use Rattle.service.specs.Space.{any_below, sum_below, dirty_among, is_counted, counted_on, counted_in, used_in, recounted};
ghost use Rattle.service.specs.Counted.{known_held, takes_held, used_on, is_anew, anew_on, anew_in};

use crate::flags::{EMBARGOED, FLAGS, RECOVERING, USED};
use crate::held_service::HeldService;
use crate::sums::{any_below, sum_of_files};
use blocks::{cell_of, first_cell, place_of};
use decision::count_below;
use sizes::{MAX_BLOCKS, MAX_CELLS, MAX_FILES, Sizes};
use words::{ROWS, WORDS};

// Whether any of the eight flags from base on is set.
pub fn is_any_dirty(base: usize, dirty: &[bool; MAX_CELLS]) -> bool
    requires { base + max_blocks ≤ max_cells }
    ensures { result ≡ false → (b : ℕ) → b < max_blocks → get_or dirty.now (base + b) false ≡ false }
{
    dirty[base..base + MAX_BLOCKS].contains(&true)
}

// Whether the block is used.
fn is_used(file: usize, block: usize, flags: &[bool; FLAGS]) -> bool
    requires file_lt_max_files { file < max_files }
    requires block_lt_max_blocks { block < max_blocks }
    requires flags_len { length flags.now ≡ lent_flags }
    ensures { result ≡ get_or (used_held flags.now) (place file block) false }
{
    flags[USED + place_of(file, block)]
}

// How many blocks of the file are used.
fn used_on(sizes: Sizes, file: usize, flags: &[bool; FLAGS]) -> usize
    requires permitted { Permitted sizes }
    requires file_lt_max_files { file < max_files }
    requires flags_len { length flags.now ≡ lent_flags }
    ensures used { result ≡ used_on sizes (used_held flags.now) file }
    ensures few { result ≤ max_blocks }
{
    count_below(sizes.blocks, |b| is_used(file, b, flags))
}

// How many blocks of all files are used.
pub fn used_in(sizes: Sizes, flags: &[bool; FLAGS]) -> usize
    requires permitted { Permitted sizes }
    requires flags_len { length flags.now ≡ lent_flags }
    ensures { result ≡ used_in sizes (used_held flags.now) }
{
    sum_of_files(sizes.files, |f| used_on(sizes, f, flags))
}

impl HeldService {
    // Whether the block is dirty at the client, and it is without embargo; in a recovery, one that has reported.
    fn is_dirty_at(&self, recovering: bool, client: usize, file: usize, block: usize) -> bool
        requires client_lt_max_clients { client < max_clients }
        requires file_lt_max_files { file < max_files }
        requires block_lt_max_blocks { block < max_blocks }
        ensures { result ≡ (known_held recovering self.now.flags client
            && get_or self.now.stores.dirty (cell client file block) false) }
    {
        let known = !self.flags[EMBARGOED + client] & (!recovering | self.flags[client]);
        known & self.stores.dirty[cell_of(client, file, block)]
    }

    // Whether it is dirty at such a client.
    fn is_dirty_known(&self, recovering: bool, clients: usize, file: usize, block: usize) -> bool
        requires clients_le_max_clients { clients ≤ max_clients }
        requires file_lt_max_files { file < max_files }
        requires block_lt_max_blocks { block < max_blocks }
        ensures { result ≡ dirty_among clients (known_held recovering self.now.flags) self.now.stores.dirty
            file block }
    {
        any_below(clients, |i| self.is_dirty_at(recovering, i, file, block))
    }

    // Whether a write of the block by the client takes a free place. The numbers are wrapped.
    pub fn takes_place(&self, clients: usize, client: usize, file: usize, block: usize) -> bool
        requires clients_le_max_clients { clients ≤ max_clients }
        ensures { result ≡ takes_held clients (client % max_clients) (file % max_files) (block % max_blocks)
            self.now.flags self.now.stores.dirty }
    {
        let f = file % MAX_FILES;
        let b = block % MAX_BLOCKS;
        if is_used(f, b, &self.flags) | self.stores.dirty[cell_of(client, file, block)] {
            return false;
        }
        !self.is_dirty_known(false, clients, f, b)
    }

    // Whether the block is used, or dirty at a client that the server knows of.
    fn is_counted(&self, clients: usize, file: usize, block: usize) -> bool
        requires clients_le_max_clients { clients ≤ max_clients }
        requires file_lt_max_files { file < max_files }
        requires block_lt_max_blocks { block < max_blocks }
        ensures { result ≡ is_counted clients (known_held (recovering_held self.now.flags) self.now.flags)
            (used_held self.now.flags) self.now.stores.dirty file block }
    {
        is_used(file, block, &self.flags)
            || self.is_dirty_known(self.flags[RECOVERING], clients, file, block)
    }

    // How many blocks of the file are.
    pub fn counted_on(&self, sizes: Sizes, file: usize) -> usize
        requires permitted { Permitted sizes }
        requires file_lt_max_files { file < max_files }
        ensures counted { result ≡ counted_on sizes (known_held (recovering_held self.now.flags) self.now.flags)
            (used_held self.now.flags) self.now.stores.dirty file }
        ensures few { result ≤ max_blocks }
    {
        count_below(sizes.blocks, |b| self.is_counted(sizes.clients, file, b))
    }

    // The same where it is asked for, else 0.
    pub fn counted_if(&self, asked: bool, sizes: Sizes, file: usize) -> usize
        requires permitted { Permitted sizes }
        requires file_lt_max_files { file < max_files }
        ensures counted { result ≡ cond asked (counted_on sizes (known_held (recovering_held self.now.flags) self.now.flags)
            (used_held self.now.flags) self.now.stores.dirty file) 0 }
        ensures few { result ≤ max_blocks }
    {
        if asked {
            self.counted_on(sizes, file)
        } else {
            0
        }
    }

    // How many blocks are, of all files.
    pub fn counted_in(&self, sizes: Sizes) -> usize
        requires permitted { Permitted sizes }
        ensures { result ≡ counted_in sizes (known_held (recovering_held self.now.flags) self.now.flags)
            (used_held self.now.flags) self.now.stores.dirty }
    {
        sum_of_files(sizes.files, |f| self.counted_on(sizes, f))
    }

    // Whether the block is dirty at the client, and nobody else counts on it.
    fn is_reserved_anew(&self, clients: usize, client: usize, file: usize, block: usize) -> bool
        requires clients_le_max_clients { clients ≤ max_clients }
        requires client_lt_max_clients { client < max_clients }
        requires file_lt_max_files { file < max_files }
        requires block_lt_max_blocks { block < max_blocks }
        ensures { result ≡ is_anew clients client self.now.flags self.now.stores.dirty file block }
    {
        self.stores.dirty[cell_of(client, file, block)] && !self.is_counted(clients, file, block)
    }

    // How many such blocks the file has.
    fn reserved_on(&self, sizes: Sizes, client: usize, file: usize) -> usize
        requires permitted { Permitted sizes }
        requires client_lt_max_clients { client < max_clients }
        requires file_lt_max_files { file < max_files }
        ensures reserved { result ≡ anew_on sizes client self.now.flags self.now.stores.dirty file }
        ensures few { result ≤ max_blocks }
    {
        if !is_any_dirty(first_cell(client, file), &self.stores.dirty) {
            return 0;
        }
        count_below(
            sizes.blocks,
            |b| self.is_reserved_anew(sizes.clients, client, file, b),
        )
    }

    // How many there are: as many as the report of the client reserves.
    pub fn reserved_anew(&self, sizes: Sizes, client: usize) -> usize
        requires permitted { Permitted sizes }
        requires client_lt_max_clients { client < max_clients }
        ensures { result ≡ anew_in sizes client self.now.flags self.now.stores.dirty }
    {
        sum_of_files(sizes.files, |f| self.reserved_on(sizes, client, f))
    }
}

// The number of free places, where so many were taken before and so many are after.
pub fn recount(store: usize, table: &mut [u64; WORDS], before: usize, after: usize)
    requires table_len { length table.old ≡ table_words }
    requires store_le_max_places { store ≤ max_places }
    requires before_le_max_places { before ≤ max_places }
    ensures { table.new
        ≡ set table.old table_rows (recounted store (free_held table.old) before after) }
{
    if before == after {
        return;
    }
    let most = (table[ROWS] as usize).min(store) + before;
    table[ROWS] = most.saturating_sub(after).min(store) as u64;
}
