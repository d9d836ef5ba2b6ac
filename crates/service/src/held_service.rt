// The service as words, flags, blocks and copies: what the steps are taken on. Any of them hold some service.
use crate::flags::FLAGS;
use blocks::Stores;
use words::WORDS;

#[derive(Clone, Copy)]
pub struct HeldService {
    // A row of words for each file, and after the rows how many places of the store are free.
    pub table: [u64; WORDS],
    // Who has reported, whether the server recovers, who is under embargo, and which blocks are used.
    pub flags: [bool; FLAGS],
    pub stores: Stores,
}
