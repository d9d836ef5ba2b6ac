// What stands at an offset of the bytes read.

// A value, and the offset past its last byte.
#[derive(Clone, Copy)]
pub struct Found<T> {
    pub value: T,
    pub next: usize,
}
