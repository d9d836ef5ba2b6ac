// What a program runs on, and where and under which name it tells of errors. Standard error is passed as what prints
// there, since a name need not be text.
use options::Program;

#[derive(Drop)]
pub struct Host<'a, R, E> {
    pub rt: &'a R,
    pub errors: &'a E,
    pub program: Program,
}
