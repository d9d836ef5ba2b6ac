// The programs. Standard error comes by itself, since a line there has names that need not be text. Each names the room of
// its output buffer, which is enough for what it prints last, and for a line.
use crate::host::Host;
use counting::CountedService;
use explaining::NotedService;
use options::Program;
use service::HeldService;
use std::rt::{Env, Files};

pub fn play(rt: &(impl Env + Files + Input + Print), errors: &impl Print) {
    let host = Host {
        rt,
        errors,
        program: Program::Play,
    };
    host.run::<HeldService, 524288>();
}

pub fn explain(rt: &(impl Env + Files + Input + Print), errors: &impl Print) {
    let host = Host {
        rt,
        errors,
        program: Program::Explain,
    };
    host.run::<NotedService, 1048576>();
}

pub fn traffic(rt: &(impl Env + Files + Input + Print), errors: &impl Print) {
    let host = Host {
        rt,
        errors,
        program: Program::Traffic,
    };
    host.run::<CountedService, 4096>();
}
