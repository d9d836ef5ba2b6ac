// Plays step files: the reply to each line, and a summary at the end.
#![tactic(auto)]

fn main(rt: HostRuntime) {
    console::play(&rt, &rt.stderr());
}
