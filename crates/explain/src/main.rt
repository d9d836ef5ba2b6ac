// Explains step files: the reply to each line with what happened, and a picture at the end.
#![tactic(auto)]

fn main(rt: HostRuntime) {
    console::explain(&rt, &rt.stderr());
}
