// Counts step files: no reply to a line, and a table of each station's traffic at the end.
#![tactic(auto)]

fn main(rt: HostRuntime) {
    console::traffic(&rt, &rt.stderr());
}
