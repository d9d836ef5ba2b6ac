// A closing run: client 5 opens five files in one request, while client 2 has file 3 open for write. Prints the reply
// to the batch as line 0, and the reply to each opening under its place in the list; then the same of a list of 17
// openings and of an empty list.
#![tactic(auto)]

ghost use Rattle.std.specs.Prelude.{◌≤◌};
ghost use Rattle.batch.specs.Batch.{max_openings};

use batch::{BatchOutcome, open_batch};
use protocol::{Reply, Step};
use records::Mode;
use service::Service;
use sizes::{MAX_CLIENTS, Sizes};
use words::{SAID, say};
use writer::{LINE_ROOM, write_said};

fn main(rt: HostRuntime) {
    let fresh = Service::new(Sizes::default());
    let opened = fresh.step(Step::Open {
        mode: Mode::Write,
        client: 2,
        file: 3,
    });
    let busy = opened.service;

    let _ = rt.write_all(b"closing run\n");
    let files: [usize; 5] = [1, 3, 32, 3, 1];
    let writes = [false, true, false, false, true];
    print(&rt, &open_batch(busy, 5, &files, &writes));

    let _ = rt.write_all(b"list of 17\n");
    let many: [usize; 17] = [0; 17];
    print(&rt, &open_batch(busy, 5, &many, &writes));

    let _ = rt.write_all(b"empty list\n");
    print(&rt, &open_batch(busy, 5, &many[..0], &writes));
}

// The lines of a batch.
fn print(rt: &impl Print, run: &BatchOutcome)
    requires { run.now.count ≤ max_openings }
{
    print_line(rt, 0, run.reply, [0; MAX_CLIENTS]);
    for k in 0..run.count {
        let told = run.replies[k];
        print_line(rt, k as u64 + 1, told.reply, told.calls);
    }
}

fn print_line(rt: &impl Print, number: u64, reply: Reply, calls: [u8; MAX_CLIENTS]) {
    let mut words = [0u64; SAID];
    let mut out = [0u8; LINE_ROOM];
    let said = say(reply, calls, &mut words);
    let end = write_said(&mut out, 0, number, said, &words);
    let _ = rt.write_all(&out[..end]);
}
