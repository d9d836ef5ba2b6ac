// What is done with one string: the steps before it, the reading, a whole recovery, and the image that is then written.
use decision::{FileState, state_of};
use image::write_image;
use protocol::{Reply, Step};
use records::Mode;
use restore::read_image;
use service::Service;
use sizes::{Sizes, at_most};

fn after(service: Service, step: Step) -> Service {
    service.step(step).service
}

// A fresh service in which client 0 has file 0 open, and another file closed and dirty: reports have something to bring
// back.
pub fn prepared(sizes: Sizes) -> Service {
    let last = sizes.files.wrapping_sub(1);
    let first = with_write(Service::new(sizes), 0, 1);
    let second = with_write(first, last, 2);
    after(
        second,
        Step::Close {
            mode: Mode::Write,
            client: 0,
            file: last,
        },
    )
}

// Client 0 opens the file for write and writes its block 0.
fn with_write(service: Service, file: usize, value: u64) -> Service {
    let opened = after(
        service,
        Step::Open {
            mode: Mode::Write,
            client: 0,
            file,
        },
    );
    after(
        opened,
        Step::Write {
            client: 0,
            file,
            block: 0,
            value,
        },
    )
}

// Takes the steps before the reading, reads the string as an image, recovers, and tells what came of it.
pub fn judged(rt: &impl Print, service: Service, before: u8, bytes: &[u8]) -> Service {
    let outcome = read_image(before_reading(service, before), bytes);
    let verdict = verdict_of(outcome.reply);
    let open = count_open(outcome.service);
    let recovered = recovered(outcome.service);
    tell(rt, verdict, open, recovered);
    recovered
}

// 1: the reading meets a recovery; 2: it meets an open that waits; else nothing.
// Stays: the byte stands in the input, and is looked at here alone.
fn before_reading(service: Service, before: u8) -> Service {
    match before {
        1 => after(after(service, Step::Crash), Step::Report { client: 0 }),
        2 => after(
            service,
            Step::Open {
                mode: Mode::Write,
                client: 1,
                file: 0,
            },
        ),
        _ => service,
    }
}

fn verdict_of(reply: Reply) -> u8 {
    match reply {
        Reply::Refused(_) => b'0',
        _ => b'1',
    }
}

// How many files in force are not CLOSED.
fn count_open(service: Service) -> usize {
    let sizes = service.sizes.in_force();
    let table = service.server.table;
    table.files[..sizes.files]
        .iter()
        .filter(|entry| is_open(state_of(entry.records, sizes.clients, entry.last)))
        .count()
}

fn is_open(state: FileState) -> bool {
    !matches!(state, FileState::Closed)
}

// Every client reports, and the recovery ends.
fn recovered(service: Service) -> Service {
    let mut recovering = service;
    for client in 0..service.sizes.in_force().clients {
        recovering = after(recovering, Step::Report { client });
    }
    after(recovering, Step::End)
}

// How many places of the store are free.
fn free_places(service: Service) -> usize {
    at_most(service.server.free, service.sizes.in_force().store)
}

// The verdict, the number of files that are not CLOSED, the free places, and the image with its length; or two zeros and
// the refusal.
fn tell(rt: &impl Print, verdict: u8, open: usize, service: Service) {
    let [open, _] = low_first(open);
    let [low, high] = low_first(free_places(service));
    let mut bytes = image_buffer();
    match write_image(service, &mut bytes) {
        Ok(count) => {
            let [short, long] = low_first(count);
            let _ = rt.write_all(&[verdict, open, low, high, short, long]);
            let _ = rt.write_all(&bytes[..count.min(8192)]);
        }
        Err(refusal) => {
            let _ = rt.write_all(&[verdict, open, low, high, 0, 0, refusal.number()]);
        }
    }
}

// The number in two bytes, the low byte first.
fn low_first(n: usize) -> [u8; 2] {
    [(n % 256) as u8, (n / 256 % 256) as u8]
}

fn image_buffer() -> [u8; 8192] {
    [0; 8192]
}
