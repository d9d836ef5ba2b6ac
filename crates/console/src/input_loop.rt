// One input, told to its end: read, let the session take its turn, write. All else is the session's to decide.
ghost use Rattle.std.specs.Prelude.{◌≡◌, ◌≤◌, cond};
ghost use Rattle.playing.specs.Session.{fresh_session, resumed_session};

use crate::images::Start;
use crate::teller::Teller;
use crate::turns::{End, input_buffer, read_if, write};
use playing::Session;
use std::io;
use std::io::Read;

// Tells what the input gives, from this start on, and leaves there the service that is held at the end. What a turn writes
// goes through an output buffer of this room. A read or a write that fails ends it before what comes last. The loop counts
// its turns, since nothing says that an input ends; no turn copies the service. It has a frame of its own, so that what
// tells no input has no buffers.
#[inline(never)]
pub fn tell<T: Teller, const ROOM: usize>(
    rt: &impl Print,
    start: &mut Start,
    input: &mut impl Read,
) -> End
    requires enough { T.room ≤ ROOM }
    requires few { ROOM ≤ 1048576 }
{
    let mut buffer = input_buffer();
    let mut out = [0; ROOM];
    let mut teller = T::new();
    teller.hold(&start.service);
    let mut session = session_from(start, &teller);
    let mut read_failure = None;
    let mut write_failure = None;
    for _ in 0..u64::MAX {
        if session.done {
            break;
        }
        let wanted = !(session.paused | session.over);
        let got = match read_if(wanted, input, &mut buffer, session.rest) {
            Ok(got) => got,
            Err(error) => {
                read_failure = Some(error);
                break;
            }
        };
        let turn = teller.advance(session, got, &mut buffer, &mut out);
        session = turn.session;
        if let Err(error) = write(rt, &out, turn.written) {
            write_failure = Some(error);
            break;
        }
    }
    end_of(session, read_failure, write_failure, &teller, start)
}

// Before line 1, with a teller that holds the service of the start.
fn session_from<T: Teller>(start: &Start, teller: &T) -> Session
    requires { T.held teller.now start.now.service.sizes ≡ start.now.service }
    ensures value { result ≡ cond start.now.resumed (resumed_session start.now.service.sizes) fresh_session }
    ensures rest_value { result.rest ≡ 0 }
{
    if start.resumed {
        return Session::resumed(start.service.sizes);
    }
    Session::new()
}

// How it ended. The service that the teller holds is put into the start.
fn end_of<T: Teller>(
    session: Session,
    read_failure: Option<io::Error>,
    write_failure: Option<io::Error>,
    teller: &T,
    start: &mut Start,
) -> End
    ensures service_value { start.new.service ≡ T.held teller.now session.sizes }
    ensures done_value { result.done ≡ session.done }
{
    start.service = teller.to_service(session.sizes);
    End {
        read_failure,
        write_failure,
        done: session.done,
    }
}
