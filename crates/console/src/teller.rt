// What a program makes of an input: it holds a service, with what it notes beside it, and takes turns.
ghost use Rattle.std.specs.Prelude.{◌≡◌, ◌≤◌, ℕ, length, max, true};
ghost use Rattle.sizes.specs.declared.sizes.Sizes.{Sizes};
ghost use Rattle.service.specs.declared.service.Service.{Service};
ghost use Rattle.service.specs.Lent.{service_held};
ghost use Rattle.playing.specs.Lines.{playing};
ghost use Rattle.playing.specs.Session.{is_told};
ghost use Rattle.explaining.specs.Lines.{explaining};
ghost use Rattle.counting.specs.Lines.{counting};

use counting::CountedService;
use explaining::NotedService;
use ledger::{Ledger, REFUSAL_NUMBERS};
use playing::{Advance, Session};
use service::{HeldService, Service};
use sizes::Sizes;
use trace::TOTALS;

pub trait Teller: Drop {
    // The service that is held, of these sizes.
    ghost held: { Self → Sizes → Service };

    // The room in the output that a turn is given: for a line, and for what is printed last.
    ghost room: { ℕ };

    // With nothing noted, for a service to be held in.
    fn new() -> Self;

    // Holds the service, in place of the one before.
    fn hold(&mut self, service: &Service)
        ensures { held self.new service.now.sizes ≡ service.now };

    // Takes a turn.
    fn advance(
        &mut self,
        session: Session,
        got: usize,
        buffer: &mut [u8],
        out: &mut [u8],
    ) -> Advance
        requires { room ≤ length out.old }
        ensures rest { result.session.rest ≤ length buffer.old }
        ensures written { result.written ≤ length out.old }
        ensures ends { is_told session ≡ true → result.session.done ≡ true };

    fn to_service(&self, sizes: Sizes) -> Service
        ensures { result ≡ held self.now sizes };
}

// `play` holds the service alone.
impl Teller for HeldService {
    ghost held = { λ h z. service_held z h.table h.flags h.stores };

    ghost room = { max (playing true).room (playing true).close_room };

    fn new() -> Self {
        HeldService::zeros()
    }

    fn hold(&mut self, service: &Service) {
        self.hold(service);
    }

    fn advance(
        &mut self,
        session: Session,
        got: usize,
        buffer: &mut [u8],
        out: &mut [u8],
    ) -> Advance {
        session.advance(got, buffer, out, self)
    }

    fn to_service(&self, sizes: Sizes) -> Service {
        self.to_service(sizes)
    }
}

// `explain` notes the lines that wrote each block, and the refusals.
impl Teller for NotedService {
    ghost held = { λ h z. service_held z h.service.table h.service.flags h.service.stores };

    ghost room = { max (explaining true).room (explaining true).close_room };

    fn new() -> Self {
        NotedService {
            service: HeldService::zeros(),
            ledger: Ledger::new(),
            refusals: [0; REFUSAL_NUMBERS],
        }
    }

    fn hold(&mut self, service: &Service) {
        self.service.hold(service);
    }

    fn advance(
        &mut self,
        session: Session,
        got: usize,
        buffer: &mut [u8],
        out: &mut [u8],
    ) -> Advance {
        explaining::advance(session, got, buffer, out, self)
    }

    fn to_service(&self, sizes: Sizes) -> Service {
        self.service.to_service(sizes)
    }
}

// `traffic` counts.
impl Teller for CountedService {
    ghost held = { λ h z. service_held z h.service.table h.service.flags h.service.stores };

    ghost room = { max (counting true).room (counting true).close_room };

    fn new() -> Self {
        CountedService {
            service: HeldService::zeros(),
            totals: [0; TOTALS],
        }
    }

    fn hold(&mut self, service: &Service) {
        self.service.hold(service);
    }

    fn advance(
        &mut self,
        session: Session,
        got: usize,
        buffer: &mut [u8],
        out: &mut [u8],
    ) -> Advance {
        counting::advance(session, got, buffer, out, self)
    }

    fn to_service(&self, sizes: Sizes) -> Service {
        self.service.to_service(sizes)
    }
}
