// A record of a trace: what happened at a station.
#[derive(Clone, Copy)]
pub enum TraceKind {
    Open = 0,
    Close = 1,
    Read = 2,
    // A block that the station sent to the server.
    Sent = 3,
    // A call that the server sent to the station.
    Call = 4,
    Other = 5,
}

#[derive(Clone, Copy)]
pub enum TraceOutcome {
    Done = 0,
    // A read from the copy, and one from the server.
    Hit = 1,
    Fetched = 2,
    Refused = 3,
    // An open that waits.
    Pending = 4,
}

#[derive(Clone, Copy)]
pub struct TraceRecord {
    pub station: u8,
    pub kind: TraceKind,
    pub outcome: TraceOutcome,
}
