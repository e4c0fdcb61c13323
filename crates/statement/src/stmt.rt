// A statement over a host: its binding, what it has lent in the room, and its report.
use binds::ledger::Ledger;
use host::Stepped;
use values::few::Few;

pub mod calls;

// The lengths of the text and the room at the bind, which every later call keeps to.
#[derive(Clone, Copy, PartialEq, Eq, Debug)]
pub struct Lengths {
    pub text: usize,
    pub room: usize,
}

// A binding that is current: the number of its query, and the lengths at its bind.
#[derive(Clone, Copy, PartialEq, Eq, Debug)]
pub struct Binding {
    pub query: u32,
    pub lengths: Lengths,
}

// The rows that were delivered and not yet released: how many there are, with no buffer beside it.
#[derive(Clone, Copy, PartialEq, Eq, Debug)]
pub struct HeldRows {
    count: usize,
}

// What the sink is told at a return: the query's number, and the code of the binding's last step if
// that failed, else 0.
#[derive(Clone, Copy, PartialEq, Eq, Debug)]
pub struct Report {
    pub query: u32,
    pub code: u32,
}

// An execute that was not refused: what its step gave, and how many buffers came back.
#[derive(Clone, Copy, PartialEq, Eq, Debug)]
pub struct Executed {
    pub stepped: Stepped,
    pub returned: usize,
}

// A statement. It has no model of its own: a host's meaning holds its program, a function, and a
// model's value has to be data (tried: no code is found for it). So contracts see it by `state_of`.
#[derive(Drop)]
pub struct Statement<X> {
    host: X,
    // none at rest
    binding: Option<Binding>,
    held: HeldRows,
    // beside the binding, since a collection is begun on the ledger before there is one
    ledger: Ledger,
    nulls: Few<usize, 32>,
    steps: u32,
    report: Option<Report>,
}
