// A call with what is lent at it, and what it is answered.
use binds::collector::SqliteBindValue;
use binds::refusal::Refusal;
use statement::stmt::{Executed, Statement};
use values::SqliteType;

// A call by what it asks.
#[derive(Drop)]
pub enum Call {
    Bind {
        query: u32,
        pairs: Vec<(SqliteType, SqliteBindValue)>,
    },
    Execute,
    End,
}

// The three buffers of a call: what is lent in each, or what is kept in each between two turns.
#[derive(Drop)]
pub struct Buffers<B> {
    pub text: B,
    pub given: B,
    pub room: B,
}

// A call with what is lent at it: each buffer is a fresh one or, at `None`, the one of before
// as the last call left it. The text that is kept is that of the last accepted bind.
#[derive(Drop)]
pub struct Turn {
    pub call: Call,
    pub lent: Buffers<Option<Vec<u8>>>,
}

// What a call answers that is not refused.
#[derive(Clone, Copy, PartialEq, Eq, Debug)]
pub enum Answer {
    Bound(usize),
    Executed(Executed),
    Ended(usize),
}

// What a call is answered: its answer, or why it is refused.
pub type Reply = Result<Answer, Refusal>;

// A list of turns once it is performed: the answers in order, and the statement and the buffers
// as they stand.
#[derive(Drop)]
pub struct Performed<X> {
    pub answers: Vec<Reply>,
    pub statement: Statement<X>,
    pub buffers: Buffers<Vec<u8>>,
}
