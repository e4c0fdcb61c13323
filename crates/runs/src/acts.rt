// Performing turns: one call each, on the buffers that it lends, and whole lists of them.
ghost use Rattle.std.specs.Prelude.{◌≡◌, [], IfOk};
ghost use Rattle.statement.specs.State.{state_of};
ghost use Rattle.runs.specs.Turns.{accepted_figures, answer_number, answer_figures, desk, asked, says, goes, leaves, lent_bytes, desk_of, at_of, kept_text, turn_says, turn_goes, starting, Answers};
ghost use Rattle.runs.specs.Past.{past_of, Steps, BuffersKept, Copies};

use crate::turns::{Answer, Buffers, Call, Performed, Reply, Turn};
use host::{Host, Stepped};
use statement::stmt::{Executed, Statement};
use std::alloc::{AllocError, Global};

impl Answer {
    // The owned values; row or done, and the buffers returned; or 0, and the buffers returned.
    pub fn figures(&self) -> (usize, usize)
        ensures { result ≡ accepted_figures self.now }
    {
        match *self {
            Answer::Bound(owned) => (owned, 0),
            Answer::Executed(Executed { stepped, returned }) => match stepped {
                Stepped::Row => (1, returned),
                Stepped::Done => (2, returned),
            },
            Answer::Ended(returned) => (0, returned),
        }
    }
}

// The number that a call is answered: 0, or the refusal's.
pub fn number(reply: &Reply) -> u32
    ensures { result ≡ answer_number reply.now }
{
    match reply {
        Ok(_) => 0,
        Err(refusal) => refusal.number(),
    }
}

// The two figures that a call is answered: the answer's, or the refusal's.
pub fn figures(reply: &Reply) -> (usize, usize)
    ensures { result ≡ answer_figures reply.now }
{
    match reply {
        Ok(answer) => answer.figures(),
        Err(refusal) => refusal.figures(),
    }
}

// Makes one call on the buffers that are lent to it.
#[tactic(auto, unfolding(crate::specs::Turns::says, crate::specs::Turns::goes, crate::specs::Turns::leaves))]
fn make_call<X: Host>(
    statement: &mut Statement<X>,
    call: &Call,
    text: &[u8],
    given: &[u8],
    room: &mut [u8],
) -> Reply
    ensures answer { result ≡
        says (state_of X.Host.meaning statement.old) (asked call.now)
        (desk text.now given.now room.old) }
    ensures after { state_of X.Host.meaning statement.new ≡
        goes (state_of X.Host.meaning statement.old) (asked call.now)
        (desk text.now given.now room.old) }
    ensures room { room.new ≡
        leaves (state_of X.Host.meaning statement.old) (asked call.now)
        (desk text.now given.now room.old) }
{
    match call {
        Call::Bind { query, pairs } => statement
            .bind(*query, pairs.as_slice(), text, given, room)
            .map(Answer::Bound),
        Call::Execute => statement.execute(text, room).map(Answer::Executed),
        Call::End => statement.end(text, room).map(Answer::Ended),
    }
}

impl Buffers<Vec<u8>> {
    fn new(heap: Global) -> Buffers<Vec<u8>>
        ensures { desk_of result ≡ desk [] [] [] }
    {
        Buffers {
            text: Vec::new(heap),
            given: Vec::new(heap),
            room: Vec::new(heap),
        }
    }
}

// The text that is kept after a turn: the one that was lent, if it was lent at an accepted bind.
fn text_after(reply: Reply, lent: Option<Vec<u8>>, kept: Vec<u8>) -> Vec<u8>
    ensures { result.items ≡ kept_text reply (lent_bytes lent kept.items) kept.items }
{
    match reply {
        Ok(Answer::Bound(_)) => lent.unwrap_or(kept),
        _ => kept,
    }
}

// Performs a turn: its call on the buffers that it lends.
pub fn perform<X: Host>(
    statement: &mut Statement<X>,
    buffers: Buffers<Vec<u8>>,
    turn: Turn,
) -> (Reply, Buffers<Vec<u8>>)
    ensures answer { result.0 ≡ turn_says (at_of X.Host.meaning statement.old buffers) turn }
    ensures after { at_of X.Host.meaning statement.new result.1 ≡
        turn_goes (at_of X.Host.meaning statement.old buffers) turn }
{
    let Turn { call, lent } = turn;
    let given = lent.given.unwrap_or(buffers.given);
    let mut room = lent.room.unwrap_or(buffers.room);
    let text = lent.text.as_ref().unwrap_or(&buffers.text);
    let reply = make_call(
        statement,
        &call,
        text.as_slice(),
        given.as_slice(),
        room.as_mut_slice(),
    );
    let text = text_after(reply, lent.text, buffers.text);
    (reply, Buffers { text, given, room })
}

// Sets a statement up over a host, of any kind and in any state, and performs the turns in order.
// Want of memory for the answers is told before the first turn.
pub fn perform_all<X: Host + Drop>(
    heap: Global,
    host: X,
    turns: Vec<Turn>,
) -> Result<Performed<X>, AllocError>
    ensures answers { IfOk result (λ p.
        Answers (X.Host.meaning host) turns.items p.answers.items
        (state_of X.Host.meaning p.statement) (desk_of p.buffers)) }
    ensures steps { IfOk result (λ p.
        Steps (X.Host.meaning host)
        (past_of (starting (X.Host.meaning host)) [] turns.items p.answers.items)
        (state_of X.Host.meaning p.statement)) }
    ensures buffers { IfOk result (λ p.
        BuffersKept (past_of (starting (X.Host.meaning host)) [] turns.items p.answers.items)
        (state_of X.Host.meaning p.statement)) }
    ensures copies { IfOk result (λ p.
        Copies (X.Host.meaning host) (state_of X.Host.meaning p.statement)) }
{
    let mut answers = Vec::with_capacity(heap, turns.len())?;
    let mut statement = Statement::new(host);
    let mut buffers = Buffers::new(heap);
    for turn in turns {
        let (reply, after) = perform(&mut statement, buffers, turn);
        buffers = after;
        answers.push_reserved(reply);
    }
    Ok(Performed {
        answers,
        statement,
        buffers,
    })
}
