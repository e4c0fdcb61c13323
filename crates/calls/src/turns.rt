// Call lines as turns: `b` bind with its value lines, `x` execute, `e` end.
ghost use Rattle.std.specs.Prelude.{◌≡◌, ◌<◌, ◌↔◌, map, length, vec_len, None, IfOk, IsTrue, MatchOption, MatchResult};
ghost use Rattle.figures.specs.Reading.{Reads, Lacks};
ghost use Rattle.calls.specs.Faults.{Because};
ghost use Rattle.calls.specs.Calls.{rendered_bind, call_lines, letter_of_call, GoodHead, GoodCall, TurnRead, CallsRead};

use crate::bundle::Values;
use crate::fault::CallFault;
use figures::{Stop, figure, lettered};
use runs::turns::{Buffers, Call, Turn};
use std::alloc::{AllocError, Global};

// The letter of a call. (The bind has fields, so the calls have no numbers of their own.)
pub fn letter(call: &Call) -> u8
    ensures { result ≡ letter_of_call call.now }
{
    match call {
        Call::Bind { .. } => b'b',
        Call::Execute => b'x',
        Call::End => b'e',
    }
}

// The most that a query number or a count may be.
const MOST_FIGURE: u64 = u32::MAX as u64;

// The first line of a bind: the query's number, and how many values follow.
#[tactic(auto, using(crate::proofs::Lines::one_way))]
fn bind_line(s: &[u8]) -> Option<(u32, u64, &[u8])>
    ensures { MatchOption result (Lacks rendered_bind GoodHead s.now)
        (λ p. Reads rendered_bind GoodHead s.now (p.0, p.1) p.2.now) }
{
    let (query, rest) = figure(lettered(s, b'b', Stop::Space)?, Stop::Space, MOST_FIGURE)?;
    let (count, rest) = figure(rest, Stop::Line, MOST_FIGURE)?;
    Some((query as u32, count, rest))
}

// The turn of a call that lends nothing: each buffer stays the one of before.
fn keeping(call: Call) -> Turn
    ensures { result ≡
        record { call = call; lent = record { text = None; given = None; room = None } } }
{
    Turn {
        call,
        lent: Buffers {
            text: None,
            given: None,
            room: None,
        },
    }
}

// The next call with its value lines, as a turn that keeps the room;
// a bind lends its own text and given bytes.
fn next_turn(heap: Global, s: &[u8]) -> Result<(Turn, &[u8]), CallFault>
    ensures { MatchResult result
        (λ p. TurnRead s.now p.0 p.1.now)
        (Because (Lacks call_lines GoodCall s.now)) }
{
    if let Some(rest) = lettered(s, b'x', Stop::Line) {
        return Ok((keeping(Call::Execute), rest));
    }
    if let Some(rest) = lettered(s, b'e', Stop::Line) {
        return Ok((keeping(Call::End), rest));
    }
    let (query, count, rest) = bind_line(s).ok_or(CallFault::Malformed)?;
    let (values, rest) = Values::read(heap, count, rest)?;
    Ok((values.turn(query), rest))
}

// The turns of the calls of an input, and what is behind them: nothing, or a malformed call first.
#[derive(Drop)]
pub struct Calls<'a> {
    pub turns: Vec<Turn>,
    pub rest: &'a [u8],
}

impl<'a> Calls<'a> {
    // The letter of each call, in order.
    pub fn letters(&self, heap: Global) -> Result<Vec<u8>, AllocError>
        ensures count { IfOk result (λ letters. vec_len letters ≡ vec_len self.now.turns) }
        ensures letters { IfOk result
            (λ letters. letters.items ≡ map (λ t. letter_of_call t.call) self.now.turns.items) }
    {
        let mut letters = Vec::with_capacity(heap, self.turns.len())?;
        for turn in &self.turns {
            letters.push(letter(&turn.call))?;
        }
        Ok(letters)
    }

    // Whether a malformed call comes next.
    pub fn malformed(&self) -> bool
        ensures { IsTrue result ↔ 0 < length self.now.rest.now }
    {
        !self.rest.is_empty()
    }
}

// Reads calls as far as they are well formed.
// The first turn lends the room, and the others keep it.
#[tactic(auto, using(crate::proofs::Calling::reading_more))]
pub fn read_calls(heap: Global, bytes: &[u8], room: Vec<u8>) -> Result<Calls<'_>, AllocError>
    ensures { IfOk result (λ c. CallsRead bytes.now room.items c.turns.items c.rest.now) }
{
    let mut turns = Vec::new(heap);
    let mut room = Some(room);
    let mut rest = bytes;
    while !rest.is_empty() {
        match next_turn(heap, rest) {
            Ok((mut turn, behind)) => {
                turn.lent.room = room.take();
                turns.push(turn)?;
                rest = behind;
            }
            Err(CallFault::Malformed) => return Ok(Calls { turns, rest }),
            Err(CallFault::Memory(error)) => return Err(error),
        }
    }
    Ok(Calls { turns, rest })
}
