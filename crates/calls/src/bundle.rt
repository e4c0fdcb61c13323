// The values of a bind, taken in from its value lines.
ghost use Rattle.std.specs.Prelude.{◌≡◌, ◌+◌, ◌<◌, ◌≤◌, length, vec_len, MatchResult};
ghost use Rattle.figures.specs.Reading.{Lacks};
ghost use Rattle.calls.specs.Faults.{Because};
ghost use Rattle.calls.specs.Items.{rendered_item, datum_of};
ghost use Rattle.calls.specs.Binds.{no_values, with_bytes, next_span, text_value, bytes_value, with_datum, Roomy, GoodNext, Kept, TakenIn, LineTaken, ValuesRead, NoLines, BindTurn};

use crate::fault::CallFault;
use crate::items::{Content, MOST_BYTES, Ownership, item_line};
use binds::collector::{Span, SqliteBindValue};
use runs::turns::{Buffers, Call, Turn};
use std::alloc::Global;
use std::marker::Model;
use std::num::f64_from_bits_with_nan;
use values::SqliteType;

impl Ownership {
    // The value of a text whose bytes stand at a span.
    fn text(self, span: Span) -> SqliteBindValue
        ensures { result ≡ text_value self span }
    {
        match self {
            Ownership::Borrowed => SqliteBindValue::BorrowedString(span),
            Ownership::Owned => SqliteBindValue::String(span),
        }
    }

    // The value of bytes that stand at a span.
    fn bytes(self, span: Span) -> SqliteBindValue
        ensures { result ≡ bytes_value self span }
    {
        match self {
            Ownership::Borrowed => SqliteBindValue::BorrowedBinary(span),
            Ownership::Owned => SqliteBindValue::Binary(span),
        }
    }
}

// Appends bytes to a buffer, and says where they stand in it.
// A buffer that would grow too long makes the call malformed.
fn append(buffer: &mut Vec<u8>, bytes: &[u8]) -> Result<Span, CallFault>
    requires { vec_len buffer.old ≤ 65536 }
    ensures kept { MatchResult result
        (λ span. Kept buffer.old.items buffer.new.items bytes.now span)
        (Because (65536 < vec_len buffer.old + length bytes.now)) }
    ensures few { vec_len buffer.new ≤ 65536 }
{
    let start = buffer.len();
    let len = bytes.len();
    if len > MOST_BYTES - start {
        return Err(CallFault::Malformed);
    }
    buffer.extend_from_slice(bytes)?;
    Ok(Span { start, len })
}

// The pairs of a bind, and the borrowed and the owned bytes that they name.
#[derive(Drop)]
pub(crate) struct Values {
    pairs: Vec<(SqliteType, SqliteBindValue)>,
    text: Vec<u8>,
    given: Vec<u8>,
}

// Clauses see the three lists; there are at most 65,536 bytes of each kind.
impl Model for Values {
    ghost use Rattle.calls.specs.Binds.{Bundle, bundle, Roomy};

    ghost Value = { Bundle };

    ghost view = { λ v. bundle v.pairs.items v.text.items v.given.items };

    ghost invariant = { λ v. Roomy (bundle v.pairs.items v.text.items v.given.items) };
}

impl Values {
    fn new(heap: Global) -> Values
        ensures { result ≡ no_values }
    {
        Values {
            pairs: Vec::new(heap),
            text: Vec::new(heap),
            given: Vec::new(heap),
        }
    }

    // Takes in bytes of a kind, and says where they stand.
    fn keep(&mut self, ownership: Ownership, bytes: &[u8]) -> Result<Span, CallFault>
        ensures { MatchResult result
            (λ span. (span ≡ next_span ownership bytes.now self.old)
            × (self.new ≡ with_bytes ownership bytes.now self.old))
            (Because (Roomy (with_bytes ownership bytes.now self.old) → ⊥)) }
    {
        match ownership {
            Ownership::Borrowed => append(&mut self.text, bytes),
            Ownership::Owned => append(&mut self.given, bytes),
        }
    }

    // The value that a line holds, with its bytes taken in.
    fn value(&mut self, content: Content<'_>) -> Result<SqliteBindValue, CallFault>
        ensures { MatchResult result
            (λ v. TakenIn self.old self.new (datum_of content.entry) v)
            (Because (Roomy (with_datum (datum_of content.entry) self.old) → ⊥)) }
    {
        Ok(match content {
            Content::Null => SqliteBindValue::Null,
            Content::I32(n) => SqliteBindValue::I32(n),
            Content::I64(n) => SqliteBindValue::I64(n),
            Content::F64(bits) => SqliteBindValue::F64(f64_from_bits_with_nan(bits)),
            Content::Text(ownership, bytes) => ownership.text(self.keep(ownership, bytes)?),
            Content::Bytes(ownership, bytes) => ownership.bytes(self.keep(ownership, bytes)?),
        })
    }

    // Takes in the value line in front of `s`, and gives what is behind it.
    fn take_line<'a>(&mut self, s: &'a [u8]) -> Result<&'a [u8], CallFault>
        ensures { MatchResult result
            (λ rest. LineTaken self.old self.new s.now rest.now)
            (Because (Lacks rendered_item (GoodNext self.old) s.now)) }
    {
        let (item, rest) = item_line(s).ok_or(CallFault::Malformed)?;
        let value = self.value(item.content)?;
        self.pairs.push((item.tpe, value))?;
        Ok(rest)
    }

    // The values of so many lines in front of `s`, and what is behind them.
    pub(crate) fn read(heap: Global, count: u64, s: &[u8]) -> Result<(Values, &[u8]), CallFault>
        ensures { MatchResult result
            (λ p. ValuesRead s.now count p.0 p.1.now)
            (Because (NoLines s.now count)) }
    {
        let mut values = Values::new(heap);
        let mut rest = s;
        for _ in 0..count {
            rest = values.take_line(rest)?;
        }
        Ok((values, rest))
    }

    // The turn of a bind with these values, which lends their bytes and keeps the room.
    pub(crate) fn turn(self, query: u32) -> Turn
        ensures { BindTurn query self result }
    {
        let call = Call::Bind {
            query,
            pairs: self.pairs,
        };
        let lent = Buffers {
            text: Some(self.text),
            given: Some(self.given),
            room: None,
        };
        Turn { call, lent }
    }
}
