// Collecting the values of a bind, and binding them one by one.
ghost use Rattle.std.specs.Prelude.{◌≡◌, ◌+◌, ◌<◌, ◌≤◌, true, [], ◌++◌, length, take, drop, is_ok, nat_le};
ghost use Rattle.values.specs.Few.{items};
ghost use Rattle.host.specs.Slots.{lent, slot_of};
ghost use Rattle.host.specs.declared.Slot.{Slot};
ghost use Rattle.binds.specs.Pairs.{slot_for, borrowed_span, owned_span, span_fits, span_length, span_bytes, takes_bytes, number_if, all_fit, total_room_bytes, byte_slots, leases_from, written_room};
ghost use Rattle.binds.specs.Tried.{fault_unbindable, one_why, one_after, why_answer, bind_from, tried_answer, refusal_at};

use crate::collector::{Span, SqliteBindValue};
use crate::ledger::{Collecting, Full};
use crate::pairs::Pairs;
use crate::refusal::Refusal;
use host::{BindFault, Host, HostValue, Part, Source, TextValue};
use values::SqliteType;
use values::few::Few;

// Why a value is not bound: its type and value do not pair, or the host refuses it.
#[derive(Clone, Copy, PartialEq, Eq, Debug)]
pub enum Unbindable {
    Unpaired,
    Fault(BindFault),
}

impl From<BindFault> for Unbindable {
    ghost from_gives = { λ f r. r ≡ fault_unbindable f };

    fn from(fault: BindFault) -> Unbindable {
        Unbindable::Fault(fault)
    }
}

impl Unbindable {
    // The refusal, at the value after so many.
    fn at(self, bound: usize) -> Refusal
        requires { bound < 32 }
        ensures { result ≡ refusal_at bound self }
    {
        match self {
            Unbindable::Unpaired => Refusal::Unpaired { value: bound + 1 },
            Unbindable::Fault(fault) => Refusal::NotBound {
                value: bound + 1,
                fault,
            },
        }
    }
}

impl Span {
    // The stretch as a part of a buffer.
    fn part(self, source: Source) -> Part
        ensures { result ≡ record { source = source; start = self.start; len = self.len } }
    {
        Part {
            source,
            start: self.start,
            len: self.len,
        }
    }
}

// A text as the host takes it: from the text if borrowed, else from the room.
fn text_value<'a>(part: Part, text: &'a [u8], room: &'a [u8]) -> HostValue<'a>
    requires { part.start + part.len ≤ length (lent text.now room.now part.source) }
    ensures { slot_of result ≡ Slot.Text part }
{
    HostValue::Text(TextValue {
        source: part.source,
        start: part.start,
        bytes: part.bytes(text, room),
    })
}

// The value that the host is given, an owned one with its lease at a place of the room.
fn host_value<'a>(
    value: &SqliteBindValue,
    at: usize,
    text: &'a [u8],
    room: &'a [u8],
) -> HostValue<'a>
    requires borrowed { span_fits (length text.now) (borrowed_span value.now) ≡ true }
    requires owned { at + span_length (owned_span value.now) ≤ length room.now }
    ensures { slot_of result ≡ slot_for at value.now }
{
    match *value {
        SqliteBindValue::Null => HostValue::Null,
        SqliteBindValue::BorrowedString(span) => text_value(span.part(Source::Text), text, room),
        SqliteBindValue::String(span) => {
            text_value(Span { start: at, ..span }.part(Source::Room), text, room)
        }
        SqliteBindValue::BorrowedBinary(span) => HostValue::Blob(span.part(Source::Text)),
        SqliteBindValue::Binary(span) => {
            HostValue::Blob(Span { start: at, ..span }.part(Source::Room))
        }
        SqliteBindValue::I32(n) => HostValue::Long(i64::from(n)),
        SqliteBindValue::I64(n) => HostValue::Long(n),
        SqliteBindValue::F64(x) => HostValue::Double(x),
    }
}

// Binds one value at a slot: the pairing is tested first, then the host is asked.
#[tactic(auto, using(std::proofs::lemmas::Grind::common_steps, std::proofs::lemmas::Bool::Decides::nat_tests), unfolding(host::specs::Meaning::bind_answer))]
fn bind_one<X: Host>(
    host: &mut X,
    slot: usize,
    pair: &(SqliteType, SqliteBindValue),
    at: usize,
    text: &[u8],
    room: &[u8],
) -> Result<(), Unbindable>
    requires borrowed { span_fits (length text.now) (borrowed_span pair.now.1) ≡ true }
    requires owned { at + span_length (owned_span pair.now.1) ≤ length room.now }
    ensures answer { result ≡ why_answer (one_why (X.Host.meaning host.old) slot at pair.now) }
    ensures after { X.Host.meaning host.new ≡ one_after (X.Host.meaning host.old) slot at pair.now }
{
    let (tpe, value) = *pair;
    if !value.pairs_with(tpe) {
        return Err(Unbindable::Unpaired);
    }
    host.bind(slot, host_value(&value, at, text, room))?;
    Ok(())
}

// How many bytes a value takes in the room.
fn room_bytes(value: &SqliteBindValue) -> usize
    ensures { result ≡ span_length (owned_span value.now) }
{
    value.owned().map_or(0, |span| span.len)
}

// Notes a slot that took text or bytes.
fn note(took: &mut Few<usize, 32>, slot: usize, value: &SqliteBindValue)
    requires { length (items took.old) < 32 }
    ensures { items took.new ≡ items took.old ++ number_if (takes_bytes value.now) slot }
{
    if value.takes_bytes() {
        took.push(slot);
    }
}

// Binds the values in order, each at the slot of its number, and notes the slots that took text or
// bytes.
pub fn bind_values<X: Host>(
    host: &mut X,
    pairs: &Pairs<'_>,
    text: &[u8],
    room: &[u8],
    took: &mut Few<usize, 32>,
) -> Result<(), Refusal>
    requires none { items took.old ≡ [] }
    requires borrowed { all_fit (length text.now) borrowed_span pairs.now ≡ true }
    requires owned { total_room_bytes pairs.now ≤ length room.now }
    ensures answer { result ≡ tried_answer (bind_from (X.Host.meaning host.old) 0 0 pairs.now) }
    ensures after { X.Host.meaning host.new ≡
        (bind_from (X.Host.meaning host.old) 0 0 pairs.now).host }
    ensures took { items took.new ≡
        byte_slots 1 (take (bind_from (X.Host.meaning host.old) 0 0 pairs.now).bound pairs.now) }
{
    let mut at = 0;
    for (i, pair) in pairs.as_slice().iter().enumerate() {
        bind_one(host, i + 1, pair, at, text, room).map_err(|why| why.at(i))?;
        note(took, i + 1, &pair.1);
        at += room_bytes(&pair.1);
    }
    Ok(())
}

// Enters the leases of the owned values, or stops where the room is too short.
pub fn enter_leases(
    collecting: &mut Collecting<'_>,
    pairs: &Pairs<'_>,
    room: usize,
) -> Result<(), Full>
    requires none { items collecting.old.ledger.now.leases ≡ [] }
    requires unused { collecting.old.ledger.now.used ≡ 0 }
    ensures answer { is_ok result ≡ nat_le (total_room_bytes pairs.now) room }
    ensures leases { is_ok result ≡ true →
        items collecting.new.ledger.now.leases ≡ leases_from 0 pairs.now }
    ensures before { collecting.new.before ≡ collecting.old.before }
    ensures lender { collecting.new.ledger.ghost_name ≡ collecting.old.ledger.ghost_name }
{
    collecting.ledger.enter_all(pairs, room)
}

// Copies an owned value into the room from a place on.
fn write_one(owned: Option<Span>, given: &[u8], room: &mut [u8], at: usize)
    requires inside { span_fits (length given.now) owned ≡ true }
    requires fits { at + span_length owned ≤ length room.old }
    ensures { room.new ≡
        take at room.old ++ (span_bytes given.now owned ++ drop (at + span_length owned) room.old) }
{
    if let Some(span) = owned {
        let bytes = &given[span.start..span.start + span.len];
        room[at..at + span.len].copy_from_slice(bytes);
    }
}

// Copies each owned value into its own stretch of the room, one after the other from its start.
pub fn write_owned(pairs: &[(SqliteType, SqliteBindValue)], given: &[u8], room: &mut [u8])
    requires inside { all_fit (length given.now) owned_span pairs.now ≡ true }
    requires fits { total_room_bytes pairs.now ≤ length room.old }
    ensures { room.new ≡ written_room pairs.now given.now room.old }
{
    let mut at = 0;
    for (_, value) in pairs {
        write_one(value.owned(), given, room, at);
        at += room_bytes(value);
    }
}
