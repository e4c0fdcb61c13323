// What is believed of any host of rows.
#![tactic(auto)]

ghost use Rattle.std.specs.Prelude.{◌≡◌, ◌<◌, ◌≤◌, [], length, MatchOption, slice_index_or};
ghost use Rattle.host.specs.Slots.{within, part_bytes, slot_of, slot_length};
ghost use Rattle.host.specs.Meaning.{Meaning, bind_answer, bind_after, reset_after, step_answer, step_after, fault_code};
ghost use Rattle.host.specs.Sound.{Sound};

// The buffer that a part lies in: the text or the room, the caller's buffer that owned values are
// copied into.
#[derive(Clone, Copy, PartialEq, Eq, Debug)]
pub enum Source {
    Text,
    Room,
}

// A stretch of one of the two buffers. A slot holds this and no slice, since the buffers are lent
// anew at each step.
#[derive(Clone, Copy, PartialEq, Eq, Debug)]
pub struct Part {
    pub source: Source,
    pub start: usize,
    pub len: usize,
}

// What a parameter is bound to. A Double is held by its bit pattern.
#[derive(Clone, Copy, PartialEq, Eq, Debug)]
pub enum Slot {
    Null,
    Long(i64),
    Double(u64),
    Text(Part),
    Blob(Part),
}

// A text to bind: where it lies, with its bytes at hand.
#[derive(Clone, Copy)]
pub struct TextValue<'a> {
    pub source: Source,
    pub start: usize,
    pub bytes: &'a [u8],
}

// A value to bind.
#[derive(Clone, Copy)]
pub enum HostValue<'a> {
    Null,
    Long(i64),
    Double(f64),
    Text(TextValue<'a>),
    Blob(Part),
}

// Why a bind is refused, with SQLite's number for it.
#[derive(Clone, Copy, PartialEq, Eq, Debug)]
pub enum BindFault {
    Misuse = 21,
    Range = 25,
    TooBig = 18,
}

impl BindFault {
    // SQLite's number for it.
    pub fn code(self) -> u32
        ensures { result ≡ fault_code self }
    {
        self as u32
    }
}

// A step that gave no failure, with SQLite's code for it.
#[derive(Clone, Copy, PartialEq, Eq, Debug)]
pub enum Stepped {
    Row = 100,
    Done = 101,
}

// A step's failure, with the host's code.
#[derive(Clone, Copy, PartialEq, Eq, Debug)]
pub struct StepFault {
    pub code: u32,
}

// So many bytes from a place on; none where they do not all lie inside.
fn part_of(s: &[u8], start: usize, len: usize) -> &[u8]
    ensures { result.now ≡ within s.now start len }
{
    s.get(start..)
        .and_then(|rest| rest.get(..len))
        .unwrap_or(&[])
}

impl Part {
    // The bytes that the part names, in the text or in the room as its source says.
    pub fn bytes<'a>(&self, text: &'a [u8], room: &'a [u8]) -> &'a [u8]
        ensures { result.now ≡ part_bytes text.now room.now self.now }
    {
        match self.source {
            Source::Text => part_of(text, self.start, self.len),
            Source::Room => part_of(room, self.start, self.len),
        }
    }
}

impl Slot {
    // How many bytes the slot names.
    pub fn byte_count(&self) -> usize
        ensures { result ≡ slot_length self.now }
    {
        match *self {
            Slot::Text(part) | Slot::Blob(part) => part.len,
            _ => 0,
        }
    }
}

impl<'a> HostValue<'a> {
    pub fn null() -> HostValue<'a>
        ensures { slot_of result ≡ Slot.Null }
    {
        Self::Null
    }
}

// The slot that a value stands for; a Double that is not a number is null.
impl<'a> From<HostValue<'a>> for Slot {
    ghost from_gives = { λ v s. s ≡ slot_of v };

    fn from(value: HostValue<'a>) -> Slot {
        match value {
            HostValue::Null => Slot::Null,
            HostValue::Long(n) => Slot::Long(n),
            HostValue::Double(x) if x.is_nan() => Slot::Null,
            HostValue::Double(x) => Slot::Double(std::num::f64_to_bits_with_nan(x)),
            HostValue::Text(t) => Slot::Text(Part {
                source: t.source,
                start: t.start,
                len: t.bytes.len(),
            }),
            HostValue::Blob(part) => Slot::Blob(part),
        }
    }
}

pub trait Host {
    ghost meaning: { Self → Meaning };

    fn parameter_count(&self) -> usize
        ensures { result ≡ (meaning self.now).params };

    fn column_count(&self) -> usize
        ensures { result ≡ length (meaning self.now).names };

    // The name of a column, counted from 0.
    fn column_name(&self, index: usize) -> Option<&[u8]>
        ensures { MatchOption result (length (meaning self.now).names ≤ index)
            (λ b. (index < length (meaning self.now).names) ×
            (b.now ≡ slice_index_or (meaning self.now).names index [])) };

    // Binds a slot, counted from 1.
    fn bind(&mut self, index: usize, value: HostValue<'_>) -> Result<(), BindFault>
        ensures answer { result ≡ bind_answer (meaning self.old) index (slot_of value.entry) }
        ensures after { meaning self.new ≡
            bind_after (meaning self.old) index (slot_of value.entry) };

    // Puts the program at its start.
    fn reset(&mut self)
        ensures { meaning self.new ≡ reset_after (meaning self.old) };

    // One step of the program, on the bytes that are lent to it. (Text and room are two slices: as
    // one struct, clauses would name them by way of it, and a statement's caller lends the room for
    // writing.)
    fn step(&mut self, text: &[u8], room: &[u8]) -> Result<Stepped, StepFault>
        ensures answer { result ≡ step_answer (meaning self.old) text.now room.now }
        ensures after { meaning self.new ≡ step_after (meaning self.old) text.now room.now };

    // The code of the latest bind or step.
    fn code(&self) -> u32
        ensures { result ≡ (meaning self.now).code };

    // What is so of every host, in every state.
    ghost laws: { (x : Self) → Sound (meaning x) };
}
