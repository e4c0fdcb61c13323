// The values of a bind call, and what a caller asks of a list of them.
ghost use Rattle.std.specs.Prelude.{◌≡◌};
ghost use Rattle.binds.specs.Pairs.{pairs_up, owned_span, takes_bytes, span_inside, value_inside, all_inside};

use values::SqliteType;

// A stretch of bytes: of the text for a borrowed value, of the given bytes for an owned one, of the
// room for a lease. No slice: a caller's may lie outside, which a bind refuses, and a borrowed one is
// looked up anew at each step.
#[derive(Clone, Copy, PartialEq, Eq, Debug)]
pub struct Span {
    pub start: usize,
    pub len: usize,
}

impl Span {
    // Whether the stretch lies inside so many bytes; an empty one may stand at their end.
    pub(crate) fn is_inside(&self, size: usize) -> bool
        ensures { result ≡ span_inside size self.now }
    {
        self.start <= size && self.len <= size - self.start
    }
}

// A value to bind. Borrowed text and bytes are read from the text at each step;
// owned ones come from the given bytes and are copied into the room.
#[derive(Clone, Copy)]
pub enum SqliteBindValue {
    Null,
    BorrowedString(Span),
    String(Span),
    BorrowedBinary(Span),
    Binary(Span),
    I32(i32),
    I64(i64),
    F64(f64),
}

impl SqliteBindValue {
    // Where an owned value stands in the given bytes.
    pub(crate) fn owned(&self) -> Option<Span>
        ensures { result ≡ owned_span self.now }
    {
        match *self {
            Self::String(span) | Self::Binary(span) => Some(span),
            _ => None,
        }
    }

    // Whether the value is text or bytes, borrowed or owned.
    pub(crate) fn takes_bytes(&self) -> bool
        ensures { result ≡ takes_bytes self.now }
    {
        matches!(
            *self,
            Self::BorrowedString(_) | Self::String(_) | Self::BorrowedBinary(_) | Self::Binary(_)
        )
    }

    // Whether the value lies inside the text, if borrowed, or the given bytes, if owned.
    pub(crate) fn is_inside(&self, text: usize, given: usize) -> bool
        ensures { result ≡ value_inside text given self.now }
    {
        match *self {
            Self::BorrowedString(span) | Self::BorrowedBinary(span) => span.is_inside(text),
            Self::String(span) | Self::Binary(span) => span.is_inside(given),
            _ => true,
        }
    }

    // Whether the value may be bound under a declared type.
    pub(crate) fn pairs_with(&self, tpe: SqliteType) -> bool
        ensures { result ≡ pairs_up tpe self.now }
    {
        match *self {
            Self::Null => true,
            Self::BorrowedBinary(_) | Self::Binary(_) => tpe == SqliteType::Binary,
            Self::BorrowedString(_) | Self::String(_) => tpe == SqliteType::Text,
            Self::F64(_) => matches!(tpe, SqliteType::Float | SqliteType::Double),
            Self::I32(_) => matches!(tpe, SqliteType::SmallInt | SqliteType::Integer),
            Self::I64(_) => tpe == SqliteType::Long,
        }
    }
}

// Whether each value lies inside its buffer.
pub fn all_inside(pairs: &[(SqliteType, SqliteBindValue)], text: usize, given: usize) -> bool
    ensures { result ≡ all_inside text given pairs.now }
{
    pairs.iter().all(|(_, value)| value.is_inside(text, given))
}
