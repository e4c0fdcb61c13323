// The value lines of a bind: a letter, the number of the declared type, and what the letter
// asks for.
// Each function reads what is in front of the bytes, and gives what is behind it,
// or says that no such thing stands there.
ghost use Rattle.std.specs.Prelude.{◌≡◌, ◌^◌, ◌<◌, MatchOption};
ghost use Rattle.std.specs.Int.Signed.{mag};
ghost use Rattle.values.specs.Types.{type_number};
ghost use Rattle.figures.specs.Figures.{stop_byte, Figured, Numbered};
ghost use Rattle.figures.specs.Reading.{Reads, Lacks};
ghost use Rattle.calls.specs.Items.{Datum, letter_of, stop_of, rendered_datum, rendered_item, GoodEntry, AskedBy, NoType, NoSmall, datum_of, entry_of};

use figures::{Stop, double, figure, number, piece};
use values::SqliteType;

// The most bytes, borrowed or owned, of a call.
pub(crate) const MOST_BYTES: usize = 65536;

// Whether a text or bytes are borrowed from the text, or owned and copied into the room.
#[derive(Clone, Copy, PartialEq, Eq, Debug)]
pub(crate) enum Ownership {
    Borrowed,
    Owned,
}

// What a value line holds: a Double by its bit pattern, a text or bytes where they stand.
#[derive(Clone, Copy)]
pub(crate) enum Content<'a> {
    Null,
    I32(i32),
    I64(i64),
    F64(u64),
    Text(Ownership, &'a [u8]),
    Bytes(Ownership, &'a [u8]),
}

// A value under its declared type.
#[derive(Clone, Copy)]
pub(crate) struct Item<'a> {
    pub tpe: SqliteType,
    pub content: Content<'a>,
}

// The greatest number of a declared type.
const MOST_TYPE: u64 = 7;

// The declared type, with `stop` behind it.
#[tactic(auto, using(crate::proofs::Lines::one_way))]
fn declared(s: &[u8], stop: Stop) -> Option<(SqliteType, &[u8])>
    ensures { MatchOption result (NoType (stop_byte stop) s.now)
        (λ p. Figured (stop_byte stop) 7 s.now (type_number p.0) p.1.now) }
{
    let (n, rest) = figure(s, stop, MOST_TYPE)?;
    let tpe = SqliteType::try_from(n as u32).ok()?;
    Some((tpe, rest))
}

// A signed 32-bit figure, and the end of the line.
#[tactic(auto, using(crate::proofs::Lines::one_way))]
fn small(s: &[u8]) -> Option<(i32, &[u8])>
    ensures { MatchOption result (NoSmall s.now)
        (λ p. Numbered 10 s.now p.0 p.1.now × (mag p.0 < 2 ^ 31)) }
{
    let (n, rest) = number(s, Stop::Line)?;
    let n = i32::try_from(n).ok()?;
    Some((n, rest))
}

// What ends the declared type: the line's end if the letter asks for nothing more, else a space.
fn type_stop(letter: u8) -> Stop
    ensures { (d : Datum) → letter_of d ≡ letter → stop_of d ≡ stop_byte result }
{
    if letter == b'N' {
        Stop::Line
    } else {
        Stop::Space
    }
}

// What the letter asks for, behind the declared type. The letters are the format's own bytes: an
// enum of them would have the cases of `Content` once more.
fn behind_type(letter: u8, s: &[u8]) -> Option<(Content<'_>, &[u8])>
    ensures { MatchOption result (Lacks rendered_datum (AskedBy letter) s.now)
        (λ p. Reads rendered_datum (AskedBy letter) s.now (datum_of p.0) p.1.now) }
{
    match letter {
        b'N' => Some((Content::Null, s)),
        b'I' => {
            let (n, rest) = small(s)?;
            Some((Content::I32(n), rest))
        }
        b'L' => {
            let (n, rest) = number(s, Stop::Line)?;
            Some((Content::I64(n), rest))
        }
        b'G' => {
            let (bits, rest) = double(s)?;
            Some((Content::F64(bits), rest))
        }
        _ => {
            let (bytes, rest) = piece(s, 0, MOST_BYTES as u64)?;
            let content = match letter {
                b'T' => Content::Text(Ownership::Owned, bytes),
                b't' => Content::Text(Ownership::Borrowed, bytes),
                b'B' => Content::Bytes(Ownership::Owned, bytes),
                b'c' => Content::Bytes(Ownership::Borrowed, bytes),
                _ => return None,
            };
            Some((content, rest))
        }
    }
}

// The value line.
#[tactic(auto, using(crate::proofs::Lines::one_way))]
pub(crate) fn item_line(s: &[u8]) -> Option<(Item<'_>, &[u8])>
    ensures { MatchOption result (Lacks rendered_item GoodEntry s.now)
        (λ p. Reads rendered_item GoodEntry s.now (entry_of p.0) p.1.now) }
{
    let [letter, b' ', rest @ ..] = s else {
        return None;
    };
    let (tpe, rest) = declared(rest, type_stop(*letter))?;
    let (content, rest) = behind_type(*letter, rest)?;
    Some((Item { tpe, content }, rest))
}
