// The lines of a sheet: each function reads one kind of line in front of the bytes,
// and gives what is behind it, or says that no such line stands there.
ghost use Rattle.std.specs.Prelude.{ℕ, ◌<◌, ◌↔◌, length, IsTrue, MatchOption, slice_index};
ghost use Rattle.std.specs.Int.{IsInRange};
ghost use Rattle.figures.specs.Figures.{Figured};
ghost use Rattle.figures.specs.Reading.{Reads, Lacks};
ghost use Rattle.sheet.specs.Sheet.{rendered_heading, rendered_name, rendered_param, rendered_value, GoodHeading, GoodName, GoodParam, GoodValue, GoodCode};
ghost use Rattle.sheet.specs.Lines.{cell_of, rendered_head, PlainHead, SuitsHead, GoodHead, NoCode};

use figures::{Stop, double, figure, lettered, number, piece};
use host::Stepped;

// The figures of the first line.
#[derive(Clone, Copy, PartialEq, Eq, Debug)]
pub struct Heading {
    pub columns: u64,
    pub parameters: u64,
    pub copy_limit: u64,
}

// A value of a row: a Double by its bit pattern, a text or a blob by its bytes where they stand.
#[derive(Clone, Copy)]
pub enum Cell<'a> {
    Null,
    Long(i64),
    Double(u64),
    Text(&'a [u8]),
    Blob(&'a [u8]),
}

// The first line of an outcome, or the last line of a sheet. `E` is a line like the others and
// not the lack of one, so it is a case here and no `None`.
#[derive(Clone, Copy, PartialEq, Eq, Debug)]
pub enum Head {
    Row,
    Done,
    Failed(u32),
    End,
}

// The most columns, parameters and live copies.
const COLUMNS: u64 = 16;

const PARAMETERS: u64 = 32;

const COPIES: u64 = 256;

// The most bytes of a column's name, and of a text or a blob.
const NAME: u64 = 32;

const BYTES: u64 = 4096;

// The last code of a failure; 100 says that a row is there, and 101 that there are no more.
const CODE: u64 = 65535;

const ROW: u64 = Stepped::Row as u64;

const DONE: u64 = Stepped::Done as u64;

// The first line.
pub(crate) fn heading_line(s: &[u8]) -> Option<(Heading, &[u8])>
    ensures { MatchOption result (Lacks rendered_heading GoodHeading s.now)
        (λ p. Reads rendered_heading GoodHeading s.now p.0 p.1.now) }
{
    let (columns, rest) = figure(s, Stop::Space, COLUMNS)?;
    let (parameters, rest) = figure(rest, Stop::Space, PARAMETERS)?;
    let (copy_limit, rest) = figure(rest, Stop::Line, COPIES)?;
    let heading = Heading {
        columns,
        parameters,
        copy_limit,
    };
    Some((heading, rest))
}

// Whether each byte is graphic.
fn graphic(s: &[u8]) -> bool
    ensures { IsTrue result ↔
        ((k : ℕ) → k < length s.now → IsInRange 33 126 (slice_index s.now k)) }
{
    s.iter().all(|b| b.is_ascii_graphic())
}

// The line of a column: its name.
pub(crate) fn name_line(s: &[u8]) -> Option<(&[u8], &[u8])>
    ensures { MatchOption result (Lacks rendered_name GoodName s.now)
        (λ p. Reads rendered_name GoodName s.now p.0.now p.1.now) }
{
    let (name, rest) = piece(lettered(s, b'C', Stop::Space)?, 1, NAME)?;
    if !graphic(name) {
        return None;
    }
    Some((name, rest))
}

// The line of a parameter: its column, from 1, or 0.
pub(crate) fn param_line(s: &[u8], columns: u64) -> Option<(u64, &[u8])>
    ensures { MatchOption result (Lacks rendered_param (GoodParam columns) s.now)
        (λ p. Reads rendered_param (GoodParam columns) s.now p.0 p.1.now) }
{
    figure(lettered(s, b'P', Stop::Space)?, Stop::Line, columns)
}

// The line of a value. (Always inline: at a call the value and what is behind it would pass through
// memory, and a sheet of short values would be read in a third more time.)
#[inline(always)]
pub(crate) fn value_line(s: &[u8]) -> Option<(Cell<'_>, &[u8])>
    ensures { MatchOption result (Lacks rendered_value GoodValue s.now)
        (λ p. Reads rendered_value GoodValue s.now (cell_of p.0) p.1.now) }
{
    if let Some(rest) = lettered(s, b'N', Stop::Line) {
        return Some((Cell::Null, rest));
    }
    if let Some(rest) = lettered(s, b'L', Stop::Space) {
        let (z, rest) = number(rest, Stop::Line)?;
        return Some((Cell::Long(z), rest));
    }
    if let Some(rest) = lettered(s, b'G', Stop::Space) {
        let (bits, rest) = double(rest)?;
        return Some((Cell::Double(bits), rest));
    }
    if let Some(rest) = lettered(s, b'T', Stop::Space) {
        let (bytes, rest) = piece(rest, 0, BYTES)?;
        return Some((Cell::Text(bytes), rest));
    }
    let (bytes, rest) = piece(lettered(s, b'B', Stop::Space)?, 0, BYTES)?;
    Some((Cell::Blob(bytes), rest))
}

// Whether a failure may have this code.
fn allowed(code: u64) -> bool
    ensures { IsTrue result ↔ GoodCode code }
{
    code >= 1 && code <= CODE && code != ROW && code != DONE
}

// The code of a failure, and the end of the line.
fn failure_code(s: &[u8]) -> Option<(u32, &[u8])>
    ensures { MatchOption result (NoCode s.now)
        (λ p. Figured 10 65535 s.now p.0 p.1.now × GoodCode p.0) }
{
    let (code, rest) = figure(s, Stop::Line, CODE)?;
    if !allowed(code) {
        return None;
    }
    Some((code as u32, rest))
}

// The first line of an outcome, or the last line of a sheet.
pub(crate) fn head_line(s: &[u8]) -> Option<(Head, &[u8])>
    ensures { MatchOption result (Lacks rendered_head PlainHead s.now)
        (λ p. Reads rendered_head PlainHead s.now p.0 p.1.now) }
{
    if let Some(rest) = lettered(s, b'R', Stop::Line) {
        return Some((Head::Row, rest));
    }
    if let Some(rest) = lettered(s, b'D', Stop::Line) {
        return Some((Head::Done, rest));
    }
    if let Some(rest) = lettered(s, b'E', Stop::Line) {
        return Some((Head::End, rest));
    }
    let (code, rest) = failure_code(lettered(s, b'F', Stop::Space)?)?;
    Some((Head::Failed(code), rest))
}

// Whether this line may stand in the sheet, which is a table or is not: a table has rows only.
fn suits(head: Head, table: bool) -> bool
    ensures { IsTrue result ↔ SuitsHead table head }
{
    match head {
        Head::Row | Head::End => true,
        Head::Done | Head::Failed(_) => !table,
    }
}

// The same, of those that may stand in the sheet.
pub(crate) fn outcome_line(s: &[u8], table: bool) -> Option<(Head, &[u8])>
    ensures { MatchOption result (Lacks rendered_head (GoodHead table) s.now)
        (λ p. Reads rendered_head (GoodHead table) s.now p.0 p.1.now) }
{
    let (head, rest) = head_line(s)?;
    if !suits(head, table) {
        return None;
    }
    Some((head, rest))
}
