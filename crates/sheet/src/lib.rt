// A sheet: the columns, the parameters and the outcomes of a statement, read out of lent bytes.
// It is lines, each ending in byte 10: the counts, a line for each column and for each parameter,
// the outcomes, and the line `E`.
#![tactic(auto)]

ghost use Rattle.std.specs.Prelude.{◌≡◌, take, MatchResult};
ghost use Rattle.sheet.specs.Sheet.{RefusedAt, Exclusive};
ghost use Rattle.sheet.specs.Places.{Accepted};
ghost use Rattle.sheet.specs.Decode.{Decodes};

use crate::reader::SheetReader;

pub mod checked;
pub mod lines;
pub mod play;
pub mod reader;

pub use crate::checked::CheckedSheet;

// The sheet is bad at this line, counted from 1: the first one that is broken or missing.
#[derive(Clone, Copy, PartialEq, Eq, Debug)]
pub struct BadSheet {
    pub line: u64,
}

// No more bytes of a sheet are read.
const LIMIT: usize = 65536;

// What is read of the bytes.
fn front(bytes: &[u8]) -> &[u8]
    ensures { result.now ≡ take 65536 bytes.now }
{
    bytes.get(..LIMIT).unwrap_or(bytes)
}

// The sheet in front of the bytes: the only one that stands there, or the line at which there is
// none.
pub fn read_sheet<'a>(bytes: &'a [u8]) -> Result<CheckedSheet<'a>, BadSheet>
    ensures { MatchResult result
        (λ c. (c.bytes.now ≡ take 65536 bytes.now) ×
        Accepted c.bytes.now c.heading c.names.now c.outcomes.now c.rest.now c.table)
        (λ b. RefusedAt (take 65536 bytes.now) b.line) }
{
    let bytes = front(bytes);
    let mut reader = SheetReader::new(bytes);
    let heading = reader.heading()?;
    let names = reader.rest;
    reader.names(heading.columns)?;
    let table = reader.parameters(heading.columns, heading.parameters)?;
    let outcomes = reader.rest;
    reader.outcomes(heading.columns, table)?;
    Ok(CheckedSheet {
        bytes,
        heading,
        table,
        names,
        outcomes,
        rest: reader.rest,
    })
}

// The decoder gives back the sheet that bytes hold. (A function, so that a contract says it.)
pub fn sheet_decodes() -> u8
    ensures { Decodes }
{
    0
}

// No bytes are both accepted and refused, and no bytes are refused at two lines. (A function, so
// that a contract says it.)
pub fn answers_exclude() -> u8
    ensures { Exclusive }
{
    0
}
