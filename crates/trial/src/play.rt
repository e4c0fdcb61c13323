// A sheet with calls behind it, played from first to last.
use calls::turns::{Calls, read_calls};
use runs::acts::{figures, number, perform_all};
use runs::turns::Reply;
use script::player::ScriptHost;
use sheet::{CheckedSheet, read_sheet};
use std::alloc::{AllocError, Global};
use std::fmt;
use std::fmt::Write;

// The most bytes of a bound value.
const BYTE_LIMIT: usize = 4096;

// How many bytes the room has.
const ROOM: usize = 4096;

// What is shown of a call: its letter, and the number and the two figures that it is answered.
#[derive(Clone, Copy)]
struct Line<'a> {
    letter: u8,
    reply: &'a Reply,
}

impl fmt::Display for Line<'_> {
    fn fmt<W: fmt::Write>(&self, f: &mut fmt::Formatter<W>) -> fmt::Result {
        let call = char::from(self.letter);
        let number = number(self.reply);
        let (first, second) = figures(self.reply);
        write!(f, "{call} {number} {first} {second}")
    }
}

// Performs the calls behind a sheet and shows each, and `?` where a malformed call comes next.
fn show_calls(
    heap: Global,
    sheet: CheckedSheet<'_>,
    calls: Calls<'_>,
) -> Result<String, AllocError> {
    let letters = calls.letters(heap)?;
    let malformed = calls.malformed();
    let Calls { turns, rest: _ } = calls;
    let performed = perform_all(heap, ScriptHost::new(sheet, BYTE_LIMIT), turns)?;
    let mut shown = String::new(heap);
    for (&letter, reply) in letters.iter().zip(performed.answers.iter()) {
        let line = Line { letter, reply };
        writeln!(shown, "{line}")?;
    }
    if malformed {
        shown.push_str("?\n")?;
    }
    Ok(shown)
}

// What a trial of the input prints.
pub(crate) fn play(heap: Global, input: &[u8]) -> Result<String, AllocError> {
    let sheet = match read_sheet(input) {
        Err(bad) => return format!(in heap; "s 20 {} 0\n", bad.line),
        Ok(sheet) => sheet,
    };
    if sheet.table {
        return String::from_str(
            heap,
            "the parameters of this sheet name columns: it cannot be played yet\n",
        );
    }
    let room = vec![in heap; 0; ROOM]?;
    let calls = read_calls(heap, &input[sheet.end()..], room)?;
    show_calls(heap, sheet, calls)
}
