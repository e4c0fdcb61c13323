// A host that plays the outcomes of a sheet in order.
ghost use Rattle.std.specs.Prelude.{◌≡◌, length, drop};
ghost use Rattle.values.specs.Few.{items};
ghost use Rattle.sheet.specs.Decode.{sheet_at};
ghost use Rattle.script.specs.Program.{Stands, LastStands, LastStands-prop};

use host::Slot;
use sheet::CheckedSheet;
use sheet::play::Move;
use values::few::Few;

pub mod playing;

// A sheet that was read to its end, and where it is played.
#[derive(Drop)]
pub struct ScriptHost<'a> {
    sheet: CheckedSheet<'a>,
    slots: Few<Slot, 32>,
    // The bytes from the next outcome on, and which one that is, counted from 0.
    place: &'a [u8],
    index: usize,
    // What the last step gave, if one was made since the last reset.
    last: Option<Move<'a>>,
    byte_limit: usize,
    code: u32,
    ghost each: { length (items slots) ≡ length (sheet_at sheet.bytes.now).params },
    ghost begins: { Stands sheet.bytes.now sheet.outcomes.now
        (sheet_at sheet.bytes.now).outcomes },
    ghost stands: { Stands sheet.bytes.now place.now
        (drop index (sheet_at sheet.bytes.now).outcomes) },
    ghost row: { LastStands sheet.bytes.now last } by { LastStands-prop sheet.bytes.now last },
}
