// What a sheet that was read to its end gives.
ghost use Rattle.std.specs.Prelude.{◌≡◌, ◌<◌, ◌≤◌, ◌↔◌, length, IsTrue};
ghost use Rattle.sheet.specs.Sheet.{render, together};
ghost use Rattle.sheet.specs.Decode.{sheet_at};
ghost use Rattle.sheet.specs.Places.{ByName};

use crate::checked::CheckedSheet;
use crate::play::name_at;

impl<'a> CheckedSheet<'a> {
    // Whether there is such a column, counted from 0.
    fn has_column(&self, index: u64) -> bool
        ensures { IsTrue result ↔ index < self.now.heading.columns }
    {
        index < self.heading.columns
    }

    // The name of a column, counted from 0.
    pub fn column_name(&self, index: usize) -> Option<&'a [u8]>
        ensures { ByName result (sheet_at self.now.bytes.now).names index }
    {
        let i = index as u64;
        if self.has_column(i) {
            name_at(self.names, i)
        } else {
            None
        }
    }

    // How many bytes the sheet has.
    pub fn end(&self) -> usize
        ensures value { result ≡ length (together (render (sheet_at self.now.bytes.now))) }
        ensures inside { result ≤ length self.now.bytes.now }
    {
        self.bytes.len() - self.rest.len()
    }
}
