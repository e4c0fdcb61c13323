// A reader that moves over a lent sheet line by line, and copies nothing.
ghost use Rattle.std.specs.Prelude.{◌+◌, ◌^◌, ◌≤◌, length};

pub mod reading;

// The bytes that are left of the sheet, and which line they begin with, counted from 1.
#[derive(Clone, Copy)]
pub struct SheetReader<'a> {
    pub(crate) rest: &'a [u8],
    line: u64,
    ghost counted: { line + length rest.now ≤ 2 ^ 63 },
}
