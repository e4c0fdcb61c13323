// A sheet that was read to its end.
ghost use Rattle.std.specs.Prelude.{◌≡◌, ◌++◌};
ghost use Rattle.std.specs.List.{flat_map};
ghost use Rattle.sheet.specs.Sheet.{heading_of, rendered_name, rendered_param, body_lines, render, together, names_column, WellFormed};
ghost use Rattle.sheet.specs.Decode.{sheet_at};
ghost use Rattle.sheet.specs.Props.{WellFormed-prop};

use crate::lines::Heading;

pub mod parts;

// The figures and the parts of a sheet that was read to its end.
#[derive(Clone, Copy)]
pub struct CheckedSheet<'a> {
    // What is read of the lent bytes.
    pub bytes: &'a [u8],
    // The figures of its first line.
    pub heading: Heading,
    // Whether some parameter names a column.
    pub table: bool,
    // The bytes from the names of the columns on, from the outcomes on, and behind the last line.
    pub names: &'a [u8],
    pub outcomes: &'a [u8],
    pub rest: &'a [u8],
    pub ghost good: { WellFormed (sheet_at bytes.now) } by { WellFormed-prop (sheet_at bytes.now) },
    pub ghost headed: { heading ≡ heading_of (sheet_at bytes.now) },
    pub ghost tabled: { table ≡ names_column (sheet_at bytes.now).params },
    pub ghost named: { names.now ≡ flat_map rendered_name (sheet_at bytes.now).names ++
        (flat_map rendered_param (sheet_at bytes.now).params ++ outcomes.now) },
    pub ghost stands: { outcomes.now ≡
        together (body_lines (sheet_at bytes.now).outcomes) ++ rest.now },
    pub ghost whole: { bytes.now ≡ together (render (sheet_at bytes.now)) ++ rest.now },
}
