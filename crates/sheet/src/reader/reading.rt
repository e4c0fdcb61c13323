// The reader's methods: each reads the next line, or lines of a kind, or says that the sheet is bad
// there.
ghost use Rattle.std.specs.Prelude.{◌≡◌, ◌+◌, ◌<◌, length, MatchOption, MatchResult};
ghost use Rattle.figures.specs.Reading.{Block};
ghost use Rattle.sheet.specs.Sheet.{rendered_heading, rendered_name, rendered_param, rendered_value, GoodHeading, GoodName, GoodParam, GoodValue, names_column};
ghost use Rattle.sheet.specs.Lines.{IsEndOf, Moved, Stuck, Breaks, cell_of, rendered_head, GoodHead, Ended, OutcomesBreak};

use crate::BadSheet;
use crate::lines::{
    Cell, Head, Heading, heading_line, name_line, outcome_line, param_line, value_line,
};
use crate::reader::SheetReader;

impl<'a> SheetReader<'a> {
    // At the first line.
    pub(crate) fn new(bytes: &'a [u8]) -> SheetReader<'a>
        ensures rest { result.rest.now ≡ bytes.now }
        ensures line { result.line ≡ 1 }
    {
        SheetReader {
            rest: bytes,
            line: 1,
        }
    }

    // Moves past the next line, if one was read, and gives what it says.
    fn past<T>(&mut self, line: Option<(T, &'a [u8])>) -> Result<T, BadSheet>
        requires { MatchOption line (Unit {0}) (λ p. length p.1.now < length self.old.rest.now) }
        ensures { MatchResult result
            (λ v. (line.entry ≡ Some (v, self.new.rest)) × (self.new.line ≡ self.old.line + 1))
            (λ b. (line.entry ≡ None) × (b.line ≡ self.old.line) ×
            (self.new.rest ≡ self.old.rest) × (self.new.line ≡ self.old.line)) }
    {
        let (value, rest) = line.ok_or(BadSheet { line: self.line })?;
        self.rest = rest;
        self.line += 1;
        Ok(value)
    }

    // The first line.
    pub(crate) fn heading(&mut self) -> Result<Heading, BadSheet>
        ensures read { MatchResult result
            (λ h. Moved rendered_heading GoodHeading
            self.old.rest.now self.old.line h self.new.rest.now self.new.line)
            (λ b. Stuck rendered_heading GoodHeading self.old.rest.now self.old.line b.line) }
        ensures same { IsEndOf self.old.rest.now self.new.rest.now }
    {
        self.past(heading_line(self.rest))
    }

    // The name of a column.
    pub(crate) fn name(&mut self) -> Result<&'a [u8], BadSheet>
        ensures read { MatchResult result
            (λ n. Moved rendered_name GoodName
            self.old.rest.now self.old.line n.now self.new.rest.now self.new.line)
            (λ b. Stuck rendered_name GoodName self.old.rest.now self.old.line b.line) }
        ensures same { IsEndOf self.old.rest.now self.new.rest.now }
    {
        self.past(name_line(self.rest))
    }

    // The column of a parameter, one of so many, or 0.
    pub(crate) fn parameter(&mut self, columns: u64) -> Result<u64, BadSheet>
        ensures read { MatchResult result
            (λ k. Moved rendered_param (GoodParam columns)
            self.old.rest.now self.old.line k self.new.rest.now self.new.line)
            (λ b. Stuck rendered_param (GoodParam columns) self.old.rest.now self.old.line b.line) }
        ensures same { IsEndOf self.old.rest.now self.new.rest.now }
    {
        self.past(param_line(self.rest, columns))
    }

    // A value of a row.
    pub(crate) fn value(&mut self) -> Result<Cell<'a>, BadSheet>
        ensures read { MatchResult result
            (λ v. Moved rendered_value GoodValue
            self.old.rest.now self.old.line (cell_of v) self.new.rest.now self.new.line)
            (λ b. Stuck rendered_value GoodValue self.old.rest.now self.old.line b.line) }
        ensures same { IsEndOf self.old.rest.now self.new.rest.now }
    {
        self.past(value_line(self.rest))
    }

    // The first line of an outcome, or the last line.
    pub(crate) fn outcome(&mut self, table: bool) -> Result<Head, BadSheet>
        ensures read { MatchResult result
            (λ h. Moved rendered_head (GoodHead table)
            self.old.rest.now self.old.line h self.new.rest.now self.new.line)
            (λ b. Stuck rendered_head (GoodHead table) self.old.rest.now self.old.line b.line) }
        ensures same { IsEndOf self.old.rest.now self.new.rest.now }
    {
        self.past(outcome_line(self.rest, table))
    }

    // The names of the columns.
    pub(crate) fn names(&mut self, columns: u64) -> Result<(), BadSheet>
        ensures read { MatchResult result
            (λ _. Block rendered_name GoodName self.old.rest.now columns self.new.rest.now ×
            (self.new.line ≡ self.old.line + columns))
            (λ b. Breaks rendered_name GoodName
            self.old.rest.now self.old.line columns b.line) }
        ensures same { IsEndOf self.old.rest.now self.new.rest.now }
    {
        for _ in 0..columns {
            self.name()?;
        }
        Ok(())
    }

    // The parameters, and whether some of them names a column.
    pub(crate) fn parameters(&mut self, columns: u64, parameters: u64) -> Result<bool, BadSheet>
        ensures read { MatchResult result
            (λ table. (b : Block rendered_param (GoodParam columns)
            self.old.rest.now parameters self.new.rest.now) ×
            (table ≡ names_column b.items) ×
            (self.new.line ≡ self.old.line + parameters))
            (λ b. Breaks rendered_param (GoodParam columns)
            self.old.rest.now self.old.line parameters b.line) }
        ensures same { IsEndOf self.old.rest.now self.new.rest.now }
    {
        let mut table = false;
        for _ in 0..parameters {
            table |= self.parameter(columns)? != 0;
        }
        Ok(table)
    }

    // The values of a row. (A loop like that over names. One function for both would say by what it
    // is given to read with how far it came and where it stopped, and each caller would turn that
    // into `Block` and `Breaks`: more than two loops of a line.)
    pub(crate) fn row(&mut self, columns: u64) -> Result<(), BadSheet>
        ensures read { MatchResult result
            (λ _. Block rendered_value GoodValue self.old.rest.now columns self.new.rest.now ×
            (self.new.line ≡ self.old.line + columns))
            (λ b. Breaks rendered_value GoodValue
            self.old.rest.now self.old.line columns b.line) }
        ensures same { IsEndOf self.old.rest.now self.new.rest.now }
    {
        for _ in 0..columns {
            self.value()?;
        }
        Ok(())
    }

    // The outcomes and the last line.
    pub(crate) fn outcomes(&mut self, columns: u64, table: bool) -> Result<(), BadSheet>
        ensures read { MatchResult result
            (λ _. Ended self.old.rest.now columns table self.new.rest.now)
            (λ b. OutcomesBreak self.old.rest.now columns table self.old.line b.line) }
        ensures same { IsEndOf self.old.rest.now self.new.rest.now }
    {
        loop {
            match self.outcome(table)? {
                Head::Row => self.row(columns)?,
                Head::Done | Head::Failed(_) => {}
                Head::End => return Ok(()),
            }
        }
    }
}
