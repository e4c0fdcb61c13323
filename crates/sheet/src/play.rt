// Playing the outcomes of a sheet one after the other, where they stand.
ghost use Rattle.std.specs.Prelude.{◌≡◌, ℕ, ◌<◌, List, [], ◌++◌, length, MatchOption, slice_index_or};
ghost use Rattle.std.specs.List.{flat_map, AllByRecursion};
ghost use Rattle.values.specs.Value.{Value, null};
ghost use Rattle.host.specs.Outcome.{Outcome};
ghost use Rattle.sheet.specs.Sheet.{rendered_name, rendered_value, GoodName, GoodValue};
ghost use Rattle.sheet.specs.Lines.{cell_of};
ghost use Rattle.sheet.specs.Places.{At, Plays, Behind};

use crate::lines::{Cell, Head, head_line, name_line, value_line};

// An outcome; a row by the bytes that begin with its values.
#[derive(Clone, Copy)]
pub enum Move<'a> {
    Row(&'a [u8]),
    Done,
    Failed(u32),
}

// An outcome, and the bytes behind it.
#[derive(Clone, Copy)]
pub struct Played<'a> {
    pub outcome: Move<'a>,
    pub next: &'a [u8],
}

// What is behind so many lines of the kind that `read` reads.
fn behind<'a, T: Drop, F: Fn(&'a [u8]) -> Option<(T, &'a [u8])>>(
    bytes: &'a [u8],
    count: u64,
    read: F,
) -> Option<&'a [u8]>
    requires { F.IsAlwaysCallable read }
    ensures { Behind (λ s o. F.post read s o) bytes.now count result }
{
    let mut rest = bytes;
    for _ in 0..count {
        (_, rest) = read(rest)?;
    }
    Some(rest)
}

// The outcome in front of the bytes, in so many columns; none past the last one.
pub fn next_outcome(bytes: &[u8], columns: u64) -> Option<Played<'_>>
    ensures { (os : List Outcome) → At bytes.now columns os → Plays bytes.now columns os result }
{
    let (head, rest) = head_line(bytes)?;
    let (outcome, next) = match head {
        Head::Row => (Move::Row(rest), behind(rest, columns, value_line)?),
        Head::Done => (Move::Done, rest),
        Head::Failed(code) => (Move::Failed(code), rest),
        Head::End => return None,
    };
    Some(Played { outcome, next })
}

// Value `i`, counted from 0, of the row whose values the bytes begin with.
pub fn value_at(values: &[u8], i: u64) -> Option<Cell<'_>>
    ensures { (vs : List Value) (rest : List ℕ) → i < length vs → AllByRecursion GoodValue vs →
        values.now ≡ flat_map rendered_value vs ++ rest →
        MatchOption result ⊥ (λ v. cell_of v ≡ slice_index_or vs i null) }
{
    let (cell, _) = value_line(behind(values, i, value_line)?)?;
    Some(cell)
}

// Name `i`, counted from 0, of the columns whose lines the bytes begin with.
pub fn name_at(names: &[u8], i: u64) -> Option<&[u8]>
    ensures { (ns : List (List ℕ)) (rest : List ℕ) → i < length ns → AllByRecursion GoodName ns →
        names.now ≡ flat_map rendered_name ns ++ rest →
        MatchOption result ⊥ (λ n. n.now ≡ slice_index_or ns i []) }
{
    let (name, _) = name_line(behind(names, i, name_line)?)?;
    Some(name)
}
