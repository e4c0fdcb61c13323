// The values of a bind, each with its declared type.
ghost use Rattle.std.specs.Prelude.{◌≡◌, ◌≤◌, Ok, Err, length, if◌then◌else◌, nat_le};
ghost use Rattle.binds.specs.Refusals.{too_many_values};

use crate::collector::SqliteBindValue;
use crate::refusal::Refusal;
use std::marker::Model;
use values::SqliteType;

// At most 32 values with their types: the value for slot i is the i-th of them.
#[derive(Drop)]
pub struct Pairs<'a> {
    all: &'a [(SqliteType, SqliteBindValue)],
}

// Clauses see the list.
impl<'a> Model for Pairs<'a> {
    ghost use Rattle.std.specs.Prelude.{◌≤◌, List, length};
    ghost use Rattle.binds.specs.Pairs.{Pair};

    ghost Value = { List Pair };

    ghost view = { λ p. p.all.now };

    ghost invariant = { λ p. length p.all.now ≤ 32 };
}

impl<'a> Pairs<'a> {
    // Refuses more than 32 values.
    pub fn new(all: &'a [(SqliteType, SqliteBindValue)]) -> Result<Pairs<'a>, Refusal>
        ensures { result ≡
            (if nat_le (length all.now) 32 then Ok all.now else Err too_many_values) }
    {
        if all.len() > 32 {
            return Err(Refusal::TooManyValues);
        }
        Ok(Pairs { all })
    }

    pub fn as_slice(&self) -> &'a [(SqliteType, SqliteBindValue)]
        ensures value { result.now ≡ self.now }
        ensures few { length self.now ≤ 32 }
    {
        self.all
    }
}
