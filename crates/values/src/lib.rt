// The kinds of values that a statement binds and a row holds, and short lists in a fixed table.
#![tactic(auto)]

ghost use Rattle.values.specs.Types.{TypeOf};

pub mod few;

// The type that is declared for a value to bind, in diesel's order, with the number by which a value
// line names it.
#[derive(Clone, Copy, PartialEq, Eq, Debug)]
pub enum SqliteType {
    Binary = 1,
    Text = 2,
    Float = 3,
    Double = 4,
    SmallInt = 5,
    Integer = 6,
    Long = 7,
}

// A number that names no type.
#[derive(Clone, Copy, PartialEq, Eq, Debug)]
pub struct NoSuchType(pub u32);

impl TryFrom<u32> for SqliteType {
    type Error = NoSuchType;

    ghost try_from_gives = { TypeOf };

    fn try_from(n: u32) -> Result<SqliteType, NoSuchType> {
        match n {
            1 => Ok(SqliteType::Binary),
            2 => Ok(SqliteType::Text),
            3 => Ok(SqliteType::Float),
            4 => Ok(SqliteType::Double),
            5 => Ok(SqliteType::SmallInt),
            6 => Ok(SqliteType::Integer),
            7 => Ok(SqliteType::Long),
            _ => Err(NoSuchType(n)),
        }
    }
}
