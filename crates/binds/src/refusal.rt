// The refusals of a statement's calls, by number and figures.
ghost use Rattle.std.specs.Prelude.{◌≡◌};
ghost use Rattle.binds.specs.Refusals.{refusal_number, refusal_figures, room_short};

use crate::ledger::Full;
use host::BindFault;

// What a call is refused for.
#[derive(Clone, Copy, PartialEq, Eq, Debug)]
pub enum Refusal {
    // a binding is current where none may be, or the other way round
    WrongState,
    // a buffer is too long, or has another length than at the bind
    Length,
    RowHeld,
    TooManyValues,
    Outside,
    Unpaired { value: usize },
    RoomShort,
    NotBound { value: usize, fault: BindFault },
    StepFailed { code: u32, returned: usize },
    StepsSpent,
}

impl Refusal {
    // The number by which a call answers the refusal. A match, since a variant with fields has no
    // number of its own.
    pub fn number(&self) -> u32
        ensures { result ≡ refusal_number self.now }
    {
        match *self {
            Refusal::WrongState => 1,
            Refusal::Length => 2,
            Refusal::RowHeld => 3,
            Refusal::TooManyValues => 4,
            Refusal::Outside => 5,
            Refusal::Unpaired { .. } => 6,
            Refusal::RoomShort => 7,
            Refusal::NotBound { .. } => 8,
            Refusal::StepFailed { .. } => 9,
            Refusal::StepsSpent => 19,
        }
    }

    // Its two figures.
    pub fn figures(&self) -> (usize, usize)
        ensures { result ≡ refusal_figures self.now }
    {
        match *self {
            Refusal::Unpaired { value } => (value, 0),
            Refusal::NotBound { value, fault } => (value, fault.code() as usize),
            Refusal::StepFailed { code, returned } => (code as usize, returned),
            _ => (0, 0),
        }
    }
}

impl From<Full> for Refusal {
    ghost from_gives = { λ _ r. r ≡ room_short };

    fn from(_full: Full) -> Refusal {
        Refusal::RoomShort
    }
}
