// Why no turn could be read.
ghost use Rattle.std.specs.Prelude.{◌≡◌, alloc_error};
ghost use Rattle.calls.specs.declared.fault.CallFault.TheVariants.{Memory};

use std::alloc::{AllocError, AllocFailed};

// The lines are malformed, or there is no memory.
#[derive(Clone, Copy, PartialEq, Eq, Debug)]
pub(crate) enum CallFault {
    Malformed,
    Memory(AllocError),
}

impl From<AllocError> for CallFault {
    ghost from_gives = { λ e r. r ≡ Memory e };

    fn from(error: AllocError) -> CallFault {
        CallFault::Memory(error)
    }
}

impl<T: Drop> From<AllocFailed<T>> for CallFault {
    ghost from_gives = { λ _ r. r ≡ Memory alloc_error };

    fn from(failed: AllocFailed<T>) -> CallFault {
        CallFault::Memory(AllocError::from(failed))
    }
}
