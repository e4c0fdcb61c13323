// A list in a table of a fixed size, which takes no memory beside it.
ghost use Rattle.std.specs.Prelude.{◌≡◌, ◌≤◌, length};

use std::alloc::AllocError;

pub mod list;

// At most `N` items, in the order in which they came. (It has no model, which a contract would see as
// the list: what has one and is copied cannot be handed on by `?` inside a statement or a host.)
pub struct Few<T, const N: usize> {
    table: [T; N],
    count: usize,
    ghost few: { count ≤ N },
    ghost whole: { length table ≡ N },
}

impl<T: Copy, const N: usize> Clone for Few<T, N> {
    ghost is_clone = { λ f g. g ≡ f };

    ghost is_infallible = { λ _. Unit {0} };

    fn clone(&self) -> Result<Few<T, N>, AllocError> {
        Ok(*self)
    }
}

impl<T: Copy, const N: usize> Copy for Few<T, N> {}
