// A list of at most `N` items, in an array. No heap, and it is copied as it is: the kit's `ArrayVec` isn't `Copy`.
ghost use Rattle.std.specs.Prelude.{◌≡◌, ◌≤◌, ⊤};

use std::alloc::AllocError;

pub mod methods;

// The first `len` places are in use; what the others hold counts for nothing, so that the places may be seen and set.
pub struct FixedList<T, const N: usize> {
    pub places: [T; N],
    len: usize,
    ghost room: { len ≤ N },
}

impl<T: Copy, const N: usize> Copy for FixedList<T, N> {}

// By hand: of a type with parameters, `Clone` can't be derived over a ghost field.
impl<T: Copy, const N: usize> Clone for FixedList<T, N> {
    ghost is_clone = { λ l copy. copy ≡ l };

    ghost is_infallible = { λ l. ⊤ };

    fn clone(&self) -> Result<FixedList<T, N>, AllocError> {
        Ok(*self)
    }
}
