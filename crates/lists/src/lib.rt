#![tactic(auto)]

// Lists of bounded length, kept in an array: no heap. They are Copy, which those of the library are not, since a net is edited on a copy.
ghost use Rattle.std.specs.Prelude.{◌≡◌, ◌≤◌, length, ⊤};

use std::alloc::AllocError;

pub mod methods;

// No place is left.
#[derive(Clone, Copy, PartialEq, Eq, Debug)]
pub struct Full;

// The first `len` of `items`.
pub struct ArrayVec<T, const N: usize> {
    items: [T; N],
    len: usize,
    ghost ok: { (len ≤ N) × (length items ≡ N) },
}

// By hand: beside a ghost field a type with a parameter has no derive.
impl<T: Copy, const N: usize> Clone for ArrayVec<T, N> {
    ghost is_clone = { λ x y. y ≡ x };

    ghost is_infallible = { λ _. ⊤ };

    fn clone(&self) -> Result<ArrayVec<T, N>, AllocError> {
        Ok(*self)
    }
}

impl<T: Copy, const N: usize> Copy for ArrayVec<T, N> {}
