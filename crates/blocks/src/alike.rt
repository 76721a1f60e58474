ghost use Rattle.std.specs.Prelude.{◌≡◌, Bool};
ghost use Rattle.model.specs.Edits.{same_accept, same_map};

use crate::stored::{Accepted, Mapped};

// What a net keeps no two of that are alike. Beside `PartialEq`, since its law is in the words of the reference model.
pub trait Alike: Copy {
    ghost alike: { Self → Self → Bool };

    fn is_like(&self, other: &Self) -> bool
        ensures { result ≡ alike self.now other.now };
}

impl Alike for Accepted {
    ghost alike = { λ x y. same_accept x.block y.block };

    fn is_like(&self, other: &Accepted) -> bool {
        self.block == other.block
    }
}

impl Alike for Mapped {
    ghost alike = { λ x y. same_map x.block y.block };

    fn is_like(&self, other: &Mapped) -> bool {
        self.block == other.block
    }
}
