#![tactic(auto)]

// What an address space is, and the spaces that stand at the bottom of a stack.
ghost use Rattle.std.specs.Prelude.{◌≡◌, length};
ghost use Rattle.model.specs.Names.{holds};
ghost use Rattle.model.specs.Model.{Meaning, lists};
ghost use Rattle.model.specs.Looks.{LookAnswer, filled};

use model::faults::Fault;
use model::names::Name;

pub mod bank;
pub mod flat;
pub mod layer;
pub mod slots;
pub mod socket;

// An address space: one finite list of names for each address.
pub trait Space {
    // what it means: a reference model, and that this is sound
    ghost means: { Self → Meaning };

    // Puts the list at an address into the slots, and answers its length together with how far up the same list goes, each name raised by the distance.
    // Where the slots do not hold the list, every one of them is zero, and the answer is 9.
    // The slots are lent, since there is no heap; so their count stands in the answer.
    fn look(&self, address: u64, slots: &mut [Name]) -> Result<(usize, u64), Fault>
        ensures answer { LookAnswer (lists (means self.now).shape) address (length slots.old) result }
        ensures buffer { slots.new ≡ filled (lists (means self.now).shape address) slots.old };

    // Whether the list at an address has a name.
    fn meets(&self, address: u64, name: Name) -> bool
        ensures { result ≡ holds (lists (means self.now).shape address) name };
}
