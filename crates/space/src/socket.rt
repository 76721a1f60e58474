ghost use Rattle.std.specs.Prelude.{◌≡◌, ◌-◌, length};
ghost use Rattle.model.specs.Names.{top};
ghost use Rattle.model.specs.Model.{bottom};
ghost use Rattle.model.specs.Looks.{LookAnswer, ReachIs, filled};
ghost use Rattle.model.specs.Bottoms.{nowhere};

use crate::Space;
use model::faults::Fault;
use model::names::Name;

// A place with nothing in it: the list at every address is empty.
#[derive(Clone, Copy, Debug)]
pub struct Socket;

impl Space for Socket {
    ghost means = { λ s. record { shape = bottom nowhere; sound = tt } };

    fn look(&self, address: u64, slots: &mut [Name]) -> Result<(usize, u64), Fault>
        ensures answer { LookAnswer nowhere address (length slots.old) result }
        ensures buffer { slots.new ≡ filled (nowhere address) slots.old }
        ensures reach { ReachIs (top - 1) result }
    {
        Ok((0, u64::MAX))
    }

    fn meets(&self, _address: u64, _name: Name) -> bool {
        false
    }
}
