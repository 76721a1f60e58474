ghost use Rattle.std.specs.Prelude.{◌≡◌, length};
ghost use Rattle.model.specs.Model.{bottom};
ghost use Rattle.model.specs.Bottoms.{banked, bank_reach};
ghost use Rattle.model.specs.Looks.{LookAnswer, ReachIs, filled};

use crate::Space;
use model::faults::Fault;
use model::names::Name;

// A component that answers each address below its size.
#[derive(Clone, Copy, Debug)]
pub struct Bank {
    pub component: u32,
    pub size: u64,
}

impl Bank {
    // The name of an address of its own.
    fn name_at(&self, address: u64) -> Name
        ensures { result ≡ record { component = self.now.component; address = address } }
    {
        Name {
            component: self.component,
            address,
        }
    }
}

impl Space for Bank {
    ghost means = { λ s. record { shape = bottom (banked s.component s.size); sound = tt } };

    fn look(&self, address: u64, slots: &mut [Name]) -> Result<(usize, u64), Fault>
        ensures answer { LookAnswer (banked self.now.component self.now.size) address (length slots.old) result }
        ensures buffer { slots.new ≡ filled (banked self.now.component self.now.size address) slots.old }
        ensures reach { ReachIs (bank_reach self.now.size address) result }
    {
        if address >= self.size {
            return Ok((0, u64::MAX));
        }
        let Some(first) = slots.first_mut() else {
            return Err(Fault::BufferShort);
        };
        *first = self.name_at(address);
        Ok((1, self.size - 1))
    }

    fn meets(&self, address: u64, name: Name) -> bool {
        address < self.size && name == self.name_at(address)
    }
}
