ghost use Rattle.std.specs.Prelude.{◌≡◌, ◌-◌, ◌<◌, length, MatchOption, MatchResult};
ghost use Rattle.model.specs.declared.faults.Fault.TheVariants.{ScratchShort};
ghost use Rattle.model.specs.Model.{lists};
ghost use Rattle.flatten.specs.Steps.{Ended, Held, Longer};

use crate::names::{all_came, all_met};
use model::faults::Fault;
use model::names::Name;
use space::Space;

// The addresses from `address` to `reach`, over which one list of `count` names stays, raised.
#[derive(Clone, Copy)]
pub struct Stretch {
    pub address: u64,
    pub count: usize,
    pub reach: u64,
}

// A place in a space: the stretch that starts there, with its names held at the front of the scratch.
// The whole scratch stays at hand, since the next look takes it.
#[derive(Drop)]
pub(crate) struct Cursor<'a, S: Space> {
    space: &'a S,
    scratch: &'a mut [Name],
    held: Stretch,
    ghost holds: { Held (lists (S.Space.means space.now).shape) scratch.now held },
}

impl<'a, S: Space> Cursor<'a, S> {
    // Looks at an address, and holds its list.
    pub(crate) fn at(
        space: &'a S,
        address: u64,
        scratch: &'a mut [Name],
    ) -> Result<Cursor<'a, S>, Fault>
        ensures { MatchResult result
            (λ r. (r.held.address ≡ address) × (r.space.now ≡ space.now) × (length r.scratch.now ≡ length scratch.old))
            (λ e. (e ≡ ScratchShort) × (length scratch.old < length (lists (S.Space.means space.now).shape address))) }
    {
        let (count, reach) = space
            .look(address, scratch)
            .map_err(|_| Fault::ScratchShort)?;
        let held = Stretch {
            address,
            count,
            reach,
        };
        Ok(Cursor {
            space,
            scratch,
            held,
        })
    }

    // Where the stretch starts.
    pub(crate) fn start(&self) -> u64
        ensures { result ≡ self.now.held.address }
    {
        self.held.address
    }

    // How far up the stretch goes.
    pub(crate) fn reach(&self) -> u64
        ensures { result ≡ self.now.held.reach }
    {
        self.held.reach
    }

    // The names at its start.
    pub(crate) fn names(&self) -> &[Name]
        ensures { result.now ≡ lists (S.Space.means self.now.space.now).shape self.now.held.address }
    {
        &self.scratch[0..self.held.count]
    }

    // Goes on to the first stretch that is of another run; none where the run goes to the last address.
    pub(crate) fn next_run(self) -> Result<Option<Cursor<'a, S>>, Fault>
        ensures { MatchResult result
            (λ o. MatchOption o
            (Ended (lists (S.Space.means self.entry.space.now).shape) self.entry.held.address 18446744073709551615 (length self.entry.scratch.now))
            (λ r. (self.entry.held.address < r.held.address)
            × Ended (lists (S.Space.means self.entry.space.now).shape) self.entry.held.address (r.held.address - 1) (length self.entry.scratch.now)
            × (r.space.now ≡ self.entry.space.now) × (length r.scratch.now ≡ length self.entry.scratch.now)))
            (λ e. (e ≡ ScratchShort) × Longer (lists (S.Space.means self.entry.space.now).shape) (length self.entry.scratch.now)) }
    {
        let mut last = self;
        // Each step takes the scratch from the one before, so no iterator hands the stretches on.
        'stretches: loop {
            if last.held.reach == u64::MAX {
                return Ok(None);
            }
            let at = last.held.reach + 1;
            let by = at - last.held.address;
            let met = all_met(last.space, at, by, last.names());
            let Cursor {
                space,
                scratch,
                held,
            } = last;
            let next = Cursor::at(space, at, scratch)?;
            let names = next.names();
            if !met || !all_came(space, held.address, by, names) {
                return Ok(Some(next));
            }
            last = next;
        }
    }
}
