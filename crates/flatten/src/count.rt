ghost use Rattle.std.specs.Prelude.{◌≡◌, true, false, length, MatchResult};
ghost use Rattle.model.specs.declared.faults.Fault.TheVariants.{ScratchShort};
ghost use Rattle.model.specs.Model.{lists};
ghost use Rattle.model.specs.Names.{top};
ghost use Rattle.flatten.specs.Runs.{fits, needed};

use crate::names::distinct;
use crate::stretch::Cursor;
use model::faults::Fault;
use model::names::Name;
use space::Space;

// How many records the space takes. There can be more than a usize counts.
pub(crate) fn measure<S: Space>(space: &S, scratch: &mut [Name]) -> Result<u128, Fault>
    ensures { MatchResult result
        (λ n. (n ≡ needed (lists (S.Space.means space.now).shape) top) × (fits (lists (S.Space.means space.now).shape) (length scratch.old) top ≡ true))
        (λ e. (e ≡ ScratchShort) × (fits (lists (S.Space.means space.now).shape) (length scratch.old) top ≡ false)) }
{
    let mut run = Cursor::at(space, 0, scratch)?;
    let mut total: u128 = 0;
    // No iterator hands the runs on: the names of a run lie in the scratch, which the look for the next one takes.
    'runs: loop {
        total += distinct(run.names()) as u128;
        match run.next_run()? {
            None => return Ok(total),
            Some(next) => run = next,
        }
    }
}
