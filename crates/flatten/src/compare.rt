ghost use Rattle.std.specs.Prelude.{◌≡◌, length};
ghost use Rattle.model.specs.Model.{lists};
ghost use Rattle.model.specs.Looks.{zeroed};
ghost use Rattle.flatten.specs.Comparing.{CompareAnswer};

use crate::names::all_there;
use crate::stretch::Cursor;
use model::faults::Fault;
use model::names::Name;
use space::Space;
use space::slots::wipe;

// Goes up from address 0, stretch after stretch, to the first address that decides.
fn first_difference<L: Space, R: Space>(
    first: &L,
    second: &R,
    scratch: &mut [Name],
    other: &mut [Name],
) -> Result<Option<u64>, Fault>
    ensures { CompareAnswer (lists (L.Space.means first.now).shape) (lists (R.Space.means second.now).shape) (length scratch.old) (length other.old) result }
{
    let mut at: u64 = 0;
    // Each step goes as far as both lists stay, so no `for` counts the addresses.
    'stretches: loop {
        let mine = Cursor::at(first, at, scratch)?;
        let theirs = Cursor::at(second, at, other).map_err(|_| Fault::SecondScratchShort)?;
        if !all_there(second, at, mine.names()) || !all_there(first, at, theirs.names()) {
            return Ok(Some(at));
        }
        let last = mine.reach().min(theirs.reach());
        if last == u64::MAX {
            return Ok(None);
        }
        at = last + 1;
    }
}

// The lowest address at which the two spaces have not the same names; none where they are equal at every address.
// Going up, each address asks whether the scratch holds the first's list, 10, then whether the other holds the second's, 11, then for a difference. Both are zero after every call.
pub fn compare<L: Space, R: Space>(
    first: &L,
    second: &R,
    scratch: &mut [Name],
    other: &mut [Name],
) -> Result<Option<u64>, Fault>
    ensures answer { CompareAnswer (lists (L.Space.means first.now).shape) (lists (R.Space.means second.now).shape) (length scratch.old) (length other.old) result }
    ensures wiped { scratch.new ≡ zeroed scratch.old }
    ensures wiped_other { other.new ≡ zeroed other.old }
{
    let answer = first_difference(first, second, scratch, other);
    wipe(scratch);
    wipe(other);
    answer
}
