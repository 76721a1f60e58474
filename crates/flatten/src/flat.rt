ghost use Rattle.std.specs.Prelude.{◌≡◌, length};
ghost use Rattle.model.specs.Model.{lists};
ghost use Rattle.model.specs.Looks.{zeroed};
ghost use Rattle.flatten.specs.Flattening.{FlattenAnswer};

use crate::count::measure;
use crate::write::fill;
use model::faults::Fault;
use model::names::Name;
use model::records::Record;
use space::Space;
use space::slots::wipe;

// Counts first, so that a refusal leaves the table as it was.
fn count_and_fill<S: Space>(
    space: &S,
    scratch: &mut [Name],
    table: &mut [Record],
) -> Result<usize, Fault>
    ensures { FlattenAnswer (lists (S.Space.means space.now).shape) (length scratch.old) table.old result table.new }
{
    let needed = measure(space, scratch)?;
    if needed > table.len() as u128 {
        return Err(Fault::BufferShort);
    }
    Ok(fill(space, scratch, table))
}

// Writes the records of the space to the front of the table, run after run from address 0 up, and answers their count. Later records keep what they held.
// Refused with 10 where the scratch does not hold every list, then with 9 where the table is short; the table is then untouched. The scratch is zero after every call.
pub fn flatten<S: Space>(
    space: &S,
    scratch: &mut [Name],
    table: &mut [Record],
) -> Result<usize, Fault>
    ensures answer { FlattenAnswer (lists (S.Space.means space.now).shape) (length scratch.old) table.old result table.new }
    ensures wiped { scratch.new ≡ zeroed scratch.old }
{
    let answer = count_and_fill(space, scratch, table);
    wipe(scratch);
    answer
}
