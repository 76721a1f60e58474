ghost use Rattle.std.specs.Prelude.{◌≡◌, ◌≤◌, true, ◌++◌, map, length, take, drop};
ghost use Rattle.model.specs.Model.{lists};
ghost use Rattle.model.specs.Names.{top};
ghost use Rattle.flatten.specs.Runs.{Flattened, fits, needed, once};
ghost use Rattle.flatten.specs.Steps.{closed, rows};

use crate::names::EachOnce;
use crate::stretch::Cursor;
use model::names::Name;
use model::records::Record;
use space::Space;

// Sets the last address of each record.
fn close_rows(part: &mut [Record], hi: u64)
    ensures { part.new ≡ map (closed hi) part.old }
{
    for row in part.iter_mut() {
        row.hi = hi;
    }
}

// Writes a record from `lo` on for each name, once, and answers how many they are. Their last address is not known yet.
fn write_rows(part: &mut [Record], names: &[Name], lo: u64) -> usize
    requires { length (once names.now) ≤ length part.old }
    ensures { (result ≡ length (once names.now)) × (part.new ≡ rows lo lo (once names.now) ++ drop result part.old) }
{
    // Counted by hand: the count is the answer, which a zip with the rows would not tell.
    let mut found: usize = 0;
    for name in EachOnce::of(names) {
        part[found] = Record {
            lo,
            hi: lo,
            component: name.component,
            base: name.address,
        };
        found += 1;
    }
    found
}

// Writes the records of the space, run after run. The look that ends a run takes the scratch, so the records are written before it and closed after.
pub(crate) fn fill<S: Space>(space: &S, scratch: &mut [Name], table: &mut [Record]) -> usize
    requires held { fits (lists (S.Space.means space.now).shape) (length scratch.old) top ≡ true }
    requires room { needed (lists (S.Space.means space.now).shape) top ≤ length table.old }
    ensures count { result ≡ needed (lists (S.Space.means space.now).shape) top }
    ensures flat { Flattened (lists (S.Space.means space.now).shape) (take result table.new) }
    ensures kept { drop result table.new ≡ drop result table.old }
{
    let Ok(mut run) = Cursor::at(space, 0, scratch) else {
        unreachable!()
    };
    let mut n: usize = 0;
    'runs: loop {
        let end = n + write_rows(&mut table[n..], run.names(), run.start());
        let Ok(ahead) = run.next_run() else {
            unreachable!()
        };
        match ahead {
            None => {
                close_rows(&mut table[n..end], u64::MAX);
                return end;
            }
            Some(next) => {
                close_rows(&mut table[n..end], next.start() - 1);
                n = end;
                run = next;
            }
        }
    }
}
