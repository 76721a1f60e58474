ghost use Rattle.std.specs.Prelude.{◌≡◌, true, cond, [], length, Some, None, OnOk};
ghost use Rattle.std.specs.List.{list_any};
ghost use Rattle.std.specs.Option.{option_eq};
ghost use Rattle.model.specs.Names.{same_name};
ghost use Rattle.model.specs.Nets.{within};
ghost use Rattle.model.specs.Model.{bottom};
ghost use Rattle.model.specs.Faults.{refusal};
ghost use Rattle.model.specs.Bottoms.{led, tabled, misfit, sane, all_sane, steady, steady_all};
ghost use Rattle.model.specs.Edits.{ended, settled};
ghost use Rattle.model.specs.Looks.{LookAnswer, ReachIs, filled};

use crate::Space;
use crate::slots::wipe;
use model::faults::Fault;
use model::names::Name;
use model::ranges::check_target;
use model::records::Record;

// A table of records, lent by the caller. Each record that covers an address leads it to its component.
#[derive(Drop)]
pub struct FlatTable<'a> {
    records: &'a [Record],
    ghost valid: { all_sane records.now ≡ true },
}

// Where a record leads an address, if it covers it.
fn lead(row: &Record, address: u64) -> Option<Name>
    requires { sane row.now ≡ true }
    ensures { result ≡ cond (within row.now.lo row.now.hi address) (Some (led row.now address)) None }
{
    if !(row.lo..=row.hi).contains(&address) {
        return None;
    }
    Some(Name {
        component: row.component,
        address: row.base + (address - row.lo),
    })
}

// Whether one of the records leads the address to the name.
fn any_leads(records: &[Record], address: u64, name: Name) -> bool
    requires { all_sane records.now ≡ true }
    ensures { result ≡ list_any (λ r. option_eq same_name (cond (within r.lo r.hi address) (Some (led r address)) None) (Some name)) records.now }
{
    records.iter().any(|row| lead(row, address) == Some(name))
}

// The last address up to which the record covers each address as it covers this one.
// A function and no method: records are declared in another crate, where it would have no use.
fn steady_to(row: &Record, address: u64) -> u64
    ensures { result ≡ steady row.now address }
{
    if address < row.lo {
        row.lo - 1
    } else if address <= row.hi {
        row.hi
    } else {
        u64::MAX
    }
}

// Refuses the first record that fails: 3 where its range is reversed, 4 where its target passes the last address.
fn check(records: &[Record]) -> Result<(), Fault>
    ensures answer { refusal result ≡ misfit 0 records.now }
    ensures passed { OnOk result (all_sane records.now ≡ true) }
{
    for (place, row) in records.iter().enumerate() {
        match check_target(row.lo, row.hi, row.base) {
            Ok(()) => {}
            Err(Fault::RangeReversed) => return Err(Fault::RecordReversed { place }),
            Err(_) => return Err(Fault::RecordPastTop { place }),
        }
    }
    Ok(())
}

impl<'a> FlatTable<'a> {
    // A table with no records.
    pub fn new() -> FlatTable<'a>
        ensures { result.records.now ≡ [] }
    {
        FlatTable { records: &[] }
    }

    // Replaces the records; where one of them fails nothing changes, and the answer tells its place.
    pub fn fill(&mut self, records: &'a [Record]) -> Result<(), Fault>
        ensures answer { ended result ≡ (settled (misfit 0 records.now) records.now self.old.records.now).0 }
        ensures kept { self.new.records.now ≡ (settled (misfit 0 records.now) records.now self.old.records.now).1 }
    {
        check(records)?;
        self.records = records;
        Ok(())
    }
}

impl<'a> Space for FlatTable<'a> {
    ghost means = { λ s. record { shape = bottom (tabled s.records.now); sound = tt } };

    fn look(&self, address: u64, slots: &mut [Name]) -> Result<(usize, u64), Fault>
        ensures answer { LookAnswer (tabled self.now.records.now) address (length slots.old) result }
        ensures buffer { slots.new ≡ filled (tabled self.now.records.now address) slots.old }
        ensures reach { ReachIs (steady_all self.now.records.now address) result }
    {
        let mut count: usize = 0;
        let mut reach = u64::MAX;
        for row in self.records {
            if let Some(name) = lead(row, address) {
                // An iterator over the slots would still lend them where they run out, and all are wiped.
                if count == slots.len() {
                    wipe(slots);
                    return Err(Fault::BufferShort);
                }
                slots[count] = name;
                count += 1;
            }
            reach = reach.min(steady_to(row, address));
        }
        Ok((count, reach))
    }

    fn meets(&self, address: u64, name: Name) -> bool {
        any_leads(self.records, address, name)
    }
}
