ghost use Rattle.std.specs.Prelude.{◌≡◌, ◌<◌, true, ◌&&◌, ◌==◌, length, IfOk};
ghost use Rattle.std.specs.List.{list_all, zip};
ghost use Rattle.lists.specs.Held.{held};
ghost use Rattle.blocks.specs.Shape.{kept};
ghost use Rattle.quicksearch.specs.Exceeding.{Within};
ghost use Rattle.quicksearch.specs.Agendas.{spots, same_spot as same_spot_lem};

use crate::memo::{AGENDAS, Agenda, NO_TARGET, PassedAgenda, SPOTS, Target, place, spread};
use crate::search::Search;
use lists::{ArrayVec, Full};

// Where a passed agenda is remembered.
fn agenda_place(agenda: Agenda) -> usize
    ensures { result < 32 }
{
    let mixed = agenda.targets.iter().fold(0u64, |mixed, t| {
        let address = t.offset.wrapping_add(agenda.starts.low);
        spread(
            mixed
                .rotate_left(5)
                .wrapping_add(address ^ u64::from(u8::from(t.destination))),
        )
    });
    place::<AGENDAS>(mixed)
}

// Whether two targets, each from its start, are the same spot.
fn same_spot(t: &Target, start: u64, u: &Target, origin: u64) -> bool
    ensures { result ≡ same_spot_lem start origin (t.now, u.now) }
{
    t.destination == u.destination && t.offset.wrapping_add(start) == u.offset.wrapping_add(origin)
}

// Whether targets, each from its start, are the same spots in the same order.
fn same(targets: &[Target], start: u64, others: &[Target], origin: u64) -> bool
    ensures { result ≡ (length targets.now == length others.now && list_all (same_spot_lem start origin) (zip targets.now others.now)) }
{
    targets.len() == others.len()
        && targets
            .iter()
            .zip(others.iter())
            .all(|(t, u)| same_spot(t, start, u, origin))
}

// The spots as a list of its own, unless they are too many.
fn listed(targets: &[Target]) -> Result<ArrayVec<Target, SPOTS>, Full>
    ensures { IfOk result (λ v. held v ≡ targets.now) }
{
    let mut all = ArrayVec::new(NO_TARGET);
    for t in targets {
        all.push(*t)?;
    }
    Ok(all)
}

impl<'a> Search<'a> {
    // Whether it is remembered that the agenda meets no more than the budget, or even less, over its starts or more.
    pub fn passed(&self, agenda: Agenda, budget: usize) -> bool
        ensures { result ≡ true → Within (kept self.now.net.now) budget (spots agenda.entry.starts.low agenda.entry.targets.now) agenda.entry.starts.extent }
    {
        let e = self.memo.agendas[agenda_place(agenda)];
        if e.budget > budget {
            return false;
        }
        if e.starts.extent < agenda.starts.extent {
            return false;
        }
        same(
            e.targets.as_slice(),
            e.starts.low,
            agenda.targets,
            agenda.starts.low,
        )
    }

    // Remembers that an agenda meets no more than the budget, unless it has too many spots.
    pub fn remember(&mut self, agenda: Agenda, budget: usize)
        requires { Within (kept self.old.net.now) budget (spots agenda.starts.low agenda.targets.now) agenda.starts.extent }
        ensures { self.new.net.now ≡ self.old.net.now }
    {
        let Ok(targets) = listed(agenda.targets) else {
            return;
        };
        self.memo.agendas[agenda_place(agenda)] = PassedAgenda {
            targets,
            starts: agenda.starts,
            budget,
        };
    }
}
