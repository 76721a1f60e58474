// Flattening and comparing, from seam to seam.
ghost use Rattle.std.specs.Prelude.{◌≡◌, OnErr};

use crate::stack::{Stack, wipe};
use crate::words::{Name, No, Record, Shift, Stretch, Why, ask};
use std::alloc::{AllocError, Global};
use std::collections::BTreeSet;

// A run: where it begins, and its set of names there.
#[derive(Drop)]
struct Run {
    from: u64,
    names: BTreeSet<Name>,
}

// The set of names at an address, if a scratch of this length holds the list.
fn set_at(
    heap: Global,
    stack: &Stack,
    a: u64,
    scratch: usize,
    short: Why,
) -> Result<BTreeSet<Name>, No> {
    let list = stack.list(heap, a)?;
    ask(list.names.len() <= scratch, short)?;
    Ok(list.names.iter().copied().collect(heap)?)
}

// A set with every name raised.
fn raised(heap: Global, names: &BTreeSet<Name>, by: u64) -> Result<BTreeSet<Name>, AllocError> {
    names
        .iter()
        .map(|name| Name {
            component: name.component,
            address: name.address.wrapping_add(by),
        })
        .collect(heap)
}

// All runs, from 0 up.
fn runs(heap: Global, stack: &Stack, scratch: usize) -> Result<Vec<Run>, No> {
    let mut runs: Vec<Run> = Vec::new(heap);
    let seams = stack.seams(heap)?;
    for a in seams.iter() {
        let names = set_at(heap, stack, *a, scratch, Why::ScratchShort)?;
        let goes_on = match runs.last() {
            Some(run) => raised(heap, &run.names, a.wrapping_sub(run.from))? == names,
            None => false,
        };
        if !goes_on {
            runs.push(Run { from: *a, names })?;
        }
    }
    Ok(runs)
}

// A record for each name of each run; the runs are taken from the highest down, for each ends before the next.
fn records(heap: Global, runs: &[Run]) -> Result<Vec<Record>, AllocError> {
    let mut records = Vec::new(heap);
    let mut hi = u64::MAX;
    for run in runs.iter().rev() {
        let at = Stretch { lo: run.from, hi };
        records.extend(
            run.names.iter().map(|name| Record {
                shift: Shift {
                    at,
                    base: name.address,
                },
                component: name.component,
            }),
        )?;
        hi = run.from.wrapping_sub(1);
    }
    records.reverse();
    Ok(records)
}

impl Stack {
    // Writes a table that gives the stack's set of names at every address, and answers the count of its records.
    pub fn flatten(
        &self,
        heap: Global,
        table: &mut [Record],
        scratch: &mut [Name],
    ) -> Result<usize, No>
        ensures { OnErr result (table.new ≡ table.old) }
    {
        wipe(scratch);
        let runs = runs(heap, self, scratch.len())?;
        let records = records(heap, runs.as_slice())?;
        let count = records.len();
        ask(count <= table.len(), Why::BufferShort)?;
        table[..count].copy_from_slice(records.as_slice());
        Ok(count)
    }

    // The lowest address, if any, at which two stacks give different sets; a scratch may be too short before that.
    pub fn compare(
        &self,
        heap: Global,
        other: &Stack,
        first: &mut [Name],
        second: &mut [Name],
    ) -> Result<Option<u64>, No> {
        wipe(first);
        wipe(second);
        let mine = self.seams(heap)?;
        let theirs = other.seams(heap)?;
        for a in mine.union(&theirs) {
            let here = set_at(heap, self, *a, first.len(), Why::ScratchShort)?;
            let there = set_at(heap, other, *a, second.len(), Why::SecondScratchShort)?;
            if here != there {
                return Ok(Some(*a));
            }
        }
        Ok(None)
    }
}
