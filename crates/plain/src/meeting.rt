// Question 8: how many names the walks of a net meet, found for all its 32 × 2^64 names together.
// A round counts every name's steps by what the round before counted for these.
use crate::net::{MOST, NODES, Net};
use crate::words::{Shift, Spot, Stretch};
use std::alloc::{AllocError, Global};
use std::collections::{BTreeMap, BTreeSet};

// A node's count of names met, by the address from which it holds; before the first of these it is 1. Any count above 64 is 65, so that counts are added and compared as numbers.
type Counts = BTreeMap<u64, u8>;

// The count that holds at an address of a node; an arrival in the space below is one name too.
fn count_at(counts: &[Counts], spot: Spot) -> u8 {
    counts
        .get(usize::from(spot.node))
        .and_then(|own| own.range(..=spot.address).next_back())
        .map_or(1, |(_, count)| *count)
}

// Adds a stretch's first address, and the one behind its end.
pub fn mark(seams: &mut BTreeSet<u64>, at: &Stretch) -> Result<(), AllocError> {
    seams.insert(at.lo)?;
    if let Some(behind) = at.hi.checked_add(1) {
        seams.insert(behind)?;
    }
    Ok(())
}

impl Net {
    // The name itself with what its steps met by the counts so far.
    fn met(&self, heap: Global, counts: &[Counts], spot: Spot) -> Result<u8, AllocError> {
        let steps = self.steps(heap, spot)?;
        Ok(
            steps.iter().fold(1u8, |met, step| {
                met.saturating_add(count_at(counts, *step)).min(MOST + 1)
            }),
        )
    }

    // The ends of a node's own blocks.
    pub(crate) fn ends(&self, heap: Global, node: u8) -> Result<BTreeSet<u64>, AllocError> {
        let mut seams = BTreeSet::new(heap);
        let accepts = self.accepts.iter().filter(|block| block.node == node);
        let maps = self.maps.iter().filter(|block| block.node == node);
        let stretches = accepts
            .map(|block| block.at)
            .chain(maps.map(|block| block.shift.at));
        for at in stretches {
            mark(&mut seams, &at)?;
        }
        Ok(seams)
    }

    // Every address of a node at which its next count may change: its blocks' ends, 0 if it has an overlay, and what a step carries to a change.
    fn changes(
        &self,
        heap: Global,
        counts: &[Counts],
        node: u8,
    ) -> Result<BTreeSet<u64>, AllocError> {
        let mut seams = self.ends(heap, node)?;
        for block in self.maps.iter().filter(|block| block.node == node) {
            fetch(&mut seams, counts, block.to, &block.shift)?;
        }
        if let Some(to) = self.overlays.get(&node) {
            seams.insert(0)?;
            fetch(&mut seams, counts, *to, &EVERYWHERE)?;
        }
        Ok(seams)
    }

    // A node's next counts.
    fn recount(&self, heap: Global, counts: &[Counts], node: u8) -> Result<Counts, AllocError> {
        let mut next: Counts = BTreeMap::new(heap);
        let mut last = 1;
        let seams = self.changes(heap, counts, node)?;
        for a in seams.iter() {
            let met = self.met(heap, counts, Spot { node, address: *a })?;
            if met != last {
                next.insert(*a, met)?;
                last = met;
            }
        }
        Ok(next)
    }

    fn round(&self, heap: Global, counts: &[Counts]) -> Result<Vec<Counts>, AllocError> {
        (0..NODES)
            .map(|node| self.recount(heap, counts, node))
            .try_collect(heap)
    }

    // The first name, by node, then address, whose walk meets more than 64 names.
    pub fn first_overfull(&self, heap: Global) -> Result<Option<Spot>, AllocError> {
        let mut counts = Vec::new(heap);
        for _ in 0..MOST {
            let next = self.round(heap, counts.as_slice())?;
            if next == counts {
                break;
            }
            counts = next;
        }
        Ok((0..NODES).find_map(|node| first_above(counts.as_slice(), node)))
    }
}

// What an overlay carries: every address to itself.
pub(crate) const EVERYWHERE: Shift = Shift {
    at: Stretch {
        lo: 0,
        hi: u64::MAX,
    },
    base: 0,
};

// Adds the addresses that are carried to a node at which that node's count changes.
fn fetch(
    seams: &mut BTreeSet<u64>,
    counts: &[Counts],
    node: u8,
    shift: &Shift,
) -> Result<(), AllocError> {
    match counts.get(usize::from(node)) {
        Some(there) => seams.extend(there.keys().filter_map(|from| shift.fetched(*from))),
        None => Ok(()),
    }
}

fn first_above(counts: &[Counts], node: u8) -> Option<Spot> {
    counts
        .get(usize::from(node))?
        .iter()
        .find(|(_, count)| **count > MOST)
        .map(|(from, _)| Spot {
            node,
            address: *from,
        })
}
