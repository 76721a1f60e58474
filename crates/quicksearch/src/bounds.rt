ghost use Rattle.std.specs.Prelude.{◌≡◌, ◌<◌, ◌≤◌, true, IfSome};
ghost use Rattle.model.specs.Nets.{node as at_node};
ghost use Rattle.blocks.specs.Destinations.{spot_of};
ghost use Rattle.blocks.specs.Shape.{kept};
ghost use Rattle.walks.specs.Spans.{reach};
ghost use Rattle.quicksearch.specs.Exceeding.{Within};
ghost use Rattle.quicksearch.specs.Agendas.{spots, Room};
ghost use Rattle.quicksearch.specs.Remembered.{Holds};

use crate::memo::{Agenda, BOUNDS, Range, RangeBound, place, spread};
use crate::search::Search;
use blocks::destination::Destination;
use walks::nodes::{next_step, reach_above};

// Where the bound of a range is remembered.
fn bound_place(node: u8, range: Range) -> usize
    ensures { result < 128 }
{
    let mixed = (range.low ^ range.extent.rotate_left(32)).wrapping_add(node as u64);
    place::<BOUNDS>(spread(mixed))
}

impl<'a> Search<'a> {
    // The bound of a range, if it is remembered.
    fn known(&self, node: u8, range: Range) -> Option<Option<u8>>
        ensures { IfSome result (λ most. Holds (kept self.now.net.now) (at_node node range.low) range.extent most) }
    {
        let e = self.memo.bounds[bound_place(node, range)];
        if e.node == node && e.range == range {
            return Some(e.most);
        }
        None
    }

    // At least as many names as the walk from any address of a range meets at a destination, or None for more than 64. Beyond `depth` steps it does not look.
    #[cycle(bound_greatest_stretch)]
    fn bound(&mut self, destination: Destination, range: Range, depth: u8) -> Option<u8>
        ensures holds { Holds (kept self.old.net.now) (spot_of destination range.low) range.extent result }
        ensures net { self.new.net.now ≡ self.old.net.now }
    {
        let Destination::Node(node) = destination else {
            return Some(1);
        };
        if depth == 0 {
            return None;
        }
        if let Some(most) = self.known(node, range) {
            return most;
        }
        let most = self.greatest(node, range, depth - 1);
        self.memo.bounds[bound_place(node, range)] = RangeBound { range, node, most };
        most
    }

    // The same at a node: the greatest of the bounds of its stretches.
    #[cycle(bound_greatest_stretch)]
    fn greatest(&mut self, node: u8, range: Range, depth: u8) -> Option<u8>
        ensures holds { Holds (kept self.old.net.now) (at_node node range.low) range.extent result }
        ensures net { self.new.net.now ≡ self.old.net.now }
    {
        let net = self.net;
        let mut most: u8 = 0;
        let mut x = 0;
        // Each stretch is as long as the blocks let it be, so no `for` counts them.
        'along: loop {
            let low = range.low + x;
            let extent = reach_above(net, node, low).min(range.extent - x);
            let b = self.stretch(node, Range { low, extent }, depth)?;
            most = most.max(b);
            if extent >= range.extent - x {
                return Some(most);
            }
            x += extent + 1;
        }
    }

    // The same on one stretch, where the steps are the same: one more than the bounds of the steps together.
    #[cycle(bound_greatest_stretch)]
    fn stretch(&mut self, node: u8, range: Range, depth: u8) -> Option<u8>
        requires near { range.extent ≤ reach (kept self.old.net.now) node range.low }
        ensures holds { Holds (kept self.old.net.now) (at_node node range.low) range.extent result }
        ensures net { self.new.net.now ≡ self.old.net.now }
    {
        let net = self.net;
        let mut sum = 0;
        let mut from = 0;
        // No chain: a bound that is found is remembered.
        while let Some(step) = next_step(net, node, range.low, from) {
            let there = Range {
                low: step.address,
                extent: range.extent,
            };
            let b = self.bound(step.destination, there, depth)?;
            if b > 63 - sum {
                return None;
            }
            sum += b;
            from = step.next;
        }
        Some(sum + 1)
    }

    // Whether the bounds of an agenda's spots, over all its starts, are together within the budget. A walk of 64 names is at most 64 steps deep.
    pub fn within_bounds(&mut self, agenda: Agenda, budget: usize) -> bool
        requires budget { budget ≤ 64 }
        requires room { Room agenda.starts.extent (spots agenda.starts.low agenda.targets.now) }
        ensures within { result ≡ true → Within (kept self.old.net.now) budget (spots agenda.entry.starts.low agenda.entry.targets.now) agenda.entry.starts.extent }
        ensures net { self.new.net.now ≡ self.old.net.now }
    {
        let mut sum: usize = 0;
        // A `for`, since a bound that is found is remembered.
        for t in agenda.targets {
            let range = Range {
                low: t.offset.wrapping_add(agenda.starts.low),
                extent: agenda.starts.extent,
            };
            let Some(b) = self.bound(t.destination, range, 64) else {
                return false;
            };
            let b = b as usize;
            if b > budget - sum {
                return false;
            }
            sum += b;
        }
        true
    }
}
