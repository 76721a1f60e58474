ghost use Rattle.std.specs.Prelude.{◌≡◌, ◌+◌, ◌-◌, ◌<◌, ◌≤◌, ◌∷◌, length, take};
ghost use Rattle.model.specs.Names.{top};
ghost use Rattle.model.specs.Nets.{node as at_node};
ghost use Rattle.model.specs.Walks.{first_overfull_lem};
ghost use Rattle.blocks.specs.Shape.{kept};
ghost use Rattle.blocks.specs.Found.{found};
ghost use Rattle.walks.specs.Spans.{reach};
ghost use Rattle.quicksearch.specs.Exceeding.{FirstIn};
ghost use Rattle.quicksearch.specs.Agendas.{spots, waiting, Waits};

use crate::agenda::add_steps;
use crate::memo::{Agenda, NO_TARGET, Range, Target};
use crate::search::Search;
use blocks::destination::Destination;
use blocks::stored::Blocks;
use walks::nodes::reach_above;

impl<'a> Search<'a> {
    // The place in the agenda of the spot whose first stretch goes farthest. To take it first cuts the starts into the fewest parts.
    fn farthest(&self, agenda: Agenda) -> usize
        ensures { result ≤ length agenda.entry.targets.now }
    {
        let mut best = 0;
        let mut most = 0;
        // The first that goes over all starts ends the loop: `max_by_key` would look at the rest too.
        for (i, t) in agenda.targets.iter().enumerate() {
            let Destination::Node(node) = t.destination else {
                return i;
            };
            let far = reach_above(self.net, node, t.offset.wrapping_add(agenda.starts.low));
            if far >= agenda.starts.extent {
                return i;
            }
            if far > most {
                most = far;
                best = i;
            }
        }
        best
    }

    // The queue has a place for each name that may be met: the first `head` are met, and the rest is the budget. What waits, from `head` up to `tail`, is the agenda. One queue of fixed size serves all depths of the search: each leaves what stands before `tail` as it was, for the depth above it.
    // Answers the least distance by which the start may rise from the lowest for the walks from the agenda together to meet more names than the budget.
    #[cycle(overfull_along_overfull_in)]
    fn overfull_in(
        &mut self,
        queue: &mut [Target],
        head: usize,
        tail: usize,
        starts: Range,
    ) -> Option<u64>
        requires { Waits queue.old head tail starts }
        ensures first { FirstIn (kept self.old.net.now) (64 - head) (spots starts.low (waiting head tail queue.old)) starts.extent result }
        ensures kept { take tail queue.new ≡ take tail queue.old }
        ensures net { self.new.net.now ≡ self.old.net.now }
    {
        if head == tail {
            return None;
        }
        let budget = 64 - head;
        let agenda = Agenda {
            targets: &queue[head..tail],
            starts,
        };
        if self.within_bounds(agenda, budget) {
            return None;
        }
        if self.passed(agenda, budget) {
            return None;
        }
        let turn = self.farthest(agenda);
        queue[head..tail].rotate_left(turn);
        let found = self.overfull_along(queue, head, tail, starts);
        queue[head..tail].rotate_right(turn);
        if found.is_none() {
            let targets = &queue[head..tail];
            self.remember(Agenda { targets, starts }, budget);
        }
        found
    }

    // The same, where some spot waits: the first is taken stretch by stretch.
    #[cycle(overfull_along_overfull_in)]
    fn overfull_along(
        &mut self,
        queue: &mut [Target],
        head: usize,
        tail: usize,
        starts: Range,
    ) -> Option<u64>
        requires some { head < tail }
        requires waits { Waits queue.old head tail starts }
        ensures first { FirstIn (kept self.old.net.now) (64 - head) (spots starts.low (waiting head tail queue.old)) starts.extent result }
        ensures kept { take tail queue.new ≡ take tail queue.old }
        ensures net { self.new.net.now ≡ self.old.net.now }
    {
        let first = queue[head];
        let Destination::Node(node) = first.destination else {
            return self.overfull_in(queue, head + 1, tail, starts);
        };
        let net = self.net;
        let address = first.offset.wrapping_add(starts.low);
        let mut x = 0;
        // Each stretch is as long as the blocks let it be, so no `for` counts them.
        'along: loop {
            let extent = reach_above(net, node, address + x).min(starts.extent - x);
            let low = starts.low + x;
            let part = Range { low, extent };
            if let Some(y) = self.overfull_ahead(node, address + x, queue, head, tail, part) {
                return Some(x + y);
            }
            if extent >= starts.extent - x {
                return None;
            }
            x += extent + 1;
        }
    }

    // The same, from an address at a node and from what waits behind the place `head`, on one stretch of the node. There its steps are the same, and wait behind the others: only breadth first do agendas come again.
    #[cycle(overfull_along_overfull_in)]
    fn overfull_ahead(
        &mut self,
        node: u8,
        address: u64,
        queue: &mut [Target],
        head: usize,
        tail: usize,
        starts: Range,
    ) -> Option<u64>
        requires waits { Waits queue.old (head + 1) tail starts }
        requires fits { address + starts.extent < top }
        requires near { starts.extent ≤ reach (kept self.old.net.now) node address }
        ensures first { FirstIn (kept self.old.net.now) (64 - head) (at_node node address ∷ spots starts.low (waiting (head + 1) tail queue.old)) starts.extent result }
        ensures kept { take tail queue.new ≡ take tail queue.old }
        ensures net { self.new.net.now ≡ self.old.net.now }
    {
        let Some(end) = add_steps(self.net, node, address, starts.low, queue, tail) else {
            return Some(0);
        };
        self.overfull_in(queue, head + 1, end, starts)
    }

    // Searches the nodes one after another.
    fn first(&mut self, queue: &mut [Target]) -> Option<(u8, u64)>
        requires { length queue.old ≡ 64 }
        ensures { found result ≡ first_overfull_lem (kept self.old.net.now) 32 }
    {
        let starts = Range {
            low: 0,
            extent: u64::MAX,
        };
        // A `for`, since the search of a node changes what is remembered.
        for node in 0..32u8 {
            queue[0] = Target {
                offset: 0,
                destination: Destination::Node(node),
            };
            if let Some(address) = self.overfull_in(queue, 0, 1, starts) {
                return Some((node, address));
            }
        }
        None
    }
}

// The first name, by node, then address, whose walk meets more than 64 names.
pub fn first_overfull(blocks: &Blocks) -> Option<(u8, u64)>
    ensures { found result ≡ first_overfull_lem (kept blocks.now) 32 }
{
    let mut queue = [NO_TARGET; 64];
    Search::new(blocks).first(&mut queue)
}
