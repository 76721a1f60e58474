ghost use Rattle.std.specs.Prelude.{◌≡◌, true, None, is_none, slice_index_or};
ghost use Rattle.model.specs.Edits.{accept as Accept, map_to as MapTo, over as Over, drop_accept as DropAccept, drop_map as DropMap, enter as Enter, walks_bounded};
ghost use Rattle.model.specs.Walks.{bounded};
ghost use Rattle.blocks.specs.Shape.{kept};
ghost use Rattle.blocks.specs.Outcomes.{Decided};
ghost use Rattle.table.specs.Settling.{Settles};

use crate::table::Table;
use blocks::stored::Blocks;
use model::blocks::{AcceptBlock, MapBlock};
use model::faults::Fault;
use quicksearch::overfull::first_overfull;

// Whether a node has no overlay.
fn is_bare(blocks: &Blocks, node: u8) -> bool
    ensures { result ≡ is_none (slice_index_or blocks.now.overlays node None) }
{
    blocks
        .overlays
        .get(node as usize)
        .copied()
        .flatten()
        .is_none()
}

// An edit that may make walks longer is made on a copy, which is kept where its walks are bounded. A refused edit changes nothing.
// Three lines in each: a function that took the step as a closure would have to state what it does to the copy, and would be no shorter.
impl Table {
    // The node accepts the addresses of one more block. No walk gets longer.
    pub fn accept(&mut self, block: AcceptBlock) -> Result<(), Fault>
        ensures { Settles (kept self.old.blocks) (kept self.new.blocks) (Accept block) result }
    {
        self.blocks.add_accept(block)
    }

    // The node sends the addresses of one more block on.
    pub fn map(&mut self, block: MapBlock) -> Result<(), Fault>
        ensures { Settles (kept self.old.blocks) (kept self.new.blocks) (MapTo block) result }
    {
        let mut new = self.blocks;
        new.add_map(block)?;
        self.settle(new)
    }

    // The node sends on all that none of its blocks covers, or, at 33, no longer does, and then no walk gets longer.
    pub fn over(&mut self, node: u8, destination: u8) -> Result<(), Fault>
        ensures { Settles (kept self.old.blocks) (kept self.new.blocks) (Over node destination) result }
    {
        let mut new = self.blocks;
        new.set_overlay(node, destination)?;
        if destination == 33 {
            self.keep(new);
            return Ok(());
        }
        self.settle(new)
    }

    // The node no longer accepts the addresses of a block, so that its overlay may send them on.
    pub fn drop_accept(&mut self, block: AcceptBlock) -> Result<(), Fault>
        ensures { Settles (kept self.old.blocks) (kept self.new.blocks) (DropAccept block) result }
    {
        let mut new = self.blocks;
        new.drop_accept(block)?;
        self.settle(new)
    }

    // The node no longer sends the addresses of a block on, unless its overlay does. Without one no walk gets longer.
    pub fn drop_map(&mut self, block: MapBlock) -> Result<(), Fault>
        ensures { Settles (kept self.old.blocks) (kept self.new.blocks) (DropMap block) result }
    {
        let mut new = self.blocks;
        new.drop_map(block)?;
        if is_bare(&self.blocks, block.node) {
            self.keep(new);
            return Ok(());
        }
        self.settle(new)
    }

    // Walks from outside start at another node. None gets longer.
    pub fn enter(&mut self, node: u8) -> Result<(), Fault>
        ensures { Settles (kept self.old.blocks) (kept self.new.blocks) (Enter node) result }
    {
        self.blocks.set_entry(node)
    }

    // Keeps new blocks, of which no walk meets more than 64 names.
    fn keep(&mut self, new: Blocks)
        requires { bounded (kept new) ≡ true }
        ensures { self.new.blocks ≡ new }
    {
        *self = Table { blocks: new };
    }

    // Keeps new blocks, unless one of their walks meets more than 64 names.
    // It stores them itself: so each of the two stores is turned by an edit of its own.
    fn settle(&mut self, new: Blocks) -> Result<(), Fault>
        ensures { Decided (walks_bounded (kept new)) (kept new) (kept self.old.blocks) (kept self.new.blocks) result }
    {
        if let Some((node, address)) = first_overfull(&new) {
            return Err(Fault::WalkTooLong { node, address });
        }
        self.blocks = new;
        Ok(())
    }
}
