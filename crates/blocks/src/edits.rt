ghost use Rattle.model.specs.Edits.{accept as Accept, map_to as MapTo, over as Over, drop_accept as DropAccept, drop_map as DropMap, enter as Enter};
ghost use Rattle.blocks.specs.Shape.{kept};
ghost use Rattle.blocks.specs.Outcomes.{Tried};

use crate::checks::{check_destination, check_node};
use crate::destination::overlay;
use crate::distinct::{add, take_out};
use crate::stored::{Accepted, Blocks, Mapped};
use model::blocks::{AcceptBlock, MapBlock};
use model::faults::Fault;

// Each edit puts its questions in order; the one about walks is left to who keeps them bounded.
// Two lines for each kind of block: what they share is generic, and one function for both would need a trait that lends a field of the net.
impl Blocks {
    pub fn add_accept(&mut self, block: AcceptBlock) -> Result<(), Fault>
        ensures { Tried (kept self.old) (kept self.new) (Accept block) result }
    {
        let x = Accepted::try_from(block)?;
        add(&mut self.accepts, x)
    }

    pub fn add_map(&mut self, block: MapBlock) -> Result<(), Fault>
        ensures { Tried (kept self.old) (kept self.new) (MapTo block) result }
    {
        let x = Mapped::try_from(block)?;
        add(&mut self.maps, x)
    }

    pub fn drop_accept(&mut self, block: AcceptBlock) -> Result<(), Fault>
        ensures { Tried (kept self.old) (kept self.new) (DropAccept block) result }
    {
        let x = Accepted::try_from(block)?;
        take_out(&mut self.accepts, x)
    }

    pub fn drop_map(&mut self, block: MapBlock) -> Result<(), Fault>
        ensures { Tried (kept self.old) (kept self.new) (DropMap block) result }
    {
        let x = Mapped::try_from(block)?;
        take_out(&mut self.maps, x)
    }

    // At 33 the node has no overlay any more. The destination is a number as it came: out of range it is refused.
    pub fn set_overlay(&mut self, node: u8, destination: u8) -> Result<(), Fault>
        ensures { Tried (kept self.old) (kept self.new) (Over node destination) result }
    {
        check_node(node)?;
        check_destination(destination, 33)?;
        self.overlays[node as usize] = overlay(destination);
        Ok(())
    }

    pub fn set_entry(&mut self, node: u8) -> Result<(), Fault>
        ensures { Tried (kept self.old) (kept self.new) (Enter node) result }
    {
        check_node(node)?;
        self.entry = node;
        Ok(())
    }
}
