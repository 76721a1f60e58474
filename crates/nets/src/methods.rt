ghost use Rattle.std.specs.Prelude.{◌≡◌, length};
ghost use Rattle.model.specs.Model.{net as layered};
ghost use Rattle.model.specs.Nets.{fresh};
ghost use Rattle.model.specs.Edits.{accept as Accept, map_to as MapTo, over as Over, drop_accept as DropAccept, drop_map as DropMap, enter as Enter};
ghost use Rattle.table.specs.Settling.{Settles};
ghost use Rattle.nets.specs.Resolving.{Resolved, resolved_slots};
ghost use Rattle.nets.specs.Shape.{inner, net_means};

use crate::gather::{any_meets, gather};
use crate::net::Net;
use model::blocks::{AcceptBlock, MapBlock};
use model::faults::Fault;
use model::names::Name;
use space::Space;
use table::table::Table;

impl<B: Space> Net<B> {
    // A fresh net over a space: no blocks, no overlays, entry 0.
    pub fn new(group: u16, below: B) -> Net<B>
        ensures { (net_means B.Space.means result).shape ≡ layered (fresh group) (B.Space.means below).shape }
    {
        Net {
            table: Table::new(group),
            below,
        }
    }

    // The list at an address of a stated node; refused with 1 it leaves the slots as they were.
    pub fn resolve(&self, node: u8, address: u64, slots: &mut [Name]) -> Result<(usize, u64), Fault>
        ensures answer { Resolved (inner self.now.table).keeps (B.Space.means self.now.below).shape node address (length slots.old) result }
        ensures buffer { slots.new ≡ resolved_slots (inner self.now.table).keeps (B.Space.means self.now.below).shape node address slots.old }
    {
        let notes = self.table.walk(node, address)?;
        let (count, room) = gather(&self.below, notes.items.as_slice(), notes.span, slots)?;
        Ok((count, address + room))
    }

    // Exchanges the space below, and hands the old one back.
    // One line in each layer: a trait that provided it would need a line in each for the field.
    pub fn plug(&mut self, below: B) -> B
        ensures old { result ≡ self.old.below }
        ensures kept { (net_means B.Space.means self.new).shape ≡ layered (inner self.old.table).keeps (B.Space.means below).shape }
    {
        std::mem::replace(&mut self.below, below)
    }

    // This and the next five only hand on to the table: each is a function of its own, since its contract names what it does.
    // That the space below stays is each one's own promise: a type cannot hold what a call leaves.

    // A node accepts the addresses of one more block.
    pub fn accept(&mut self, block: AcceptBlock) -> Result<(), Fault>
        ensures table { Settles (inner self.old.table).keeps (inner self.new.table).keeps (Accept block) result }
        ensures below { self.new.below ≡ self.old.below }
    {
        self.table.accept(block)
    }

    // A node sends the addresses of one more block on.
    pub fn map(&mut self, block: MapBlock) -> Result<(), Fault>
        ensures table { Settles (inner self.old.table).keeps (inner self.new.table).keeps (MapTo block) result }
        ensures below { self.new.below ≡ self.old.below }
    {
        self.table.map(block)
    }

    // A node sends on all that none of its blocks covers, or, at 33, no longer does.
    pub fn over(&mut self, node: u8, destination: u8) -> Result<(), Fault>
        ensures table { Settles (inner self.old.table).keeps (inner self.new.table).keeps (Over node destination) result }
        ensures below { self.new.below ≡ self.old.below }
    {
        self.table.over(node, destination)
    }

    // A node no longer accepts the addresses of a block.
    pub fn drop_accept(&mut self, block: AcceptBlock) -> Result<(), Fault>
        ensures table { Settles (inner self.old.table).keeps (inner self.new.table).keeps (DropAccept block) result }
        ensures below { self.new.below ≡ self.old.below }
    {
        self.table.drop_accept(block)
    }

    // A node no longer sends the addresses of a block on.
    pub fn drop_map(&mut self, block: MapBlock) -> Result<(), Fault>
        ensures table { Settles (inner self.old.table).keeps (inner self.new.table).keeps (DropMap block) result }
        ensures below { self.new.below ≡ self.old.below }
    {
        self.table.drop_map(block)
    }

    // Addresses from outside start at another node.
    pub fn enter(&mut self, node: u8) -> Result<(), Fault>
        ensures table { Settles (inner self.old.table).keeps (inner self.new.table).keeps (Enter node) result }
        ensures below { self.new.below ≡ self.old.below }
    {
        self.table.enter(node)
    }
}

impl<B: Space> Space for Net<B> {
    ghost means = { net_means B.Space.means };

    fn look(&self, address: u64, slots: &mut [Name]) -> Result<(usize, u64), Fault> {
        self.resolve(self.table.entry(), address, slots)
    }

    fn meets(&self, address: u64, name: Name) -> bool {
        let Ok(notes) = self.table.walk(self.table.entry(), address) else {
            unreachable!()
        };
        any_meets(&self.below, notes.items.as_slice(), name)
    }
}
