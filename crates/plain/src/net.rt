// A net: its blocks, its edits, and the walk from a name.
ghost use Rattle.std.specs.Prelude.{◌≡◌, OnErr};

use crate::lines::Kind;
use crate::words::{Accept, Map, Name, No, Spot, Why, ask};
use std::alloc::{AllocError, Global};
use std::collections::BTreeMap;
use std::fmt;

pub const NODES: u8 = 32;

// The destination that is the space below. Any byte may be given as a node or a destination: that is what questions 1 and 2 are for.
pub const BELOW: u8 = 32;

// The most names that a walk may meet.
pub const MOST: u8 = 64;

#[derive(Clone, Drop)]
pub struct Net {
    pub group: u16,
    pub accepts: Vec<Accept>,
    pub maps: Vec<Map>,
    // The destination of each node that has an overlay.
    pub overlays: BTreeMap<u8, u8>,
    pub entry: u8,
}

#[derive(Clone, Copy, PartialEq, Debug)]
pub enum Edit {
    Accept(Accept),
    Map(Map),
    DropAccept(Accept),
    DropMap(Map),
    Over(u8, u8),
    Enter(u8),
}

fn write_accept<W: fmt::Write>(
    f: &mut fmt::Formatter<W>,
    kind: Kind,
    block: &Accept,
) -> fmt::Result {
    let Accept { node, at } = *block;
    write!(
        f,
        "{:02x}{node:02x}{:016x}{:016x}",
        kind as u8, at.lo, at.hi
    )
}

fn write_map<W: fmt::Write>(f: &mut fmt::Formatter<W>, kind: Kind, block: &Map) -> fmt::Result {
    let Map { node, shift, to } = *block;
    write_accept(f, kind, &Accept { node, at: shift.at })?;
    write!(f, "{to:02x}{:016x}", shift.base)
}

// The line that says the edit.
impl fmt::Display for Edit {
    fn fmt<W: fmt::Write>(&self, f: &mut fmt::Formatter<W>) -> fmt::Result {
        match self {
            Edit::Accept(block) => write_accept(f, Kind::Accept, block),
            Edit::Map(block) => write_map(f, Kind::Map, block),
            Edit::DropAccept(block) => write_accept(f, Kind::DropAccept, block),
            Edit::DropMap(block) => write_map(f, Kind::DropMap, block),
            Edit::Over(node, to) => write!(f, "{:02x}{node:02x}{to:02x}", Kind::Over as u8),
            Edit::Enter(node) => write!(f, "{:02x}{node:02x}", Kind::Enter as u8),
        }
    }
}

// A name that is accepted, or an address that arrives in the space below.
#[derive(Clone, Copy)]
pub enum Note {
    Own(Name),
    Arrival(u64),
}

// What a walk notes, and how far up the same walk goes.
#[derive(Drop)]
pub struct Way {
    pub notes: Vec<Note>,
    pub far: u64,
}

impl Way {
    pub fn new(heap: Global, a: u64) -> Way {
        Way {
            notes: Vec::new(heap),
            far: u64::MAX.saturating_sub(a),
        }
    }

    pub fn note(&mut self, note: Note) -> Result<(), AllocError> {
        self.notes.push(note)?;
        Ok(())
    }

    // Goes no further than this.
    pub fn hold(&mut self, far: u64) {
        self.far = self.far.min(far);
    }
}

impl Accept {
    // Questions 1 and 3.
    fn ask(&self) -> Result<(), Why> {
        ask(self.node < NODES, Why::NodeOutOfRange)?;
        self.at.ask_range()
    }
}

impl Map {
    // Questions 1 to 4.
    fn ask(&self) -> Result<(), Why> {
        ask(self.node < NODES, Why::NodeOutOfRange)?;
        ask(self.to <= BELOW, Why::DestinationOutOfRange)?;
        self.shift.ask_target()
    }

    // Where it leads from a spot, if it is a block of that node and covers the address.
    fn step(&self, from: Spot) -> Option<Spot> {
        if self.node != from.node {
            return None;
        }
        let address = self.shift.carried(from.address)?;
        Some(Spot {
            node: self.to,
            address,
        })
    }
}

// Each edit says for itself that a refusal changes nothing: no type can say what a call leaves.
impl Net {
    pub fn new(heap: Global, group: u16) -> Net {
        let accepts = Vec::new(heap);
        let maps = Vec::new(heap);
        Net {
            group,
            accepts,
            maps,
            overlays: BTreeMap::new(heap),
            entry: 0,
        }
    }

    pub fn edit(&mut self, heap: Global, edit: Edit) -> Result<(), No>
        ensures { OnErr result (self.new ≡ self.old) }
    {
        match edit {
            Edit::Accept(block) => self.accept(block),
            Edit::Map(block) => self.map(heap, block),
            Edit::DropAccept(block) => self.drop_accept(heap, block),
            Edit::DropMap(block) => self.drop_map(heap, block),
            Edit::Over(node, to) => self.over(heap, node, to),
            Edit::Enter(node) => self.enter(node),
        }
    }

    // Blocks of the two kinds have functions of their own: the questions, the tables and the limits differ, and one function would be handed all three.
    pub fn accept(&mut self, block: Accept) -> Result<(), No>
        ensures { OnErr result (self.new ≡ self.old) }
    {
        block.ask()?;
        ask(!self.accepts.contains(&block), Why::AlreadyThere)?;
        ask(self.accepts.len() < 64, Why::TableFull)?;
        let mut next = self.clone()?;
        next.accepts.push(block)?;
        *self = next;
        Ok(())
    }

    pub fn map(&mut self, heap: Global, block: Map) -> Result<(), No>
        ensures { OnErr result (self.new ≡ self.old) }
    {
        block.ask()?;
        ask(!self.maps.contains(&block), Why::AlreadyThere)?;
        ask(self.maps.len() < 128, Why::TableFull)?;
        let mut next = self.clone()?;
        next.maps.push(block)?;
        self.settle(heap, next)
    }

    pub fn drop_accept(&mut self, heap: Global, block: Accept) -> Result<(), No>
        ensures { OnErr result (self.new ≡ self.old) }
    {
        block.ask()?;
        ask(self.accepts.contains(&block), Why::NotThere)?;
        let mut next = self.clone()?;
        next.accepts.retain(|kept| *kept != block);
        self.settle(heap, next)
    }

    pub fn drop_map(&mut self, heap: Global, block: Map) -> Result<(), No>
        ensures { OnErr result (self.new ≡ self.old) }
    {
        block.ask()?;
        ask(self.maps.contains(&block), Why::NotThere)?;
        let mut next = self.clone()?;
        next.maps.retain(|kept| *kept != block);
        self.settle(heap, next)
    }

    // Sets a node's overlay; destination 33 clears it.
    pub fn over(&mut self, heap: Global, node: u8, to: u8) -> Result<(), No>
        ensures { OnErr result (self.new ≡ self.old) }
    {
        ask(node < NODES, Why::NodeOutOfRange)?;
        ask(to <= BELOW + 1, Why::DestinationOutOfRange)?;
        let mut next = self.clone()?;
        let _ = next.overlays.remove(&node);
        if to <= BELOW {
            next.overlays.insert(node, to)?;
        }
        self.settle(heap, next)
    }

    pub fn enter(&mut self, node: u8) -> Result<(), No>
        ensures { OnErr result (self.new ≡ self.old) }
    {
        ask(node < NODES, Why::NodeOutOfRange)?;
        self.entry = node;
        Ok(())
    }

    // Question 8 of the net as it would be.
    fn settle(&mut self, heap: Global, next: Net) -> Result<(), No>
        ensures { OnErr result (self.new ≡ self.old) }
    {
        if let Some(spot) = next.first_overfull(heap)? {
            return Err(No::Overfull(spot));
        }
        *self = next;
        Ok(())
    }

    pub fn accepted(&self, spot: Spot) -> bool {
        self.accepts.iter().any(|block| block.node == spot.node && block.at.covers(spot.address))
    }

    // The steps from an address at a node.
    pub fn steps(&self, heap: Global, from: Spot) -> Result<Vec<Spot>, AllocError> {
        let mut steps: Vec<Spot> = self
            .maps
            .iter()
            .filter_map(|block| block.step(from))
            .collect(heap)?;
        if steps.is_empty() && !self.accepted(from) {
            if let Some(to) = self.overlays.get(&from.node) {
                steps.push(Spot {
                    node: *to,
                    address: from.address,
                })?;
            }
        }
        Ok(steps)
    }

    pub fn component(&self, node: u8) -> u32 {
        u32::from(self.group) * 32 + u32::from(node)
    }

    // The walk from an address at a node, which meets 64 names at most.
    pub fn walk(&self, heap: Global, from: Spot) -> Result<Way, AllocError> {
        let mut way = Way::new(heap, from.address);
        let mut agenda = Vec::new(heap);
        agenda.push(from)?;
        for _ in 0..MOST {
            let Some(here) = agenda.pop() else {
                break;
            };
            if here.node >= NODES {
                way.note(Note::Arrival(here.address))?;
                continue;
            }
            if self.accepted(here) {
                way.note(Note::Own(Name {
                    component: self.component(here.node),
                    address: here.address,
                }))?;
            }
            way.hold(self.ahead(here));
            let steps = self.steps(heap, here)?;
            agenda.extend(steps.iter().rev())?;
        }
        Ok(way)
    }

    // How far above the address no block of the node begins or ends to cover.
    // Over the same chain as `ends`: a function that both call would make a vector at each name of a walk.
    fn ahead(&self, spot: Spot) -> u64 {
        let top = u64::MAX.saturating_sub(spot.address);
        let accepts = self.accepts.iter().filter(|block| block.node == spot.node);
        let maps = self.maps.iter().filter(|block| block.node == spot.node);
        accepts
            .map(|block| block.at)
            .chain(maps.map(|block| block.shift.at))
            .fold(top, |far, at| far.min(at.ahead(spot.address)))
    }
}
