// A stack of layers over a bottom, and where an address ends in it.
ghost use Rattle.std.specs.Prelude.{◌≡◌, OnErr};

use crate::net::{NODES, Net, Note, Way};
use crate::words::{Name, No, Record, Shift, Spot, Why, ask};
use std::alloc::{AllocError, Global};

#[derive(Drop)]
pub enum Layer {
    Socket,
    Bank { component: u32, size: u64 },
    Flat(Vec<Record>),
    Net(Net),
    Window(Shift),
    // Each component that is renamed, with its new one. A list and no map: whoever lists a component twice means the first.
    Renaming(Vec<(u32, u32)>),
}

// The layers, the bottom first.
#[derive(Drop)]
pub struct Stack {
    pub layers: Vec<Layer>,
}

// The names at an address, and how far up they are the same ones raised.
#[derive(Drop)]
pub struct List {
    pub names: Vec<Name>,
    pub far: u64,
}

// Fills a flat table, or tells the first record that fails.
pub fn fill(heap: Global, table: &mut Vec<Record>, records: &[Record]) -> Result<(), No>
    ensures { OnErr result (table.new ≡ table.old) }
{
    for (place, record) in records.iter().enumerate() {
        record
            .shift
            .ask_target()
            .map_err(|why| No::AtRecord(why, place))?;
    }
    *table = records.to_vec(heap)?;
    Ok(())
}

// Adds a pair to a renaming.
pub fn pair(pairs: &mut Vec<(u32, u32)>, from: u32, to: u32) -> Result<(), No>
    ensures { OnErr result (pairs.new.items ≡ pairs.old.items) }
{
    let there = pairs.iter().any(|pair| pair.0 == from);
    ask(!there, Why::AlreadyThere)?;
    ask(pairs.len() < 32, Why::TableFull)?;
    pairs.push((from, to))?;
    Ok(())
}

// A window, where its numbers are granted.
pub fn window(shift: Shift) -> Result<Layer, No> {
    shift.ask_target()?;
    Ok(Layer::Window(shift))
}

pub fn wipe(slots: &mut [Name]) {
    slots.fill(Name::default());
}

fn pass_records(heap: Global, records: &[Record], a: u64) -> Result<Way, AllocError> {
    let mut way = Way::new(heap, a);
    for record in records {
        way.hold(record.shift.at.ahead(a));
        if let Some(name) = record.name(a) {
            way.note(Note::Own(name))?;
        }
    }
    Ok(way)
}

impl Layer {
    // What an address that comes to the layer ends at there, and where it goes on below.
    fn pass(&self, heap: Global, a: u64) -> Result<Way, AllocError> {
        let mut way = Way::new(heap, a);
        match self {
            Layer::Socket => {}
            Layer::Bank { component, size } => {
                if a < *size {
                    way.hold(size.saturating_sub(a).saturating_sub(1));
                    way.note(Note::Own(Name {
                        component: *component,
                        address: a,
                    }))?;
                }
            }
            Layer::Flat(records) => return pass_records(heap, records.as_slice(), a),
            Layer::Net(net) => {
                return net.walk(
                    heap,
                    Spot {
                        node: net.entry,
                        address: a,
                    },
                );
            }
            Layer::Window(shift) => {
                way.hold(shift.at.ahead(a));
                if let Some(there) = shift.carried(a) {
                    way.note(Note::Arrival(there))?;
                }
            }
            Layer::Renaming(_) => way.note(Note::Arrival(a))?,
        }
        Ok(way)
    }

    // What the layer makes of the names that were found below it.
    fn give(&self, names: &mut [Name]) {
        if let Layer::Renaming(pairs) = self {
            for name in names.iter_mut() {
                let pair = pairs.iter().find(|pair| pair.0 == name.component);
                if let Some((_, to)) = pair {
                    name.component = *to;
                }
            }
        }
    }
}

impl List {
    // Puts the whole list into the slots, or zeroes these and refuses; answers its count and the last address that it reaches.
    fn put(&self, a: u64, slots: &mut [Name]) -> Result<(usize, u64), No> {
        let count = self.names.len();
        if count > slots.len() {
            wipe(slots);
            return Err(No::Refused(Why::BufferShort));
        }
        slots[..count].copy_from_slice(self.names.as_slice());
        Ok((count, a.saturating_add(self.far)))
    }
}

// The names that are noted, and those that the layers have where an address arrives.
fn gather(heap: Global, layers: &[Layer], way: &Way) -> Result<List, AllocError> {
    let mut list = List {
        names: Vec::new(heap),
        far: way.far,
    };
    for note in way.notes.iter() {
        match (*note, layers) {
            (Note::Own(name), _) => list.names.push(name)?,
            (Note::Arrival(a), [below @ .., top]) => {
                let onward = top.pass(heap, a)?;
                let mut found = gather(heap, below, &onward)?;
                top.give(found.names.as_mut_slice());
                list.names.extend_from_slice(found.names.as_slice())?;
                list.far = list.far.min(found.far);
            }
            _ => {}
        }
    }
    Ok(list)
}

impl Stack {
    pub fn new(heap: Global) -> Stack {
        Stack {
            layers: Vec::new(heap),
        }
    }

    // Lays a layer on top.
    pub fn lay(&mut self, layer: Layer) -> Result<(), AllocError> {
        self.layers.push(layer)?;
        Ok(())
    }

    // Replaces all below the top layer, and hands that back.
    pub fn plug(&mut self, below: Stack) -> Result<Stack, AllocError> {
        let top = self.layers.pop();
        let old = std::mem::replace(&mut self.layers, below.layers);
        if let Some(layer) = top {
            self.layers.push(layer)?;
        }
        Ok(Stack { layers: old })
    }

    pub fn list(&self, heap: Global, a: u64) -> Result<List, AllocError> {
        let mut way = Way::new(heap, a);
        way.note(Note::Arrival(a))?;
        gather(heap, self.layers.as_slice(), &way)
    }

    // The count and the reach of the list at an address, which goes into the slots.
    pub fn look(&self, heap: Global, a: u64, slots: &mut [Name]) -> Result<(usize, u64), No> {
        self.list(heap, a)?.put(a, slots)
    }

    // A look from a stated node of the net on top; elsewhere there is no such node.
    pub fn resolve(
        &self,
        heap: Global,
        node: u8,
        a: u64,
        slots: &mut [Name],
    ) -> Result<(usize, u64), No> {
        let [below @ .., Layer::Net(net)] = self.layers.as_slice() else {
            return Err(No::Refused(Why::NodeOutOfRange));
        };
        ask(node < NODES, Why::NodeOutOfRange)?;
        let way = net.walk(heap, Spot { node, address: a })?;
        gather(heap, below, &way)?.put(a, slots)
    }

    pub fn meets(&self, heap: Global, a: u64, name: Name) -> Result<bool, AllocError> {
        Ok(self.list(heap, a)?.names.contains(&name))
    }
}
