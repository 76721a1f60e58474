// Seams: the addresses at which a stack's list may become another one. Between two of them it only rises.
use crate::meeting::{EVERYWHERE, mark};
use crate::net::{BELOW, MOST, Net};
use crate::stack::{Layer, Stack};
use crate::words::Shift;
use std::alloc::{AllocError, Global};
use std::collections::BTreeSet;

type Seams = BTreeSet<u64>;

// The addresses that are carried to seams.
fn fetched(heap: Global, seams: &Seams, shift: &Shift) -> Result<Vec<u64>, AllocError> {
    seams
        .iter()
        .filter_map(|seam| shift.fetched(*seam))
        .collect(heap)
}

// Adds to a node's seams.
fn add(seams: &mut [Seams], node: u8, more: &[u64]) -> Result<(), AllocError> {
    match seams.get_mut(usize::from(node)) {
        Some(own) => own.extend(more),
        None => Ok(()),
    }
}

fn total(seams: &[Seams]) -> usize {
    seams
        .iter()
        .fold(0usize, |count, own| count.saturating_add(own.len()))
}

// Adds to a node's seams those of where a step of it leads.
fn fetch_back(
    heap: Global,
    seams: &mut [Seams],
    node: u8,
    to: u8,
    shift: &Shift,
) -> Result<(), AllocError> {
    match seams.get(usize::from(to)) {
        Some(there) => {
            let found = fetched(heap, there, shift)?;
            add(seams, node, found.as_slice())
        }
        None => Ok(()),
    }
}

// Fetches every node's seams back by one step.
fn step_back(heap: Global, net: &Net, seams: &mut [Seams]) -> Result<(), AllocError> {
    for block in net.maps.iter() {
        fetch_back(heap, seams, block.node, block.to, &block.shift)?;
    }
    for (node, to) in net.overlays.iter() {
        fetch_back(heap, seams, *node, *to, &EVERYWHERE)?;
    }
    Ok(())
}

// The seams of a net's entry: all ends of blocks and all seams below, fetched back until nothing new comes.
fn of_net(heap: Global, net: &Net, below: Seams) -> Result<Seams, AllocError> {
    let mut seams: Vec<Seams> = (0..BELOW)
        .map(|node| net.ends(heap, node))
        .try_collect(heap)?;
    seams.push(below)?;
    for _ in 0..MOST {
        let before = total(seams.as_slice());
        step_back(heap, net, seams.as_mut_slice())?;
        if total(seams.as_slice()) == before {
            break;
        }
    }
    match seams.get(usize::from(net.entry)) {
        Some(own) => own.clone(),
        None => Ok(BTreeSet::new(heap)),
    }
}

// The seams of a layer over those of what lies below it.
fn of_layer(heap: Global, layer: &Layer, below: Seams) -> Result<Seams, AllocError> {
    let mut own = BTreeSet::new(heap);
    match layer {
        Layer::Socket => {}
        Layer::Bank { size, .. } => {
            own.insert(*size)?;
        }
        Layer::Flat(records) => {
            for record in records.iter() {
                mark(&mut own, &record.shift.at)?;
            }
        }
        Layer::Net(net) => return of_net(heap, net, below),
        Layer::Window(shift) => {
            mark(&mut own, &shift.at)?;
            own.extend(below.iter().filter_map(|seam| shift.fetched(*seam)))?;
        }
        Layer::Renaming(_) => return Ok(below),
    }
    Ok(own)
}

impl Stack {
    // Rising, and from 0 on.
    pub fn seams(&self, heap: Global) -> Result<BTreeSet<u64>, AllocError> {
        let mut seams = BTreeSet::new(heap);
        for layer in self.layers.iter() {
            seams = of_layer(heap, layer, seams)?;
        }
        seams.insert(0)?;
        Ok(seams)
    }
}
