// What the blocks of one node do at an address.
ghost use Rattle.std.specs.Prelude.{◌≡◌, ◌≤◌, length, map, position};
ghost use Rattle.model.specs.Nets.{accepting};
ghost use Rattle.blocks.specs.Shape.{kept, map_block};
ghost use Rattle.walks.specs.Spans.{nearest, range_covers, range_room, reach};
ghost use Rattle.walks.specs.Steps.{MapStep, Overlay, NextStep};

use crate::range::Ranged;
use blocks::destination::Destination;
use blocks::stored::{Blocks, Mapped};

// A step of a node, and from which map block on to look for the next.
#[derive(Clone, Copy)]
pub struct Step {
    pub destination: Destination,
    pub address: u64,
    pub next: usize,
}

// Where the first of the blocks that covers the address at the node stands.
fn first_covering<T: Ranged>(blocks: &[T], node: u8, address: u64) -> Option<usize>
    ensures { result ≡ position (λ x. range_covers node address (T.Ranged.range_of x)) blocks.now }
{
    blocks.iter().position(|b| b.range().covers(node, address))
}

pub(crate) fn accepts(blocks: &Blocks, node: u8, address: u64) -> bool
    ensures { result ≡ accepting (kept blocks.now).accepts node address }
{
    first_covering(blocks.accepts.as_slice(), node, address).is_some()
}

// The least of the distances up to where a block of the node begins or ends to cover.
fn nearest_end<T: Ranged>(blocks: &[T], node: u8, address: u64) -> u64
    ensures { result ≡ nearest (λ x. range_room node address (T.Ranged.range_of x)) blocks.now }
{
    blocks
        .iter()
        .map(|b| b.range().room_above(node, address))
        .fold(u64::MAX, |far, room| far.min(room))
}

// How far up the address may go and have no end of a block of the node between.
pub fn reach_above(blocks: &Blocks, node: u8, address: u64) -> u64
    ensures { result ≡ reach (kept blocks.now) node address }
{
    let by_accepts = nearest_end(blocks.accepts.as_slice(), node, address);
    let by_maps = nearest_end(blocks.maps.as_slice(), node, address);
    by_accepts.min(by_maps)
}

// The step by the first map block, from the one at `from` on, that covers the address at the node.
fn map_step(maps: &[Mapped], node: u8, address: u64, from: usize) -> Option<Step>
    requires { from ≤ length maps.now }
    ensures { MapStep (map map_block maps.now) node address from result }
{
    let at = from + first_covering(&maps[from..], node, address)?;
    let b = maps[at].block;
    Some(Step {
        destination: Destination::from(b.destination),
        address: b.base + (address - b.lo),
        next: at + 1,
    })
}

// Where the node's overlay sends the address: nowhere, where a block of the node covers it. What is no node has no overlay.
fn overlay(blocks: &Blocks, node: u8, address: u64) -> Option<Destination>
    ensures { Overlay (kept blocks.now) node address result }
{
    if accepts(blocks, node, address) {
        return None;
    }
    if first_covering(blocks.maps.as_slice(), node, address).is_some() {
        return None;
    }
    *blocks.overlays.get(node as usize)?
}

// The first step of the node at the address, from the map block at `from` on; the overlay's comes after the last block.
// Steps are asked for one by one: an iterator of our own would hold this same place and be no plainer.
pub fn next_step(blocks: &Blocks, node: u8, address: u64, from: usize) -> Option<Step>
    ensures { NextStep (kept blocks.now) node address from result }
{
    let maps = blocks.maps.as_slice();
    if from > maps.len() {
        return None;
    }
    if let Some(step) = map_step(maps, node, address, from) {
        return Some(step);
    }
    let destination = overlay(blocks, node, address)?;
    Some(Step {
        destination,
        address,
        next: maps.len() + 1,
    })
}
