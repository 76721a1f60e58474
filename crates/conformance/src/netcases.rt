// Families of nets alone: edits, rings, deep chains, full tables, and twins that differ by an edit.
use crate::bench::{Bench, Both};
use crate::build::{
    ENOUGH, any_bank, any_edit, bank_layer, map_edit, net_over, net_with, over_bank, renaming_over,
    stack_of, window_over,
};
use crate::calls::{call_compare, call_edit, call_write};
use crate::examine::{flatten_around, look_around, resolve_around};
use nets::net::Net;
use plain::net::Edit;
use plain::stack::Layer;
use plain::words::{Accept, Map, No, Shift, Stretch};
use space::Space;
use space::bank::Bank;
use std::alloc::AllocError;

const BANK: Bank = Bank {
    component: 900,
    size: 0x1000,
};

// Nets that are edited at random, then looked at from all nodes.
pub fn edits(bench: &mut Bench, cases: u64) -> Result<(), No> {
    for _ in 0..cases {
        bench.tally.case();
        let below = over_bank(bench.heap, BANK)?;
        let count = bench.dice.below(40);
        let both = net_over(bench, below, count)?;
        look_around(bench, &both, 20)?;
        resolve_around(bench, &both, 8)?;
        if bench.dice.once_in(4) {
            flatten_around(bench, &both)?;
        }
    }
    Ok(())
}

// Edits of a kind in their order, and then looks.
fn make(bench: &mut Bench, edits: &[Edit]) -> Result<(), No> {
    bench.tally.case();
    let below = over_bank(bench.heap, BANK)?;
    let both = net_with(bench, below, 3, edits)?;
    if let Some(Layer::Net(second)) = both.second.layers.last() {
        let _ = call_write(bench, &both.first, second, ENOUGH)?;
    }
    look_around(bench, &both, 12)?;
    resolve_around(bench, &both, 4)?;
    Ok(())
}

// A ring of overlays, shut by a block of one node: that block, and a part of it.
#[derive(Drop)]
struct Ring {
    edits: Vec<Edit>,
    gate: Accept,
    part: Accept,
}

fn make_ring(bench: &mut Bench, size: u8) -> Result<Ring, AllocError> {
    let dice = &mut bench.dice;
    let mut edits = Vec::new(bench.heap);
    let at = dice.stretch();
    let everywhere = Stretch {
        lo: 0,
        hi: u64::MAX,
    };
    let node = dice.byte(size);
    let gate = Accept {
        node,
        at: everywhere,
    };
    let part = Accept { node, at };
    edits.push(Edit::Accept(if dice.once_in(2) { gate } else { part }))?;
    for node in 0..size {
        let next = node.wrapping_add(1);
        edits.push(Edit::Over(node, if next < size { next } else { 0 }))?;
    }
    Ok(Ring { edits, gate, part })
}

// Rings that a dropped block would open, and steps by one or a few addresses from a node to itself.
pub fn rings(bench: &mut Bench, cases: u64) -> Result<(), No> {
    for _ in 0..cases {
        let size = bench.dice.byte(5).wrapping_add(2);
        let Ring {
            edits: mut all,
            gate,
            part,
        } = make_ring(bench, size)?;
        let dice = &mut bench.dice;
        let step = dice.below(3).wrapping_add(1);
        let end = step.wrapping_mul(60).wrapping_add(dice.below(16));
        let from = dice.address();
        all.push(map_edit(7, from, from.wrapping_add(end), 7, from.wrapping_add(step)))?;
        all.push(map_edit(8, 0, dice.below(80), dice.byte(size), part.at.lo))?;
        all.push(Edit::DropAccept(gate))?;
        all.push(Edit::DropAccept(part))?;
        all.push(Edit::Over(dice.byte(size), 33))?;
        all.push(Edit::DropAccept(gate))?;
        make(bench, all.as_slice())?;
    }
    Ok(())
}

// Pages that lead from one to the next through some nodes, about 64 of them, laid in either direction.
fn page_chain(bench: &mut Bench) -> Result<(), No> {
    let dice = &mut bench.dice;
    let pages = dice.below(8).wrapping_add(60);
    let nodes = dice.byte(8).wrapping_add(1);
    let up = dice.once_in(2);
    let mut all = Vec::new(bench.heap);
    for i in 0..pages {
        let page = if up { i } else { pages.wrapping_sub(i) };
        let lo = page.wrapping_mul(0x100);
        let node = among(page, nodes);
        let to = among(page.wrapping_add(1), nodes);
        all.push(map_edit(node, lo, lo.wrapping_add(0xff), to, lo.wrapping_add(0x100)))?;
    }
    all.push(Edit::Accept(Accept {
        node: dice.byte(nodes),
        at: Stretch {
            lo: 0x300,
            hi: 0x37f,
        },
    }))?;
    all.push(map_edit(dice.byte(nodes), 0x200, 0x21f, 32, 0xff0))?;
    make(bench, all.as_slice())
}

// Every page leads to the next one twice or three times over, so that names double from level to level.
fn page_tree(bench: &mut Bench) -> Result<(), No> {
    let dice = &mut bench.dice;
    let mut all = Vec::new(bench.heap);
    for page in 0..7 {
        let lo = 0x1000u64.wrapping_sub(0x100u64.wrapping_mul(page));
        let ways = dice.byte(3).wrapping_add(1);
        for way in 0..ways {
            let hi = lo.wrapping_add(if way == 0 { 0xff } else { dice.below(0x100) });
            all.push(map_edit(1, lo, hi, 1, lo.wrapping_add(0x100)))?;
        }
    }
    all.push(Edit::Enter(1))?;
    all.push(map_edit(0, 0, u64::MAX, 1, 0))?;
    all.push(map_edit(1, 0x1100, 0x11ff, 32, 0))?;
    make(bench, all.as_slice())
}

// Overlays from each node to the next, down to the space below, and a step from the last pages back to the first node.
fn overlay_chain(bench: &mut Bench) -> Result<(), No> {
    let dice = &mut bench.dice;
    let mut all = Vec::new(bench.heap);
    let last = dice.byte(3).wrapping_add(29);
    for node in 0..32 {
        all.push(Edit::Over(node, node + 1))?;
    }
    all.push(map_edit(last, 0, 0xff, 0, 0x100))?;
    all.push(map_edit(last, 0x100, 0x1ff, dice.byte(8), 0x200))?;
    all.push(map_edit(last, 0x200, 0x2ff, 32, dice.below(0x1000)))?;
    all.push(Edit::Over(31, 33))?;
    all.push(map_edit(last, 0x100, 0x17f, dice.byte(32), 0x300))?;
    make(bench, all.as_slice())
}

// Walks that meet about 64 names.
pub fn chains(bench: &mut Bench, cases: u64) -> Result<(), No> {
    for _ in 0..cases {
        match bench.dice.below(3) {
            0 => page_chain(bench)?,
            1 => page_tree(bench)?,
            _ => overlay_chain(bench)?,
        }
    }
    Ok(())
}

// More blocks than there are places, some of them twice, and some dropped on the way.
fn crowd(bench: &mut Bench) -> Result<Vec<Edit>, AllocError> {
    let dice = &mut bench.dice;
    let mut all = Vec::new(bench.heap);
    for i in 0..140 {
        let lo = 0x10u64.wrapping_mul(i);
        let at = Stretch {
            lo,
            hi: lo.wrapping_add(dice.below(0x20)),
        };
        let node = dice.byte(32);
        let block = Accept { node, at };
        let base = dice.below(0x1000);
        let mapping = Map {
            node,
            shift: Shift { at, base },
            to: 32,
        };
        all.push(Edit::Map(mapping))?;
        if dice.once_in(2) {
            all.push(Edit::Accept(block))?;
        }
        if dice.once_in(12) {
            all.push(Edit::Accept(block))?;
            all.push(Edit::DropMap(mapping))?;
            all.push(Edit::DropAccept(block))?;
        }
    }
    Ok(all)
}

pub fn full_tables(bench: &mut Bench, cases: u64) -> Result<(), No> {
    for _ in 0..cases {
        let all = crowd(bench)?;
        make(bench, all.as_slice())?;
    }
    Ok(())
}

// Edits the net on top of a stack.
fn edit_on(bench: &mut Bench, both: &mut Both<Net<Bank>>) -> Result<(), No> {
    if let Some(Layer::Net(mut second)) = both.second.layers.pop() {
        let edit = any_edit(&mut bench.dice, &second);
        call_edit(bench, &mut both.first, &mut second, edit)?;
        both.second.lay(Layer::Net(second))?;
    }
    Ok(())
}

// Two nets that are made alike, by the same dice twice over, of which one takes an edit or two more, compared.
pub fn twins(bench: &mut Bench, cases: u64) -> Result<(), No> {
    for _ in 0..cases {
        bench.tally.case();
        let again = bench.dice;
        let below = over_bank(bench.heap, BANK)?;
        let one = net_over(bench, below, 16)?;
        let dice = std::mem::replace(&mut bench.dice, again);
        let below = over_bank(bench.heap, BANK)?;
        let mut other = net_over(bench, below, 16)?;
        bench.dice = dice;
        for _ in 0..bench.dice.below(3) {
            edit_on(bench, &mut other)?;
        }
        let rooms = (bench.dice.room(), bench.dice.room());
        call_compare(bench, &one, &other, rooms)?;
        call_compare(bench, &other, &one, (64, 64))?;
    }
    Ok(())
}

// The node that a page lies at, where pages go round some nodes.
fn among(page: u64, nodes: u8) -> u8 {
    let [low, ..] = page.to_le_bytes();
    low.checked_rem(nodes).unwrap_or(0)
}

// Plugs a bank in below both, holds the old ones to each other, and looks at what stands now.
fn plugged<S, F>(bench: &mut Bench, mut both: Both<S>, next: Bank, plug: F) -> Result<(), No>
where
    S: Space + Drop,
    F: FnOnce(&mut S, Bank) -> Bank,
    requires { F.IsAlwaysCallable plug }
{
    let old = plug(&mut both.first, next);
    let below = stack_of(bench.heap, bank_layer(next))?;
    let was = both.second.plug(below)?;
    let found = match was.layers.last() {
        Some(Layer::Bank { component, size }) => Some((*component, *size)),
        _ => None,
    };
    let stated = Some((old.component, old.size));
    bench.tally.answer(&"plug", &Ok(stated), &Ok(found))?;
    look_around(bench, &both, 20)?;
    Ok(())
}

// Another bank below a net, a window or a renaming that stands.
pub fn plugs(bench: &mut Bench, cases: u64) -> Result<(), No> {
    for _ in 0..cases {
        bench.tally.case();
        let next = any_bank(&mut bench.dice);
        let below = over_bank(bench.heap, BANK)?;
        match bench.dice.below(3) {
            0 => {
                let net = net_over(bench, below, 12)?;
                plugged(bench, net, next, |net, bank| net.plug(bank))?;
            }
            1 => {
                let window = window_over(bench, below)?;
                plugged(bench, window, next, |window, bank| window.plug(bank))?;
            }
            _ => {
                let renaming = renaming_over(bench, below, 20)?;
                plugged(bench, renaming, next, |renaming, bank| renaming.plug(bank))?;
            }
        }
    }
    Ok(())
}
