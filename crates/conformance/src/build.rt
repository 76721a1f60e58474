// Stacks of layers made by the dice, in both implementations alike.
use crate::bench::{Bench, Both};
use crate::calls::{call_edit, call_pair, call_write};
use crate::dice::Dice;
use crate::same::{Told, shift};
use layers::renaming::Renaming;
use layers::window::Window;
use nets::net::Net;
use plain::net;
use plain::net::Edit;
use plain::stack::{Layer, Stack, window};
use plain::words::{Accept, Map, No, Shift};
use space::Space;
use space::bank::Bank;
use space::socket::Socket;
use std::alloc::{AllocError, Global};

// Bytes for the text of any net.
pub const ENOUGH: usize = 9700;

// Mostly one of a few nodes, so that blocks meet; at times another, or none.
fn node(dice: &mut Dice) -> u8 {
    match dice.below(24) {
        0 => 31,
        1 => 32,
        2 => dice.byte(255),
        _ => dice.byte(4),
    }
}

// Mostly the space below or one of a few nodes; at times 33, which clears an overlay, or a byte that is refused.
fn destination(dice: &mut Dice) -> u8 {
    match dice.below(24) {
        0 => 33,
        1 => 34,
        2 => dice.byte(255),
        3..=9 => 32,
        _ => dice.byte(5),
    }
}

fn accept(dice: &mut Dice) -> Accept {
    let at = dice.stretch();
    Accept {
        node: node(dice),
        at,
    }
}

fn map(dice: &mut Dice) -> Map {
    let at = dice.stretch();
    let node = node(dice);
    let to = destination(dice);
    let base = dice.address();
    Map {
        node,
        shift: Shift { at, base },
        to,
    }
}

// A stated edit.
pub fn map_edit(node: u8, lo: u64, hi: u64, to: u8, base: u64) -> Edit {
    Edit::Map(Map {
        node,
        shift: shift(lo, hi, base),
        to,
    })
}

// An edit, of which some repeat or drop what the net has.
pub fn any_edit(dice: &mut Dice, net: &net::Net) -> Edit {
    let kept_accept = dice.one_of(net.accepts.as_slice()).unwrap_or(accept(dice));
    let kept_map = dice.one_of(net.maps.as_slice()).unwrap_or(map(dice));
    match dice.below(32) {
        0 => Edit::Accept(kept_accept),
        1 => Edit::Map(kept_map),
        2 | 3 => Edit::DropAccept(kept_accept),
        4 | 5 => Edit::DropMap(kept_map),
        6 => Edit::DropAccept(accept(dice)),
        7 => Edit::DropMap(map(dice)),
        8 => Edit::Enter(node(dice)),
        9..=12 => Edit::Over(node(dice), destination(dice)),
        13..=19 => Edit::Accept(accept(dice)),
        _ => Edit::Map(map(dice)),
    }
}

pub fn any_bank(dice: &mut Dice) -> Bank {
    Bank {
        component: u32::from(dice.byte(20)),
        size: dice.address(),
    }
}

// A stack of one layer.
pub fn stack_of(heap: Global, layer: Layer) -> Result<Stack, AllocError> {
    let mut stack = Stack::new(heap);
    stack.lay(layer)?;
    Ok(stack)
}

pub fn bank_layer(bank: Bank) -> Layer {
    Layer::Bank {
        component: bank.component,
        size: bank.size,
    }
}

pub fn over_bank(heap: Global, bank: Bank) -> Result<Both<Bank>, AllocError> {
    Ok(Both {
        first: bank,
        second: stack_of(heap, bank_layer(bank))?,
    })
}

// A net over a space, with these edits made.
pub fn net_with<B: Space + Drop>(
    bench: &mut Bench,
    below: Both<B>,
    group: u16,
    edits: &[Edit],
) -> Result<Both<Net<B>>, AllocError> {
    let mut stack = below.second;
    let mut first = Net::new(group, below.first);
    let mut second = net::Net::new(bench.heap, group);
    for edit in edits {
        call_edit(bench, &mut first, &mut second, *edit)?;
    }
    stack.lay(Layer::Net(second))?;
    Ok(Both {
        first,
        second: stack,
    })
}

// A net over a space, edited some times.
pub fn net_over<B: Space + Drop>(
    bench: &mut Bench,
    below: Both<B>,
    edits: u64,
) -> Result<Both<Net<B>>, No> {
    let mut stack = below.second;
    let group = u16::from(bench.dice.byte(200)).wrapping_mul(327);
    let mut first = Net::new(group, below.first);
    let mut second = net::Net::new(bench.heap, group);
    for _ in 0..edits {
        let edit = any_edit(&mut bench.dice, &second);
        call_edit(bench, &mut first, &mut second, edit)?;
    }
    let _ = call_write(bench, &first, &second, ENOUGH)?;
    stack.lay(Layer::Net(second))?;
    Ok(Both {
        first,
        second: stack,
    })
}

// A renaming over a space, with some pairs among the components that are about.
pub fn renaming_over<B: Space + Drop>(
    bench: &mut Bench,
    below: Both<B>,
    pairs: u64,
) -> Result<Both<Renaming<B>>, No> {
    let mut stack = below.second;
    let mut first = Renaming::new(below.first);
    let mut second = Vec::new(bench.heap);
    for _ in 0..pairs {
        let from = u32::from(bench.dice.byte(48));
        let to = u32::from(bench.dice.byte(40));
        call_pair(bench, &mut first, &mut second, from, to)?;
    }
    stack.lay(Layer::Renaming(second))?;
    Ok(Both {
        first,
        second: stack,
    })
}

fn first_window<B: Space + Drop>(carried: Shift, below: B) -> Result<Window<B>, No> {
    let Shift { at, base } = carried;
    Window::new(at.lo, at.hi, base, below).map_err(|(fault, _)| fault.told())
}

// What a window carries, tried until both implementations grant it.
fn window_shift(bench: &mut Bench) -> Result<Shift, No> {
    for _ in 0..6 {
        let at = bench.dice.stretch();
        let base = bench.dice.address();
        let tried = Shift { at, base };
        let one = first_window(tried, Socket).map(|_| ());
        let two = window(tried).map(|_| ());
        bench.tally.answer(&tried, &one, &two)?;
        if two.is_ok() {
            return Ok(tried);
        }
    }
    Ok(shift(0, u64::MAX, 0))
}

pub fn window_over<B: Space + Drop>(
    bench: &mut Bench,
    below: Both<B>,
) -> Result<Both<Window<B>>, No> {
    let mut stack = below.second;
    let carried = window_shift(bench)?;
    stack.lay(window(carried)?)?;
    let first = first_window(carried, below.first)?;
    Ok(Both {
        first,
        second: stack,
    })
}
