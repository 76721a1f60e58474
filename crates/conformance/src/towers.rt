// Families of whole stacks: every layer over every other, over each bottom.
use crate::bench::{Bench, Both};
use crate::build::{any_bank, net_over, over_bank, renaming_over, stack_of, window_over};
use crate::calls::call_compare;
use crate::dice::Dice;
use crate::examine::{flatten_around, look_around, resolve_around};
use crate::same::{all_told, answer};
use model::records::Record;
use plain::stack::{Layer, fill};
use plain::words;
use plain::words::{No, Stretch};
use space::Space;
use space::flat::FlatTable;
use space::socket::Socket;
use std::alloc::AllocError;

// What is done with a stack once it stands.
fn examine<S: Space>(bench: &mut Bench, both: &Both<S>) -> Result<(), No> {
    look_around(bench, both, 40)?;
    let rooms = (bench.dice.room(), bench.dice.room());
    call_compare(bench, both, both, rooms)?;
    flatten_around(bench, both)
}

// A net over a window over a renaming.
fn net_on_top<B: Space + Drop>(bench: &mut Bench, bottom: Both<B>) -> Result<(), No> {
    let renaming = renaming_over(bench, bottom, 6)?;
    let window = window_over(bench, renaming)?;
    let net = net_over(bench, window, 10)?;
    resolve_around(bench, &net, 8)?;
    examine(bench, &net)
}

// A window over a net over a renaming over a net.
fn window_on_top<B: Space + Drop>(bench: &mut Bench, bottom: Both<B>) -> Result<(), No> {
    let low = net_over(bench, bottom, 6)?;
    let renaming = renaming_over(bench, low, 70)?;
    let net = net_over(bench, renaming, 6)?;
    let window = window_over(bench, net)?;
    examine(bench, &window)
}

// A renaming over a renaming over a net over a window.
fn renaming_on_top<B: Space + Drop>(bench: &mut Bench, bottom: Both<B>) -> Result<(), No> {
    let window = window_over(bench, bottom)?;
    let net = net_over(bench, window, 10)?;
    let low = renaming_over(bench, net, 8)?;
    let high = renaming_over(bench, low, 8)?;
    examine(bench, &high)
}

// One of the three stacks. The dice choose, here and in the other families, so no caller could hand the step in.
fn tower<B: Space + Drop>(bench: &mut Bench, bottom: Both<B>) -> Result<(), No> {
    match bench.dice.below(3) {
        0 => net_on_top(bench, bottom),
        1 => window_on_top(bench, bottom),
        _ => renaming_on_top(bench, bottom),
    }
}

// A record, seldom one that no table takes.
fn row(dice: &mut Dice) -> Record {
    let Stretch { lo, hi } = dice.stretch();
    let base = if dice.once_in(8) {
        dice.address()
    } else {
        dice.below(0x1000)
    };
    Record {
        lo,
        hi,
        component: u32::from(dice.byte(20)),
        base,
    }
}

// Fills both tables, and compares the answers.
fn call_fill<'a>(
    bench: &mut Bench,
    flat: &mut FlatTable<'a>,
    rows: &mut Vec<words::Record>,
    records: &'a [Record],
) -> Result<(), AllocError> {
    let told = all_told(bench.heap, records)?;
    let one = answer(flat.fill(records));
    let two = fill(bench.heap, rows, told.as_slice());
    bench.tally.answer(&told, &one, &two)
}

// A tower over a flat table that was filled twice.
fn over_rows<'a>(bench: &mut Bench, older: &'a [Record], newer: &'a [Record]) -> Result<(), No> {
    let mut flat = FlatTable::new();
    let mut rows = Vec::new(bench.heap);
    call_fill(bench, &mut flat, &mut rows, older)?;
    call_fill(bench, &mut flat, &mut rows, newer)?;
    let bottom = Both {
        first: flat,
        second: stack_of(bench.heap, Layer::Flat(rows))?,
    };
    tower(bench, bottom)
}

fn tower_over_table(bench: &mut Bench) -> Result<(), No> {
    let mut older = Vec::new(bench.heap);
    let mut newer = Vec::new(bench.heap);
    for _ in 0..bench.dice.below(5) {
        older.push(row(&mut bench.dice))?;
        newer.push(row(&mut bench.dice))?;
    }
    over_rows(bench, older.as_slice(), newer.as_slice())
}

fn tower_over_bank(bench: &mut Bench) -> Result<(), No> {
    let bank = any_bank(&mut bench.dice);
    let bottom = over_bank(bench.heap, bank)?;
    tower(bench, bottom)
}

fn tower_over_socket(bench: &mut Bench) -> Result<(), No> {
    let bottom = Both {
        first: Socket,
        second: stack_of(bench.heap, Layer::Socket)?,
    };
    tower(bench, bottom)
}

pub fn towers(bench: &mut Bench, cases: u64) -> Result<(), No> {
    for _ in 0..cases {
        bench.tally.case();
        match bench.dice.below(5) {
            0 => tower_over_socket(bench)?,
            1 | 2 => tower_over_bank(bench)?,
            _ => tower_over_table(bench)?,
        }
    }
    Ok(())
}
