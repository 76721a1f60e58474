// A stack looked at from all sides, in both implementations.
use crate::bench::{Bench, Both};
use crate::build::stack_of;
use crate::calls::{call_compare, call_flatten, call_look, call_meets, call_resolve};
use crate::same::all_told;
use model::records::Record;
use nets::net::Net;
use plain::stack::{Layer, fill};
use plain::words::{Name, No};
use space::Space;
use space::flat::FlatTable;
use std::alloc::AllocError;

// The names of the list at an address, and neighbours that are seldom in it.
fn meet_all<S: Space>(bench: &mut Bench, both: &Both<S>, a: u64) -> Result<(), AllocError> {
    let list = both.second.list(bench.heap, a)?;
    for name in list.names.iter() {
        let Name { component, address } = *name;
        let beside = Name {
            component: component ^ 1,
            address,
        };
        let behind = Name {
            component,
            address: address.wrapping_add(1),
        };
        for asked in [*name, beside, behind] {
            call_meets(bench, both, a, asked)?;
        }
    }
    Ok(())
}

// Looks at the seams of a stack and beside them.
pub fn look_around<S: Space>(
    bench: &mut Bench,
    both: &Both<S>,
    most: usize,
) -> Result<(), AllocError> {
    let seams = both.second.seams(bench.heap)?;
    for seam in seams.iter().take(most) {
        for a in [seam.wrapping_sub(1), *seam, seam.wrapping_add(1)] {
            let room = bench.dice.room();
            call_look(bench, both, a, room)?;
        }
        meet_all(bench, both, *seam)?;
    }
    let a = bench.dice.roll();
    call_look(bench, both, a, 64)
}

// Resolves from every node that the dice choose.
pub fn resolve_around<B: Space>(
    bench: &mut Bench,
    both: &Both<Net<B>>,
    times: u64,
) -> Result<(), AllocError> {
    for _ in 0..times {
        let nodes = if bench.dice.once_in(8) { 255 } else { 6 };
        let node = bench.dice.byte(nodes);
        let a = bench.dice.address();
        let room = bench.dice.room();
        call_resolve(bench, both, node, a, room)?;
    }
    Ok(())
}

// What a table gives is what it was flattened from.
fn compare_with_table<S: Space>(
    bench: &mut Bench,
    both: &Both<S>,
    table: &[Record],
) -> Result<(), No> {
    let mut flat = FlatTable::new();
    let mut rows = Vec::new(bench.heap);
    fill(
        bench.heap,
        &mut rows,
        all_told(bench.heap, table)?.as_slice(),
    )?;
    if flat.fill(table).is_ok() {
        let tables = Both {
            first: flat,
            second: stack_of(bench.heap, Layer::Flat(rows))?,
        };
        call_compare(bench, both, &tables, (64, 64))?;
    }
    Ok(())
}

// Flattens with enough room and with less, and compares with what comes of it.
pub fn flatten_around<S: Space>(bench: &mut Bench, both: &Both<S>) -> Result<(), No> {
    if let Some(table) = call_flatten(bench, both, 64, 512)? {
        let count = table.len();
        let room = bench.dice.room();
        let _ = call_flatten(bench, both, room, count)?;
        let _ = call_flatten(bench, both, 64, count.saturating_sub(1))?;
        compare_with_table(bench, both, table.as_slice())?;
    }
    Ok(())
}
