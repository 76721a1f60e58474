// Each call made of both implementations, and the answers compared.
use crate::bench::{Bench, Both};
use crate::same::{Told, accept_block, all_told, answer, asked, map_block};
use flatten::compare::compare;
use flatten::flat::flatten;
use layers::renaming::Renaming;
use model::faults::Fault;
use model::names::Name;
use model::records::Record;
use nets::net::Net;
use plain::net::Edit;
use plain::stack::pair;
use plain::texts::write;
use plain::words::No;
use plain::{net, words};
use space::Space;
use std::alloc::{AllocError, Global};

// What is shown of a call where its answers differ.
#[derive(Clone, Copy, Debug)]
enum Call {
    Edit(Edit),
    Pair(u32, u32),
    Look(u64, usize),
    Resolve(u8, u64, usize),
    Meets(u64, words::Name),
    Flatten(usize, usize),
    Compare(usize, usize),
    Write(usize),
}

// What slots and records hold before a call, so that a change is seen.
const MARK: Name = Name {
    component: 7,
    address: 7,
};

const ROW: Record = Record {
    lo: 7,
    hi: 7,
    component: 7,
    base: 7,
};

// The same slots for both implementations.
#[derive(Drop)]
struct Slots {
    first: Vec<Name>,
    second: Vec<words::Name>,
}

impl Slots {
    fn new(heap: Global, room: usize) -> Result<Slots, AllocError> {
        Ok(Slots {
            first: vec![in heap; MARK; room]?,
            second: vec![in heap; MARK.told(); room]?,
        })
    }

    // Compares what a call left in them.
    fn compare(&self, bench: &mut Bench, call: &Call) -> Result<(), AllocError> {
        let told = all_told(bench.heap, self.first.as_slice())?;
        bench.tally.same(call, &told, &self.second)
    }
}

fn edited<B: Space>(net: &mut Net<B>, edit: &Edit) -> Result<(), Fault> {
    match edit {
        Edit::Accept(block) => net.accept(accept_block(block)),
        Edit::Map(block) => net.map(map_block(block)),
        Edit::DropAccept(block) => net.drop_accept(accept_block(block)),
        Edit::DropMap(block) => net.drop_map(map_block(block)),
        Edit::Over(node, to) => net.over(*node, *to),
        Edit::Enter(node) => net.enter(*node),
    }
}

// The two nets apart, not a `Both`: while it is edited the second one is in no stack.
pub fn call_edit<B: Space>(
    bench: &mut Bench,
    first: &mut Net<B>,
    second: &mut net::Net,
    edit: Edit,
) -> Result<(), AllocError> {
    let one = answer(edited(first, &edit));
    let two = second.edit(bench.heap, edit);
    bench.tally.answer(&Call::Edit(edit), &one, &two)
}

pub fn call_pair<B: Space>(
    bench: &mut Bench,
    first: &mut Renaming<B>,
    second: &mut Vec<(u32, u32)>,
    from: u32,
    to: u32,
) -> Result<(), AllocError> {
    let one = answer(first.pair(from, to));
    let two = pair(second, from, to);
    bench.tally.answer(&Call::Pair(from, to), &one, &two)
}

// A call that fills slots, of a look's kind.
fn call_into<F, P>(
    bench: &mut Bench,
    call: Call,
    room: usize,
    first: F,
    second: P,
) -> Result<(), AllocError>
where
    F: FnOnce(&mut [Name]) -> Result<(usize, u64), Fault>,
    P: FnOnce(&mut [words::Name]) -> Result<(usize, u64), No>,
    requires first_call { F.IsAlwaysCallable first }
    requires second_call { P.IsAlwaysCallable second }
{
    let mut slots = Slots::new(bench.heap, room)?;
    let one = answer(first(slots.first.as_mut_slice()));
    let two = second(slots.second.as_mut_slice());
    bench.tally.answer(&call, &one, &two)?;
    slots.compare(bench, &call)
}

pub fn call_look<S: Space>(
    bench: &mut Bench,
    both: &Both<S>,
    a: u64,
    room: usize,
) -> Result<(), AllocError> {
    let heap = bench.heap;
    call_into(
        bench,
        Call::Look(a, room),
        room,
        |slots| both.first.look(a, slots),
        |slots| both.second.look(heap, a, slots),
    )
}

pub fn call_resolve<B: Space>(
    bench: &mut Bench,
    both: &Both<Net<B>>,
    node: u8,
    a: u64,
    room: usize,
) -> Result<(), AllocError> {
    let heap = bench.heap;
    call_into(
        bench,
        Call::Resolve(node, a, room),
        room,
        |slots| both.first.resolve(node, a, slots),
        |slots| both.second.resolve(heap, node, a, slots),
    )
}

pub fn call_meets<S: Space>(
    bench: &mut Bench,
    both: &Both<S>,
    a: u64,
    name: words::Name,
) -> Result<(), AllocError> {
    let one: Result<bool, No> = Ok(both.first.meets(a, asked(&name)));
    let two: Result<bool, No> = Ok(both.second.meets(bench.heap, a, name)?);
    bench.tally.answer(&Call::Meets(a, name), &one, &two)
}

// The rows of a table by run: where each begins, in order, and all of them sorted.
fn by_run(
    heap: Global,
    table: &[words::Record],
) -> Result<(Vec<u64>, Vec<words::Record>), AllocError> {
    let starts = table.iter().map(|row| row.shift.at.lo).collect(heap)?;
    let mut rows = table.to_vec(heap)?;
    rows.sort()?;
    Ok((starts, rows))
}

// Flattens both, and gives the first's records where it is granted.
pub fn call_flatten<S: Space>(
    bench: &mut Bench,
    both: &Both<S>,
    room: usize,
    many: usize,
) -> Result<Option<Vec<Record>>, AllocError> {
    let heap = bench.heap;
    let mut scratch = Slots::new(heap, room)?;
    let mut table = vec![in heap; ROW; many]?;
    let mut plain_table = vec![in heap; ROW.told(); many]?;
    let one = answer(flatten(
        &both.first,
        scratch.first.as_mut_slice(),
        table.as_mut_slice(),
    ));
    let two = both.second.flatten(
        heap,
        plain_table.as_mut_slice(),
        scratch.second.as_mut_slice(),
    );
    let call = Call::Flatten(room, many);
    bench.tally.answer(&call, &one, &two)?;
    scratch.compare(bench, &call)?;
    let told = all_told(heap, table.as_slice())?;
    let rows = by_run(heap, told.as_slice())?;
    bench
        .tally
        .same(&call, &rows, &by_run(heap, plain_table.as_slice())?)?;
    let Ok(count) = one else {
        return Ok(None);
    };
    table.truncate(count);
    Ok(Some(table))
}

pub fn call_compare<L: Space, R: Space>(
    bench: &mut Bench,
    left: &Both<L>,
    right: &Both<R>,
    rooms: (usize, usize),
) -> Result<(), AllocError> {
    let mut one = Slots::new(bench.heap, rooms.0)?;
    let mut other = Slots::new(bench.heap, rooms.1)?;
    let given = answer(compare(
        &left.first,
        &right.first,
        one.first.as_mut_slice(),
        other.first.as_mut_slice(),
    ));
    let found = left.second.compare(
        bench.heap,
        &right.second,
        one.second.as_mut_slice(),
        other.second.as_mut_slice(),
    );
    let call = Call::Compare(rooms.0, rooms.1);
    bench.tally.answer(&call, &given, &found)?;
    one.compare(bench, &call)?;
    other.compare(bench, &call)
}

// Writes both nets as texts, and answers the count.
pub fn call_write<B: Space>(
    bench: &mut Bench,
    first: &Net<B>,
    second: &net::Net,
    room: usize,
) -> Result<usize, AllocError> {
    let mut bytes = vec![in bench.heap; 7u8; room]?;
    let mut plain_bytes = vec![in bench.heap; 7u8; room]?;
    let one = answer(first.write(bytes.as_mut_slice()));
    let two = write(bench.heap, second, plain_bytes.as_mut_slice());
    let call = Call::Write(room);
    bench.tally.answer(&call, &one, &two)?;
    bench.tally.same(&call, &bytes, &plain_bytes)?;
    Ok(two.unwrap_or(0))
}
