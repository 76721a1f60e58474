// The worked board: what it answers is stated here, and was computed by neither implementation.
use crate::bench::{Bench, Both};
use crate::build::{map_edit, net_with, over_bank};
use crate::calls::{call_compare, call_flatten, call_look};
use crate::same::Told;
use crate::tally::number;
use model::faults::Fault;
use nets::net::Net;
use plain::net::Edit;
use plain::words::{Accept, Name, No, Record, Stretch, Why};
use space::bank::Bank;

const fn at(component: u32, address: u64) -> Name {
    Name { component, address }
}

// The board in both implementations.
type Board = Both<Net<Bank>>;

fn made(bench: &mut Bench, size: u64) -> Result<Board, No> {
    let bank = Bank {
        component: 900,
        size,
    };
    let page = Stretch {
        lo: 0x8000,
        hi: 0x8fff,
    };
    let edits = [
        Edit::Over(0, 1),
        Edit::Accept(Accept { node: 1, at: page }),
        map_edit(0, 0x4000, 0x4fff, 2, 0),
        map_edit(2, 0, 0xfff, 32, 0),
        map_edit(2, 0, 0xff, 1, 0x8000),
    ];
    let below = over_bank(bench.heap, bank)?;
    Ok(net_with(bench, below, 2, &edits)?)
}

// The list at an address, by both implementations, is the stated one.
fn look_is(bench: &mut Bench, board: &Board, a: u64, stated: &[Name]) -> Result<(), No> {
    call_look(bench, board, a, 64)?;
    let list = board.second.list(bench.heap, a)?;
    let stated = stated.to_vec(bench.heap)?;
    bench.tally.same(&a, &list.names, &stated)?;
    Ok(())
}

// So is the answer of a flattening.
fn flatten_is(
    bench: &mut Bench,
    board: &Board,
    room: usize,
    many: usize,
    stated: Result<usize, No>,
) -> Result<(), No> {
    let _ = call_flatten(bench, board, room, many)?;
    let mut scratch = vec![in bench.heap; Name::default(); room]?;
    let mut table = vec![in bench.heap; Record::default(); many]?;
    let found = board
        .second
        .flatten(bench.heap, table.as_mut_slice(), scratch.as_mut_slice());
    bench.tally.same(&(room, many), &found, &stated)?;
    Ok(())
}

// So is the answer of a comparing.
fn compare_is(
    bench: &mut Bench,
    left: &Board,
    right: &Board,
    stated: Option<u64>,
) -> Result<(), No> {
    call_compare(bench, left, right, (64, 64))?;
    let mut one = vec![in bench.heap; Name::default(); 2]?;
    let mut two = vec![in bench.heap; Name::default(); 2]?;
    let found = left.second.compare(
        bench.heap,
        &right.second,
        one.as_mut_slice(),
        two.as_mut_slice(),
    );
    bench.tally.same(&"compare", &found, &Ok(stated))?;
    Ok(())
}

const FAULTS: [Fault; 17] = [
    Fault::NodeOutOfRange,
    Fault::DestinationOutOfRange,
    Fault::RangeReversed,
    Fault::TargetPastTop,
    Fault::AlreadyThere,
    Fault::NotThere,
    Fault::TableFull,
    Fault::WalkTooLong {
        node: 0,
        address: 0,
    },
    Fault::BufferShort,
    Fault::ScratchShort,
    Fault::SecondScratchShort,
    Fault::NotADigit,
    Fault::OddDigits,
    Fault::KindUnknown,
    Fault::LengthWrong,
    Fault::RecordReversed { place: 0 },
    Fault::RecordPastTop { place: 0 },
];

// Both implementations give every refusal the same number.
fn numbers_are_the_same(bench: &mut Bench) -> Result<(), No> {
    for fault in FAULTS {
        let told = number(&fault.told());
        bench.tally.same(&fault, &fault.number(), &told)?;
    }
    Ok(())
}

pub fn worked(bench: &mut Bench) -> Result<(), No> {
    bench.tally.case();
    numbers_are_the_same(bench)?;
    let whole = made(bench, 0x1000)?;
    let short = made(bench, 0xfff)?;
    look_is(bench, &whole, 0x8010, &[at(65, 0x8010)])?;
    look_is(bench, &whole, 0x4010, &[at(900, 0x10), at(65, 0x8010)])?;
    look_is(bench, &whole, 0x4100, &[at(900, 0x100)])?;
    look_is(bench, &whole, 0x5000, &[])?;
    flatten_is(bench, &whole, 2, 4, Ok(4))?;
    flatten_is(bench, &whole, 2, 3, Err(No::Refused(Why::BufferShort)))?;
    flatten_is(bench, &whole, 1, 4, Err(No::Refused(Why::ScratchShort)))?;
    compare_is(bench, &whole, &whole, None)?;
    compare_is(bench, &whole, &short, Some(0x4fff))
}
