ghost use Rattle.std.specs.Prelude.{◌≡◌, ◌+◌, ◌<◌};
ghost use Rattle.model.specs.Names.{top};

use blocks::destination::Destination;
use lists::ArrayVec;

// How many bounds and how many passed agendas a search remembers, and of how many spots such an agenda may be: 8 KB in all.
pub(crate) const BOUNDS: usize = 128;

pub(crate) const AGENDAS: usize = 32;

pub(crate) const SPOTS: usize = 8;

// A spot that waits to be walked from. Its address is `offset` above the start of the walks, modulo 2^64, so that a higher start raises all that wait.
#[derive(Clone, Copy)]
pub(crate) struct Target {
    pub offset: u64,
    pub destination: Destination,
}

// What stands where no spot waits.
pub(crate) const NO_TARGET: Target = Target {
    offset: 0,
    destination: Destination::Below,
};

// The addresses, or the starts of walks, from `low` up to `low + extent`.
#[derive(Clone, Copy, PartialEq)]
pub(crate) struct Range {
    pub low: u64,
    pub extent: u64,
    ghost under: { low + extent < top },
}

// Spots that wait, with the starts from which they are walked.
#[derive(Clone, Copy)]
pub(crate) struct Agenda<'q> {
    pub targets: &'q [Target],
    pub starts: Range,
}

// From each address of the range at the node a walk meets at most `most` names, if that is known.
#[derive(Clone, Copy)]
pub(crate) struct RangeBound {
    pub range: Range,
    pub node: u8,
    pub most: Option<u8>,
}

// The walks from the targets together meet at most `budget` names, from each of the starts.
#[derive(Clone, Copy)]
pub(crate) struct PassedAgenda {
    pub targets: ArrayVec<Target, SPOTS>,
    pub starts: Range,
    pub budget: usize,
}

// What a search has found out, so that it need not again. What is remembered stands at a place that is computed from what it speaks of, and takes the place of what stood there.
// Arrays and no map, since a search uses no heap; two tables and no generic one, since a bound is found by an equal key, an agenda by one that covers it.
#[derive(Drop)]
pub(crate) struct Memo {
    pub bounds: [RangeBound; BOUNDS],
    pub agendas: [PassedAgenda; AGENDAS],
}

// A place among N for what was mixed: the upper bits of a product depend on all the bits.
pub(crate) fn place<const N: usize>(mixed: u64) -> usize
    requires { 0 < N }
    ensures { result < N }
{
    (mixed >> 40) as usize % N
}

// Spreads a number over all 64 bits.
pub(crate) fn spread(x: u64) -> u64 {
    x.wrapping_mul(0x9E37_79B9_7F4A_7C15)
}
