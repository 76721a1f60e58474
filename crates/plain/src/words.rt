// The words of this implementation: names, stretches of addresses, blocks, records and refusals.
ghost use Rattle.std.specs.Prelude.{◌≡◌, is_ok};

use std::alloc::{AllocError, AllocFailed};

// By default what a slot holds after a refusal.
#[derive(Clone, Copy, PartialEq, Eq, PartialOrd, Ord, Debug, Default)]
pub struct Name {
    pub component: u32,
    pub address: u64,
}

// An address at a node of a net.
#[derive(Clone, Copy, PartialEq, Debug)]
pub struct Spot {
    pub node: u8,
    pub address: u64,
}

// The addresses from lo to hi, both included.
#[derive(Clone, Copy, PartialEq, Eq, PartialOrd, Ord, Debug, Default)]
pub struct Stretch {
    pub lo: u64,
    pub hi: u64,
}

// A stretch whose lo is carried to base, and the rest behind it.
#[derive(Clone, Copy, PartialEq, Eq, PartialOrd, Ord, Debug, Default)]
pub struct Shift {
    pub at: Stretch,
    pub base: u64,
}

#[derive(Clone, Copy, PartialEq, Debug)]
pub struct Accept {
    pub node: u8,
    pub at: Stretch,
}

#[derive(Clone, Copy, PartialEq, Debug)]
pub struct Map {
    pub node: u8,
    pub shift: Shift,
    pub to: u8,
}

#[derive(Clone, Copy, PartialEq, Eq, PartialOrd, Ord, Debug, Default)]
pub struct Record {
    pub shift: Shift,
    pub component: u32,
}

// The refusals of the documents' list that tell no more than their number.
#[derive(Clone, Copy, PartialEq, Debug)]
pub enum Why {
    NodeOutOfRange = 1,
    DestinationOutOfRange = 2,
    RangeReversed = 3,
    TargetPastTop = 4,
    AlreadyThere = 5,
    NotThere = 6,
    TableFull = 7,
    BufferShort = 9,
    ScratchShort = 10,
    SecondScratchShort = 11,
    NotADigit = 12,
    OddDigits = 13,
    KindUnknown = 14,
    LengthWrong = 15,
}

// Why a call was not granted.
#[derive(Clone, Copy, PartialEq, Debug)]
pub enum No {
    Refused(Why),
    // Refused with 8: the first name whose walk is too long.
    Overfull(Spot),
    // A record of a table refused: its place.
    AtRecord(Why, usize),
    // Not a refusal: there was no memory to work in.
    Memory,
}

impl From<Why> for No {
    fn from(why: Why) -> No {
        No::Refused(why)
    }
}

impl From<AllocError> for No {
    fn from(_e: AllocError) -> No {
        No::Memory
    }
}

impl<T: Drop> From<AllocFailed<T>> for No {
    fn from(_e: AllocFailed<T>) -> No {
        No::Memory
    }
}

// Puts a question: if the answer is no, the call is refused for what stands beside it.
pub fn ask<E: Drop>(yes: bool, why: E) -> Result<(), E>
    ensures { is_ok result ≡ yes }
{
    if yes { Ok(()) } else { Err(why) }
}

impl Stretch {
    pub fn covers(&self, a: u64) -> bool {
        (self.lo..=self.hi).contains(&a)
    }

    // Question 3.
    pub(crate) fn ask_range(&self) -> Result<(), Why> {
        ask(self.lo <= self.hi, Why::RangeReversed)
    }

    // How far above a it stays so that the stretch covers, or does not cover.
    pub fn ahead(&self, a: u64) -> u64 {
        if a < self.lo {
            self.lo.saturating_sub(a).saturating_sub(1)
        } else if a <= self.hi {
            self.hi.saturating_sub(a)
        } else {
            u64::MAX.saturating_sub(a)
        }
    }
}

impl Shift {
    // Where an address of the stretch comes to.
    pub fn carried(&self, a: u64) -> Option<u64> {
        let there = self.base.checked_add(a.checked_sub(self.at.lo)?)?;
        self.at.covers(a).then_some(there)
    }

    // Which address of the stretch is carried to a.
    pub fn fetched(&self, a: u64) -> Option<u64> {
        let back = self.at.lo.checked_add(a.checked_sub(self.base)?)?;
        self.at.covers(back).then_some(back)
    }

    // Questions 3 and 4.
    pub fn ask_target(&self) -> Result<(), Why> {
        self.at.ask_range()?;
        let last = self.base.checked_add(self.at.hi.saturating_sub(self.at.lo));
        ask(last.is_some(), Why::TargetPastTop)
    }
}

impl Record {
    // The name that an address ends at by the record.
    pub(crate) fn name(&self, a: u64) -> Option<Name> {
        let address = self.shift.carried(a)?;
        Some(Name {
            component: self.component,
            address,
        })
    }
}
