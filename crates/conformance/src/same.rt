// The first implementation's words in the second one's. The types of both are other crates', so no From can be written here.
use frames::frame;
use loading::fault;
use loading::fault::LoadFault;
use model::blocks::{AcceptBlock, MapBlock};
use model::faults::Fault;
use model::names::Name;
use model::records::Record;
use plain::lines::Frame;
use plain::net::Edit;
use plain::texts::{Part, Refusal};
use plain::words;
use plain::words::{Accept, Map, No, Shift, Spot, Stretch, Why};
use std::alloc::{AllocError, Global};

// A word of the first implementation.
pub trait Told {
    type Plain: Drop;

    fn told(&self) -> Self::Plain;
}

// Many words.
pub fn all_told<T: Told>(heap: Global, all: &[T]) -> Result<Vec<T::Plain>, AllocError> {
    all.iter().map(|one| one.told()).collect(heap)
}

pub fn answer<T>(given: Result<T, Fault>) -> Result<T, No> {
    given.map_err(|fault| fault.told())
}

impl Told for Fault {
    type Plain = No;

    fn told(&self) -> No {
        match *self {
            Fault::NodeOutOfRange => No::Refused(Why::NodeOutOfRange),
            Fault::DestinationOutOfRange => No::Refused(Why::DestinationOutOfRange),
            Fault::RangeReversed => No::Refused(Why::RangeReversed),
            Fault::TargetPastTop => No::Refused(Why::TargetPastTop),
            Fault::AlreadyThere => No::Refused(Why::AlreadyThere),
            Fault::NotThere => No::Refused(Why::NotThere),
            Fault::TableFull => No::Refused(Why::TableFull),
            Fault::WalkTooLong { node, address } => No::Overfull(Spot { node, address }),
            Fault::BufferShort => No::Refused(Why::BufferShort),
            Fault::ScratchShort => No::Refused(Why::ScratchShort),
            Fault::SecondScratchShort => No::Refused(Why::SecondScratchShort),
            Fault::NotADigit => No::Refused(Why::NotADigit),
            Fault::OddDigits => No::Refused(Why::OddDigits),
            Fault::KindUnknown => No::Refused(Why::KindUnknown),
            Fault::LengthWrong => No::Refused(Why::LengthWrong),
            Fault::RecordReversed { place } => No::AtRecord(Why::RangeReversed, place),
            Fault::RecordPastTop { place } => No::AtRecord(Why::TargetPastTop, place),
        }
    }
}

impl Told for Name {
    type Plain = words::Name;

    fn told(&self) -> words::Name {
        words::Name {
            component: self.component,
            address: self.address,
        }
    }
}

pub fn shift(lo: u64, hi: u64, base: u64) -> Shift {
    let at = Stretch { lo, hi };
    Shift { at, base }
}

impl Told for Record {
    type Plain = words::Record;

    fn told(&self) -> words::Record {
        words::Record {
            shift: shift(self.lo, self.hi, self.base),
            component: self.component,
        }
    }
}

impl Told for AcceptBlock {
    type Plain = Accept;

    fn told(&self) -> Accept {
        Accept {
            node: self.node,
            at: Stretch {
                lo: self.lo,
                hi: self.hi,
            },
        }
    }
}

impl Told for MapBlock {
    type Plain = Map;

    fn told(&self) -> Map {
        Map {
            node: self.node,
            shift: shift(self.lo, self.hi, self.base),
            to: self.destination,
        }
    }
}

impl Told for frame::Frame {
    type Plain = Frame;

    fn told(&self) -> Frame {
        match self {
            frame::Frame::Accept(block) => Frame::Edit(Edit::Accept(block.told())),
            frame::Frame::Map(block) => Frame::Edit(Edit::Map(block.told())),
            frame::Frame::Over { node, destination } => {
                Frame::Edit(Edit::Over(*node, *destination))
            }
            frame::Frame::Enter { node } => Frame::Edit(Edit::Enter(*node)),
            frame::Frame::DropAccept(block) => Frame::Edit(Edit::DropAccept(block.told())),
            frame::Frame::DropMap(block) => Frame::Edit(Edit::DropMap(block.told())),
            frame::Frame::Look { address } => Frame::Look(*address),
        }
    }
}

impl Told for LoadFault {
    type Plain = Refusal;

    fn told(&self) -> Refusal {
        let part = match self.part {
            fault::Part::Text => Part::Text,
            fault::Part::Frame => Part::Frame,
            fault::Part::Net => Part::Net,
        };
        Refusal {
            line: self.line,
            part,
            no: self.fault.told(),
        }
    }
}

// The other way round: what the first implementation is called with.
pub fn asked(name: &words::Name) -> Name {
    Name {
        component: name.component,
        address: name.address,
    }
}

pub fn accept_block(block: &Accept) -> AcceptBlock {
    AcceptBlock {
        node: block.node,
        lo: block.at.lo,
        hi: block.at.hi,
    }
}

pub fn map_block(block: &Map) -> MapBlock {
    MapBlock {
        node: block.node,
        lo: block.shift.at.lo,
        hi: block.shift.at.hi,
        destination: block.to,
        base: block.shift.base,
    }
}
