ghost use Rattle.std.specs.Prelude.{◌≡◌};
ghost use Rattle.model.specs.Faults.{number, told};

use std::fmt;

// Why a call is refused. docs/REFUSALS.md says who asks what, and in which order.
#[derive(Clone, Copy, PartialEq, Eq, Debug)]
pub enum Fault {
    NodeOutOfRange,
    DestinationOutOfRange,
    RangeReversed,
    TargetPastTop,
    AlreadyThere,
    NotThere,
    TableFull,
    // the first name, by node, then address, whose walk would meet more than 64 names
    WalkTooLong { node: u8, address: u64 },
    BufferShort,
    ScratchShort,
    SecondScratchShort,
    NotADigit,
    OddDigits,
    KindUnknown,
    LengthWrong,
    // of the records of a table, the one at this place, from 0
    RecordReversed { place: usize },
    RecordPastTop { place: usize },
}

impl Fault {
    // The number under which the documents list the refusal.
    // By a match: the variants hold values, and 3 and 4 stand for two of them each.
    pub fn number(&self) -> u8
        ensures { result ≡ number (told self.now) }
    {
        match *self {
            Fault::NodeOutOfRange => 1,
            Fault::DestinationOutOfRange => 2,
            Fault::RangeReversed | Fault::RecordReversed { .. } => 3,
            Fault::TargetPastTop | Fault::RecordPastTop { .. } => 4,
            Fault::AlreadyThere => 5,
            Fault::NotThere => 6,
            Fault::TableFull => 7,
            Fault::WalkTooLong { .. } => 8,
            Fault::BufferShort => 9,
            Fault::ScratchShort => 10,
            Fault::SecondScratchShort => 11,
            Fault::NotADigit => 12,
            Fault::OddDigits => 13,
            Fault::KindUnknown => 14,
            Fault::LengthWrong => 15,
        }
    }
}

// The number, and what it means.
impl fmt::Display for Fault {
    fn fmt<W: fmt::Write>(&self, f: &mut fmt::Formatter<W>) -> fmt::Result {
        let number = self.number();
        let meaning = match *self {
            Fault::NodeOutOfRange => "the node is above 31",
            Fault::DestinationOutOfRange => "the destination is out of range",
            Fault::RangeReversed | Fault::RecordReversed { .. } => "lo is above hi",
            Fault::TargetPastTop | Fault::RecordPastTop { .. } =>
                "the target passes the last address",
            Fault::AlreadyThere => "it is there already",
            Fault::NotThere => "it is not there",
            Fault::TableFull => "no place is free",
            Fault::WalkTooLong { node, address } => {
                return write!(
                    f,
                    "{number} (the walk from node {node}, address {address:016x} would meet more than 64 names)"
                );
            }
            Fault::BufferShort => "the buffer does not hold the answer",
            Fault::ScratchShort => "the scratch does not hold every list",
            Fault::SecondScratchShort => "the second scratch does not hold every list",
            Fault::NotADigit => "a character is no digit",
            Fault::OddDigits => "the number of digits is odd or 0",
            Fault::KindUnknown => "the kind is unknown",
            Fault::LengthWrong => "the frame has not its kind's length",
        };
        write!(f, "{number} ({meaning})")
    }
}
