use model::faults::Fault;
use std::fmt;

// Who refused a line: the reader of its digits, the reader of its frame, or the net that was to be edited.
#[derive(Clone, Copy, PartialEq, Eq, Debug)]
pub enum Part {
    Text,
    Frame,
    Net,
}

// The first line that was refused, from 1, by whom, and why.
#[derive(Clone, Copy, PartialEq, Eq, Debug)]
pub struct LoadFault {
    pub line: usize,
    pub part: Part,
    pub fault: Fault,
}

impl fmt::Display for Part {
    fn fmt<W: fmt::Write>(&self, f: &mut fmt::Formatter<W>) -> fmt::Result {
        f.write_str(match self {
            Part::Text => "text",
            Part::Frame => "frame",
            Part::Net => "net",
        })
    }
}

// The line, the part and the refusal, which tells its number, and the name where it has one.
impl fmt::Display for LoadFault {
    fn fmt<W: fmt::Write>(&self, f: &mut fmt::Formatter<W>) -> fmt::Result {
        let LoadFault { line, part, fault } = *self;
        write!(f, "line {line}: {part}: refused with {fault}")
    }
}
