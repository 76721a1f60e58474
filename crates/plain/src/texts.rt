// A net as a text of frames, loaded and written.
ghost use Rattle.std.specs.Prelude.{◌≡◌, OnErr};

use crate::lines::{Frame, Known, read_line};
use crate::net::{Edit, Net};
use crate::words::{No, Why, ask};
use std::alloc::{AllocError, Global};

// Which part of a load refused a line.
#[derive(Clone, Copy, PartialEq, Debug)]
pub enum Part {
    Text,
    Frame,
    Net,
}

// The first refused line, counted from 1.
#[derive(Clone, Copy, PartialEq, Debug)]
pub struct Refusal {
    pub line: usize,
    pub part: Part,
    pub no: No,
}

// A function and no conversion: a part tells who asked.
fn blamed(no: &No) -> Part {
    match no {
        No::Refused(Why::NotADigit | Why::OddDigits) => Part::Text,
        No::Refused(Why::KindUnknown | Why::LengthWrong) => Part::Frame,
        _ => Part::Net,
    }
}

fn apply(heap: Global, net: &mut Net, line: &[u8]) -> Result<(), No> {
    match read_line(heap, line, Known::Building)? {
        Frame::Edit(edit) => net.edit(heap, edit),
        Frame::Look(_) => Err(No::Refused(Why::KindUnknown)),
    }
}

// A fresh net with the lines of a text applied: each ends in a line feed, which the last may lack.
pub fn load(heap: Global, group: u16, text: &[u8]) -> Result<Net, Refusal> {
    let mut net = Net::new(heap, group);
    for (place, ended) in text.split_inclusive(|c| *c == b'\n').enumerate() {
        let line = ended.strip_suffix(b"\n").unwrap_or(ended);
        apply(heap, &mut net, line).map_err(|no| Refusal {
            line: place.saturating_add(1),
            part: blamed(&no),
            no,
        })?;
    }
    Ok(net)
}

// The text of a net.
fn text(heap: Global, net: &Net) -> Result<String, AllocError> {
    let mut all = String::new(heap);
    writeln!(all, "{}", Edit::Enter(net.entry))?;
    for block in net.accepts.iter() {
        writeln!(all, "{}", Edit::Accept(*block))?;
    }
    for block in net.maps.iter() {
        writeln!(all, "{}", Edit::Map(*block))?;
    }
    for (node, to) in net.overlays.iter() {
        writeln!(all, "{}", Edit::Over(*node, *to))?;
    }
    Ok(all)
}

// Puts a net's text into the bytes, and answers its length; a short buffer is left as it was.
pub fn write(heap: Global, net: &Net, bytes: &mut [u8]) -> Result<usize, No>
    ensures { OnErr result (bytes.new ≡ bytes.old) }
{
    let all = text(heap, net)?;
    let count = all.len();
    ask(count <= bytes.len(), Why::BufferShort)?;
    bytes[..count].copy_from_slice(all.as_bytes());
    Ok(count)
}
