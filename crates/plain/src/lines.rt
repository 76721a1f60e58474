// Lines of text: frames of two hexadecimal digits a byte.
use crate::net::Edit;
use crate::words::{Accept, Map, No, Shift, Stretch, Why, ask};
use std::alloc::Global;

#[derive(Clone, Copy, PartialEq, Debug)]
pub enum Frame {
    Edit(Edit),
    Look(u64),
}

// Which kinds of frames are known: those that build a net, or all.
#[derive(Clone, Copy, PartialEq, Debug)]
pub enum Known {
    Building,
    All,
}

// What a frame's first byte says that it is.
#[derive(Clone, Copy)]
pub(crate) enum Kind {
    Accept = 0x41,
    Map = 0x4d,
    Over = 0x4f,
    Enter = 0x45,
    DropAccept = 0x61,
    DropMap = 0x6d,
    Look = 0x4c,
}

const KINDS: [Kind; 7] = [
    Kind::Accept,
    Kind::Map,
    Kind::Over,
    Kind::Enter,
    Kind::DropAccept,
    Kind::DropMap,
    Kind::Look,
];

impl TryFrom<u8> for Kind {
    type Error = Why;

    fn try_from(byte: u8) -> Result<Kind, Why> {
        KINDS
            .iter()
            .copied()
            .find(|kind| *kind as u8 == byte)
            .ok_or(Why::KindUnknown)
    }
}

impl Kind {
    fn builds(self) -> bool {
        match self {
            Kind::Accept | Kind::Map | Kind::Over | Kind::Enter => true,
            Kind::DropAccept | Kind::DropMap | Kind::Look => false,
        }
    }

    // How many bytes a frame of the kind has, the first one included.
    fn length(self) -> usize {
        match self {
            Kind::Accept | Kind::DropAccept => 18,
            Kind::Map | Kind::DropMap => 27,
            Kind::Over => 3,
            Kind::Enter => 2,
            Kind::Look => 9,
        }
    }
}

// Not `to_digit`, which takes capitals too.
fn digit(c: u8) -> Option<u8> {
    match c {
        b'0'..=b'9' => Some(c - b'0'),
        b'a'..=b'f' => Some(c - b'a' + 10),
        _ => None,
    }
}

// The bytes that a line spells, by questions 12 and 13.
fn bytes_of(heap: Global, line: &[u8]) -> Result<Vec<u8>, No> {
    let digits: Vec<u8> = line
        .iter()
        .map(|c| digit(*c).ok_or(No::Refused(Why::NotADigit)))
        .try_collect(heap)?;
    let (pairs, odd) = digits.as_slice().as_chunks::<2>();
    ask(odd.is_empty() && !pairs.is_empty(), Why::OddDigits)?;
    Ok(
        pairs
            .iter()
            .map(|pair| pair[0].wrapping_mul(16).wrapping_add(pair[1]))
            .collect(heap)?,
    )
}

// The number in the eight bytes from a place on.
fn number(bytes: &[u8], from: usize) -> u64 {
    bytes
        .get(from..)
        .and_then(|tail| tail.first_chunk())
        .map_or(0, |eight| u64::from_be_bytes(*eight))
}

fn byte(bytes: &[u8], at: usize) -> u8 {
    bytes.get(at).copied().unwrap_or(0)
}

fn accept(bytes: &[u8]) -> Accept {
    Accept {
        node: byte(bytes, 1),
        at: Stretch {
            lo: number(bytes, 2),
            hi: number(bytes, 10),
        },
    }
}

fn map(bytes: &[u8]) -> Map {
    let Accept { node, at } = accept(bytes);
    Map {
        node,
        shift: Shift {
            at,
            base: number(bytes, 19),
        },
        to: byte(bytes, 18),
    }
}

// What a line says.
pub fn read_line(heap: Global, line: &[u8], known: Known) -> Result<Frame, No> {
    let owned = bytes_of(heap, line)?;
    let bytes = owned.as_slice();
    let kind = Kind::try_from(byte(bytes, 0))?;
    ask(known == Known::All || kind.builds(), Why::KindUnknown)?;
    ask(bytes.len() == kind.length(), Why::LengthWrong)?;
    Ok(match kind {
        Kind::Accept => Frame::Edit(Edit::Accept(accept(bytes))),
        Kind::Map => Frame::Edit(Edit::Map(map(bytes))),
        Kind::DropAccept => Frame::Edit(Edit::DropAccept(accept(bytes))),
        Kind::DropMap => Frame::Edit(Edit::DropMap(map(bytes))),
        Kind::Over => Frame::Edit(Edit::Over(byte(bytes, 1), byte(bytes, 2))),
        Kind::Enter => Frame::Edit(Edit::Enter(byte(bytes, 1))),
        Kind::Look => Frame::Look(number(bytes, 1)),
    })
}
