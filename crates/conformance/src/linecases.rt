// The family of lines: frames, good and damaged.
use crate::bench::Bench;
use crate::same::{Told, answer};
use frames::frame::Kinds;
use frames::reader;
use plain::lines::{Known, read_line};
use plain::words::No;
use std::alloc::AllocError;

// The first byte of each kind of frame, and how many bytes it has; the last kind is unknown.
// Numbers, since one of them must be of no kind, and so that neither implementation's own table of kinds is asked.
const KINDS: [(u8, u64); 8] = [
    (0x41, 18),
    (0x4d, 27),
    (0x4f, 3),
    (0x45, 2),
    (0x61, 18),
    (0x6d, 27),
    (0x4c, 9),
    (0x42, 5),
];

const DAMAGE: [char; 8] = ['g', 'A', 'F', '/', ':', '`', '~', ' '];

// The bytes of a frame, mostly of a known kind and of its length.
fn frame_bytes(bench: &mut Bench) -> Result<Vec<u8>, AllocError> {
    let heap = bench.heap;
    let dice = &mut bench.dice;
    let (kind, whole) = dice.one_of(&KINDS).unwrap_or((0, 0));
    let length = match dice.below(12) {
        0 => whole.saturating_sub(1),
        1 => whole.wrapping_add(1),
        2 => dice.below(40),
        _ => whole,
    };
    let mut bytes = Vec::new(heap);
    bytes.push(kind)?;
    for _ in 1..length {
        bytes.push(if dice.once_in(2) { 0 } else { dice.byte(255) })?;
    }
    Ok(bytes)
}

// The digits of some bytes, now and then with a character that is none, or with one left out or doubled.
fn spelled(bench: &mut Bench, bytes: &[u8]) -> Result<String, AllocError> {
    let heap = bench.heap;
    let dice = &mut bench.dice;
    let mut line = String::new(heap);
    for byte in bytes {
        write!(line, "{byte:02x}")?;
        if dice.once_in(60) {
            match dice.below(3) {
                0 => line.push(dice.one_of(&DAMAGE).unwrap_or('g'))?,
                1 => write!(line, "{:x}", dice.byte(16))?,
                _ => {
                    let _ = line.pop();
                }
            }
        }
    }
    Ok(line)
}

fn call_line(bench: &mut Bench, line: &str, kinds: Kinds, known: Known) -> Result<(), AllocError> {
    let one = answer(reader::read_line(kinds, line.as_bytes())).map(|frame| frame.told());
    let two = read_line(bench.heap, line.as_bytes(), known);
    bench.tally.answer(&line, &one, &two)
}

pub fn lines(bench: &mut Bench, cases: u64) -> Result<(), No> {
    for _ in 0..cases {
        bench.tally.case();
        let bytes = frame_bytes(bench)?;
        let line = spelled(bench, bytes.as_slice())?;
        call_line(bench, line.as_str(), Kinds::Net, Known::Building)?;
        call_line(bench, line.as_str(), Kinds::Program, Known::All)?;
    }
    call_line(bench, "", Kinds::Program, Known::All)?;
    Ok(())
}
