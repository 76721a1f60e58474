ghost use Rattle.std.specs.Prelude.{◌≡◌, true};
ghost use Rattle.model.specs.Nets.{fresh};
ghost use Rattle.model.specs.Faults.{told};
ghost use Rattle.blocks.specs.Shape.{kept};
ghost use Rattle.table.specs.Settling.{Settles};
ghost use Rattle.loading.specs.Texts.{lines_of, unended_lem};
ghost use Rattle.loading.specs.Loads.{builds, edit_of, reading_part_lem, line_loaded, loaded, LineAnswer, LoadAnswer};

use crate::fault::{LoadFault, Part};
use frames::frame::{Frame, Kinds};
use frames::reader::read_line;
use model::faults::Fault;
use table::table::Table;

// The part that refuses to read a line: its digits are asked about first.
// No conversion: the part depends on who reports the fault.
fn reading_part(fault: Fault) -> Part
    ensures { result ≡ reading_part_lem (told fault) }
{
    match fault {
        Fault::NotADigit | Fault::OddDigits => Part::Text,
        _ => Part::Frame,
    }
}

// The edit that a frame tells. A net reads no other kinds.
fn apply(table: &mut Table, frame: Frame) -> Result<(), Fault>
    requires { builds frame ≡ true }
    ensures { Settles (kept table.old.blocks) (kept table.new.blocks) (edit_of frame) result }
{
    match frame {
        Frame::Accept(block) => table.accept(block),
        Frame::Map(block) => table.map(block),
        Frame::Over { node, destination } => table.over(node, destination),
        Frame::Enter { node } => table.enter(node),
        _ => unreachable!(),
    }
}

// One line, without its line feed, read and applied.
fn load_line(table: &mut Table, number: usize, line: &[u8]) -> Result<(), LoadFault>
    ensures { LineAnswer (line_loaded number (kept table.old.blocks) line.now) (kept table.new.blocks) result }
{
    let frame = read_line(Kinds::Net, line).map_err(|fault| LoadFault {
        line: number,
        part: reading_part(fault),
        fault,
    })?;
    apply(table, frame).map_err(|fault| LoadFault {
        line: number,
        part: Part::Net,
        fault,
    })?;
    Ok(())
}

// A line without its line feed, which the last one may lack.
fn unended(line: &[u8]) -> &[u8]
    ensures { result.now ≡ unended_lem line.now }
{
    match line {
        [line @ .., b'\n'] => line,
        line => line,
    }
}

// The table that a text builds, if every line is granted, or the first line that is not.
pub fn load(group: u16, text: &[u8]) -> Result<Table, LoadFault>
    ensures { LoadAnswer (loaded 1 (fresh group) (lines_of text.now)) result }
{
    let mut table = Table::new(group);
    for (index, line) in text.split_inclusive(|byte| *byte == b'\n').enumerate() {
        load_line(&mut table, index + 1, unended(line))?;
    }
    Ok(table)
}
