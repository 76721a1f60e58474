#![tactic(auto)]

// Looks addresses up in a flat table: rows from standard input, an empty line, then one address a line.
mod answer;
mod input;

use answer::{names_line, read_sane_row};
use input::Lines;
use model::names::Name;
use model::records::Record;
use space::flat::FlatTable;
use text::row::read_address;

fn main(rt: HostRuntime) -> anyhow::Result<()> {
    let mut lines = Lines::new(&rt);
    let rows = read_rows(&rt, &mut lines)?;
    let mut table = FlatTable::new();
    if let Err(fault) = table.fill(rows.as_slice()) {
        println!(rt; "the table is refused with {fault}")?;
    }
    answer_addresses(&rt, &mut lines, &table, rows.len())
}

// The rows up to an empty line; one that is refused is told with its line, and left out.
fn read_rows(rt: &HostRuntime, lines: &mut Lines) -> anyhow::Result<Vec<Record>> {
    let mut rows = Vec::new(rt.alloc());
    for _ in 0..u64::MAX {
        let Some(number) = lines.read_line()? else {
            break;
        };
        if lines.line().is_empty() {
            break;
        }
        match read_sane_row(lines.line()) {
            Ok(row) => rows.push(row)?,
            Err(problem) => println!(rt; "line {number}: {problem}; the row is left out")?,
        }
    }
    Ok(rows)
}

// A line for each address; the slots hold the longest list that so many rows can give.
fn answer_addresses(
    rt: &HostRuntime,
    lines: &mut Lines,
    table: &FlatTable,
    rows: usize,
) -> anyhow::Result<()> {
    let mut slots = vec![in rt.alloc(); Name::default(); rows]?;
    for _ in 0..u64::MAX {
        let Some(number) = lines.read_line()? else {
            break;
        };
        match read_address(lines.line()) {
            Ok(address) => {
                let line = names_line(rt.alloc(), table, address, slots.as_mut_slice())?;
                println!(rt; "{line}")?;
            }
            Err(fault) => println!(rt; "line {number}: {fault}")?,
        }
    }
    Ok(())
}
