ghost use Rattle.std.specs.Prelude.{◌≡◌, length, IfOk, string_bytes};
ghost use Rattle.model.specs.Model.{lists};
ghost use Rattle.tablelook.specs.Answers.{RowAnswer, look_text};
ghost use Rattle.tablelook.specs.declared.answer.RowProblem.TheVariants.{Text, Refused};

use model::faults::Fault;
use model::names::Name;
use model::records::Record;
use space::Space;
use space::flat::FlatTable;
use std::alloc::{AllocError, Global};
use std::fmt;
use text::number::push_number;
use text::row::{RowFault, push_found, read_row};

// Why a row is left out: its text is damaged, or no table takes its record.
#[derive(Clone, Copy)]
pub enum RowProblem {
    Text(RowFault),
    Refused(Fault),
}

impl From<RowFault> for RowProblem {
    ghost from_gives = { λ fault r. r ≡ Text fault };

    fn from(fault: RowFault) -> RowProblem {
        RowProblem::Text(fault)
    }
}

impl From<Fault> for RowProblem {
    ghost from_gives = { λ fault r. r ≡ Refused fault };

    fn from(fault: Fault) -> RowProblem {
        RowProblem::Refused(fault)
    }
}

impl fmt::Display for RowProblem {
    fn fmt<W: fmt::Write>(&self, f: &mut fmt::Formatter<W>) -> fmt::Result {
        match *self {
            RowProblem::Text(fault) => write!(f, "{fault}"),
            RowProblem::Refused(fault) => write!(f, "refused with {fault}"),
        }
    }
}

// The record of a row that a table takes.
pub fn read_sane_row(line: &[u8]) -> Result<Record, RowProblem>
    ensures { RowAnswer line.now result }
{
    let row = read_row(line)?;
    let alone = [row];
    let mut table = FlatTable::new();
    table.fill(&alone)?;
    Ok(row)
}

// The line that tells which names a space has at an address.
pub fn names_line<S: Space>(
    heap: Global,
    space: &S,
    address: u64,
    slots: &mut [Name],
) -> Result<String, AllocError>
    ensures { IfOk result (λ line. string_bytes line ≡ look_text (lists (S.Space.means space.now).shape address) (length slots.old) address) }
{
    let mut line = String::new(heap);
    push_number(&mut line, address, 16)?;
    match space.look(address, slots) {
        Ok((count, _)) => push_found(&mut line, &slots[0..count])?,
        // A look has this one refusal, and the line has its number.
        Err(_) => line.push_str(" - 09")?,
    }
    Ok(line)
}
