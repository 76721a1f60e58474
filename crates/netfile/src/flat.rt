ghost use Rattle.std.specs.Prelude.{◌≡◌, ◌++◌, IfOk, string_bytes, OnOk};
ghost use Rattle.model.specs.Model.{lists};
ghost use Rattle.netfile.specs.Rows.{rows_text, FlatText};
ghost use Rattle.netfile.specs.declared.flat.FlatError.TheVariants.{Refused};

use flatten::flat::flatten;
use model::faults::Fault;
use model::names::Name;
use model::records::Record;
use space::Space;
use std::alloc::{AllocError, AllocFailed, Global};
use text::row::push_row;

// The longest list of a net over an empty place: a walk meets at most 64 names.
pub const SLOTS: usize = 64;

// Why there is no flat table: no memory, or a refusal.
#[derive(Drop)]
pub enum FlatError {
    Memory,
    Refused(Fault),
}

impl From<AllocError> for FlatError {
    fn from(_error: AllocError) -> FlatError {
        FlatError::Memory
    }
}

impl<T: Drop> From<AllocFailed<T>> for FlatError {
    fn from(_refused: AllocFailed<T>) -> FlatError {
        FlatError::Memory
    }
}

impl From<Fault> for FlatError {
    ghost from_gives = { λ fault r. r ≡ Refused fault };

    fn from(fault: Fault) -> FlatError {
        FlatError::Refused(fault)
    }
}

// Appends the records, a row and a line feed each.
pub fn push_rows(out: &mut String, rows: &[Record]) -> Result<(), AllocError>
    ensures { OnOk result (string_bytes out.new ≡ string_bytes out.old ++ rows_text rows.now) }
{
    // A `for`: of what a closure changes a proof would know nothing.
    for row in rows {
        push_row(out, *row)?;
        out.push_str("\n")?;
    }
    Ok(())
}

// The rows of a space, where the table has room for them.
fn flat_text_within<S: Space>(
    heap: Global,
    space: &S,
    table: &mut [Record],
) -> Result<String, FlatError>
    ensures { IfOk result (λ text. FlatText (lists (S.Space.means space.now).shape) (string_bytes text)) }
{
    let mut scratch = [Name::default(); SLOTS];
    let count = flatten(space, &mut scratch, table)?;
    let mut lines = String::new(heap);
    push_rows(&mut lines, &table[0..count])?;
    Ok(lines)
}

// The rows of a space: where they do not fit, twice the room is tried.
pub fn flat_text<S: Space>(heap: Global, space: &S) -> Result<String, FlatError>
    ensures { IfOk result (λ text. FlatText (lists (S.Space.means space.now).shape) (string_bytes text)) }
{
    for doublings in 8..48u8 {
        let mut table = vec![in heap; Record::default(); 1 << doublings]?;
        match flat_text_within(heap, space, table.as_mut_slice()) {
            Err(FlatError::Refused(Fault::BufferShort)) => {}
            done => return done,
        }
    }
    Err(Fault::BufferShort.into())
}
