ghost use Rattle.std.specs.Prelude.{◌≡◌, ◌+◌, ◌^◌, ◌<◌, ◌≤◌, [], ◌∷◌, ◌++◌, length, is_ok, if◌then◌else◌, string_bytes, string_len, string_capacity, OnOk};
ghost use Rattle.text.specs.Rows.{width, space_at, fault_at, checked, row_read, address_read, number_at, row_text, name_text, names_text, found_text};

use crate::digit::digit;
use crate::number::{append_char, append_number, read_number};
use model::names::Name;
use model::records::Record;
use std::alloc::AllocError;
use std::fmt;

// Why a line of a table or of addresses is refused; columns count from 1.
#[derive(Clone, Copy, PartialEq, Eq, Debug)]
pub enum RowFault {
    Length { found: usize },
    NotADigit { column: usize },
    NotASpace { column: usize },
}

impl fmt::Display for RowFault {
    fn fmt<W: fmt::Write>(&self, f: &mut fmt::Formatter<W>) -> fmt::Result {
        match *self {
            RowFault::Length { found } => write!(
                f,
                "the line has {found} characters, which is the wrong length"
            ),
            RowFault::NotADigit { column } => write!(
                f,
                "column {column} is no lower-case hexadecimal digit"
            ),
            RowFault::NotASpace { column } => write!(f, "column {column} is no space"),
        }
    }
}

// What a line is to hold.
#[derive(Clone, Copy)]
enum Layout {
    Row,
    Address,
}

impl Layout {
    // How many characters a line has.
    fn line_len(self) -> usize
        ensures { result ≡ width self }
    {
        match self {
            Layout::Row => 59,
            Layout::Address => 16,
        }
    }

    // Whether the column, from 0, holds a space; the others hold digits.
    fn is_space(self, index: usize) -> bool
        ensures { result ≡ space_at self index }
    {
        match self {
            Layout::Row => matches!(index, 16 | 33 | 42),
            Layout::Address => false,
        }
    }

    fn check_column(self, index: usize, byte: u8) -> Result<(), RowFault>
        requires { index < 59 }
        ensures { result ≡ fault_at self index byte }
    {
        let column = index + 1;
        if self.is_space(index) {
            if byte != b' ' {
                return Err(RowFault::NotASpace { column });
            }
        } else {
            digit(byte as char).ok_or(RowFault::NotADigit { column })?;
        }
        Ok(())
    }

    // The first fault of a line, if any.
    #[tactic(auto, unfolding(crate::specs::Rows::faults_from))]
    fn check_line(self, line: &[u8]) -> Result<(), RowFault>
        ensures { result ≡ checked self line.now }
    {
        if line.len() != self.line_len() {
            return Err(RowFault::Length { found: line.len() });
        }
        // A `for`: what a column asks of its place a closure would ask of the whole line.
        for (index, byte) in line.iter().enumerate() {
            self.check_column(index, *byte)?;
        }
        Ok(())
    }
}

// The number in so many columns from one on, which hold digits by now.
fn field(line: &[u8], from: usize, count: usize) -> u64
    requires { from + count ≤ length line.now }
    ensures value { result ≡ number_at line.now from count }
    ensures bound { result < 16 ^ count }
{
    read_number(&line[from..from + count]).unwrap_or(0)
}

// The record that a line of a table holds.
pub fn read_row(line: &[u8]) -> Result<Record, RowFault>
    ensures { result ≡ row_read line.now }
{
    Layout::Row.check_line(line)?;
    let lo = field(line, 0, 16);
    let hi = field(line, 17, 16);
    let component = field(line, 34, 8) as u32;
    let base = field(line, 43, 16);
    Ok(Record {
        lo,
        hi,
        component,
        base,
    })
}

// The address that a line of 16 digits holds.
pub fn read_address(line: &[u8]) -> Result<u64, RowFault>
    ensures { result ≡ address_read line.now }
{
    Layout::Address.check_line(line)?;
    Ok(field(line, 0, 16))
}

// Appends a record as a line of a table, with no line feed; without memory nothing changes.
// Not one with push_name: the fields differ, and a list of them would print no plainer.
pub fn push_row(out: &mut String, row: Record) -> Result<(), AllocError>
    ensures { string_bytes out.new ≡ (if is_ok result then string_bytes out.old ++ row_text row else string_bytes out.old) }
{
    out.reserve(59)?;
    append_number(out, row.lo, 16);
    append_char(out, ' ');
    append_number(out, row.hi, 16);
    append_char(out, ' ');
    append_number(out, u64::from(row.component), 8);
    append_char(out, ' ');
    append_number(out, row.base, 16);
    Ok(())
}

// Appends a component and an address at it; without memory nothing changes.
pub fn push_name(out: &mut String, name: Name) -> Result<(), AllocError>
    ensures { string_bytes out.new ≡ (if is_ok result then string_bytes out.old ++ name_text name else string_bytes out.old) }
{
    out.reserve(25)?;
    append_number(out, u64::from(name.component), 8);
    append_char(out, ' ');
    append_number(out, name.address, 16);
    Ok(())
}

// Appends names one after another, a space before each.
pub fn push_names(out: &mut String, names: &[Name]) -> Result<(), AllocError>
    ensures { OnOk result (string_bytes out.new ≡ string_bytes out.old ++ names_text names.now) }
{
    // A `for`: of what a closure changes a proof would know nothing.
    for name in names {
        out.push_str(" ")?;
        push_name(out, *name)?;
    }
    Ok(())
}

// Appends the names found, or that there are none.
pub fn push_found(line: &mut String, names: &[Name]) -> Result<(), AllocError>
    ensures { OnOk result (string_bytes line.new ≡ string_bytes line.old ++ found_text names.now) }
{
    if names.is_empty() {
        return line.push_str(" none");
    }
    line.push_str(" =")?;
    push_names(line, names)
}
