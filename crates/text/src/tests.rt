use crate::digit::digit;
use crate::number::{push_number, read_number};
use crate::row::{RowFault, push_name, push_row, read_address, read_row};
use model::names::Name;
use model::records::Record;
use std::test::Fail;

#[test]
fn numbers_are_read(rt: HostRuntime) {
    assert_eq!(rt; digit('f'), Some(15));
    assert_eq!(rt; digit('F'), None);
    assert_eq!(rt; read_number(b"0"), Some(0));
    assert_eq!(rt; read_number(b"ffffffffffffffff"), Some(u64::MAX));
    assert_eq!(rt; read_number(b"1f"), Some(31));
    assert_eq!(rt; read_number(b"1F"), None);
    assert_eq!(rt; read_number(b""), None);
    assert_eq!(rt; read_number(b"00000000000000000"), None);
}

#[test]
fn numbers_are_written(rt: HostRuntime) -> Result<(), Fail> {
    let mut line = String::new(rt.alloc());
    push_number(&mut line, 0x1f, 1)?;
    push_number(&mut line, u64::MAX, 17)?;
    assert_eq!(rt; line.as_str(), "f0ffffffffffffffff");
    Ok(())
}

#[test]
fn a_row_is_read_and_written(rt: HostRuntime) -> Result<(), Fail> {
    let text = "0000000000000010 00000000000000ff 0000002a ffffffffffffff00";
    let row = Record {
        lo: 0x10,
        hi: 0xff,
        component: 42,
        base: 0xffff_ffff_ffff_ff00,
    };
    assert_eq!(rt; read_row(text.as_bytes()), Ok(row));
    let mut line = String::new(rt.alloc());
    push_row(&mut line, row)?;
    assert_eq!(rt; line.as_str(), text);
    let mut told = String::new(rt.alloc());
    push_name(
        &mut told,
        Name {
            component: 42,
            address: 0x10,
        },
    )?;
    assert_eq!(rt; told.as_str(), "0000002a 0000000000000010");
    Ok(())
}

#[test]
fn a_damaged_row_is_told_by_column(rt: HostRuntime) {
    assert_eq!(rt;
        read_row(b"10 ff 2a 00"),
        Err(RowFault::Length { found: 11 })
    );
    assert_eq!(rt;
        read_row(b"000000000000001A 00000000000000ff 0000002a ffffffffffffff00"),
        Err(RowFault::NotADigit { column: 16 })
    );
    assert_eq!(rt;
        read_row(b"0000000000000010_00000000000000ff 0000002a ffffffffffffff00"),
        Err(RowFault::NotASpace { column: 17 })
    );
    assert_eq!(rt;
        read_row(b"0000000000000010 00000000000000ff 0000002a ffffffffffffff0 "),
        Err(RowFault::NotADigit { column: 59 })
    );
    assert_eq!(rt; read_address(b"00000000000000ff"), Ok(255));
    assert_eq!(rt;
        read_address(b"0x000000000000ff"),
        Err(RowFault::NotADigit { column: 2 })
    );
}
