// What the tests share: the worked board, and short forms of names, blocks and records.
use model::blocks::{AcceptBlock, MapBlock};
use model::faults::Fault;
use model::names::Name;
use model::records::Record;
use nets::net::Net;
use space::bank::Bank;
use table::table::Table;

// What slots hold before a call.
pub const OLD: Name = Name {
    component: 7,
    address: 7,
};

pub const fn name(component: u32, address: u64) -> Name {
    Name { component, address }
}

pub const fn bank(component: u32, size: u64) -> Bank {
    Bank { component, size }
}

pub const fn accept(node: u8, lo: u64, hi: u64) -> AcceptBlock {
    AcceptBlock { node, lo, hi }
}

pub const fn map(node: u8, lo: u64, hi: u64, destination: u8, base: u64) -> MapBlock {
    MapBlock {
        node,
        lo,
        hi,
        destination,
        base,
    }
}

pub const fn record(lo: u64, hi: u64, component: u32, base: u64) -> Record {
    Record {
        lo,
        hi,
        component,
        base,
    }
}

// The blocks of the worked board: node 1 accepts a page, node 0 sends another to 2, which sends it below, and its first 256 addresses to 1 too.
fn page() -> AcceptBlock {
    accept(1, 0x8000, 0x8fff)
}

fn maps() -> [MapBlock; 3] {
    [
        map(0, 0x4000, 0x4fff, 2, 0),
        map(2, 0, 0xfff, 32, 0),
        map(2, 0, 0xff, 1, 0x8000),
    ]
}

// The board over a bank: node 0 overlays 1 besides.
pub fn board(size: u64) -> Result<Net<Bank>, Fault> {
    let mut board = Net::new(2, bank(900, size));
    board.over(0, 1)?;
    board.accept(page())?;
    for block in maps() {
        board.map(block)?;
    }
    Ok(board)
}

// The board's table alone. A net and a table have no trait in common, and one for the two would be longer.
pub fn board_table() -> Result<Table, Fault> {
    let mut table = Table::new(2);
    table.over(0, 1)?;
    table.accept(page())?;
    for block in maps() {
        table.map(block)?;
    }
    Ok(table)
}
