use crate::worked::{OLD, bank, name, record};
use model::faults::Fault;
use space::Space;
use space::flat::FlatTable;
use space::socket::Socket;

#[test]
fn a_bank_ends_before_its_size(rt: HostRuntime) {
    let bank = bank(900, 0x1000);
    let mut slots = [OLD; 2];
    assert_eq!(rt; bank.look(0xfff, &mut slots), Ok((1, 0xfff)));
    assert_eq!(rt; slots[0], name(900, 0xfff));
    assert_eq!(rt; slots[1], OLD);
    assert_eq!(rt; bank.look(0x1000, &mut slots), Ok((0, u64::MAX)));
    assert_eq!(rt; bank.look(5, &mut slots[0..0]), Err(Fault::BufferShort));
    assert!(rt; bank.meets(0, name(900, 0)));
    assert!(rt; !bank.meets(0, name(900, 1)));
}

#[test]
fn a_table_gives_its_records_in_order(rt: HostRuntime) {
    let rows = [
        record(0x10, 0x1f, 2, 0x100),
        record(0x18, u64::MAX, 1, 0x18),
        record(0x30, 0x30, 3, u64::MAX),
    ];
    let mut table = FlatTable::new();
    assert_eq!(rt; table.fill(&rows), Ok(()));
    let mut slots = [OLD; 3];
    assert_eq!(rt; table.look(0x18, &mut slots), Ok((2, 0x1f)));
    assert_eq!(rt; slots[0], name(2, 0x108));
    assert_eq!(rt; slots[1], name(1, 0x18));
    assert_eq!(rt; slots[2], OLD);
    assert_eq!(rt; table.look(0x20, &mut slots), Ok((1, 0x2f)));
    assert_eq!(rt; table.look(0x30, &mut slots), Ok((2, 0x30)));
    assert_eq!(rt; table.look(0x30, &mut slots[0..1]), Err(Fault::BufferShort));
    assert_eq!(rt; slots[0], name(0, 0));
    assert!(rt; table.meets(0x30, name(3, u64::MAX)));
    assert!(rt; !table.meets(0x31, name(3, 0)));
}

#[test]
fn a_refused_fill_changes_nothing(rt: HostRuntime) {
    let good = [record(0, 9, 1, 0)];
    let reversed = [record(0, 0, 2, 0), record(2, 1, 2, u64::MAX)];
    let past = [record(1, 2, 2, u64::MAX)];
    let mut table = FlatTable::new();
    assert_eq!(rt; table.fill(&good), Ok(()));
    assert_eq!(rt;
        table.fill(&reversed),
        Err(Fault::RecordReversed { place: 1 })
    );
    assert_eq!(rt; table.fill(&past), Err(Fault::RecordPastTop { place: 0 }));
    assert!(rt; table.meets(9, name(1, 9)));
}

#[test]
fn a_socket_is_empty(rt: HostRuntime) {
    let mut slots = [OLD; 1];
    assert_eq!(rt; Socket.look(0, &mut slots), Ok((0, u64::MAX)));
    assert_eq!(rt; slots[0], OLD);
    assert!(rt; !Socket.meets(0, name(0, 0)));
}
