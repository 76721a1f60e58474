use crate::worked::{OLD, bank, board, name};
use model::faults::Fault;
use space::Space;
use std::test::Fail;

#[test]
fn a_board_gives_its_lists(rt: HostRuntime) -> Result<(), Fail> {
    let board = board(0x1000)?;
    let mut slots = [OLD; 3];
    assert_eq!(rt; board.look(0x8010, &mut slots), Ok((1, 0x8fff)));
    assert_eq!(rt; slots[0], name(65, 0x8010));
    assert_eq!(rt; board.look(0x4010, &mut slots), Ok((2, 0x40ff)));
    assert_eq!(rt; slots[0], name(900, 0x10));
    assert_eq!(rt; slots[1], name(65, 0x8010));
    assert_eq!(rt; slots[2], OLD);
    assert_eq!(rt; board.look(0x4100, &mut slots), Ok((1, 0x4fff)));
    assert_eq!(rt; slots[0], name(900, 0x100));
    assert_eq!(rt; board.look(0x5000, &mut slots), Ok((0, 0x7fff)));
    Ok(())
}

#[test]
fn a_short_buffer_is_zeroed(rt: HostRuntime) -> Result<(), Fail> {
    let board = board(0x1000)?;
    let mut slots = [OLD; 1];
    assert_eq!(rt; board.look(0x4010, &mut slots), Err(Fault::BufferShort));
    assert_eq!(rt; slots[0], name(0, 0));
    slots[0] = OLD;
    assert_eq!(rt;
        board.resolve(32, 0x4010, &mut slots),
        Err(Fault::NodeOutOfRange)
    );
    assert_eq!(rt; slots[0], OLD);
    assert_eq!(rt; board.resolve(1, 0x8010, &mut slots), Ok((1, 0x8fff)));
    assert_eq!(rt; slots[0], name(65, 0x8010));
    Ok(())
}

#[test]
fn what_lies_below_is_exchanged(rt: HostRuntime) -> Result<(), Fail> {
    let mut board = board(0x1000)?;
    assert!(rt; board.meets(0x4010, name(900, 0x10)));
    assert!(rt; board.meets(0x4010, name(65, 0x8010)));
    let old = board.plug(bank(901, 0x10));
    assert_eq!(rt; old.component, 900);
    assert!(rt; !board.meets(0x4010, name(900, 0x10)));
    assert!(rt; !board.meets(0x4010, name(901, 0x10)));
    assert!(rt; board.meets(0x400f, name(901, 0xf)));
    Ok(())
}
