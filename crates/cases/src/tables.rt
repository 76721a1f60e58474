use crate::worked::{accept, board_table, map};
use model::faults::Fault;
use std::test::Fail;

#[test]
fn a_ring_of_overlays_is_refused(rt: HostRuntime) -> Result<(), Fail> {
    let mut board = board_table()?;
    assert_eq!(rt;
        board.over(1, 0),
        Err(Fault::WalkTooLong {
            node: 0,
            address: 0,
        })
    );
    assert_eq!(rt; board.over(1, 34), Err(Fault::DestinationOutOfRange));
    assert_eq!(rt; board.over(32, 34), Err(Fault::NodeOutOfRange));
    assert_eq!(rt; board.over(0, 33), Ok(()));
    assert_eq!(rt; board.over(1, 0), Ok(()));
    Ok(())
}

#[test]
fn the_same_block_is_refused(rt: HostRuntime) -> Result<(), Fail> {
    let mut board = board_table()?;
    assert_eq!(rt;
        board.accept(accept(1, 0x8000, 0x8fff)),
        Err(Fault::AlreadyThere)
    );
    assert_eq!(rt;
        board.drop_accept(accept(1, 0x8000, 0x8ffe)),
        Err(Fault::NotThere)
    );
    assert_eq!(rt; board.drop_accept(accept(1, 0x8000, 0x8fff)), Ok(()));
    Ok(())
}

#[test]
fn a_target_ends_at_the_last_address(rt: HostRuntime) -> Result<(), Fail> {
    let mut board = board_table()?;
    assert_eq!(rt;
        board.map(map(0, u64::MAX - 1, u64::MAX, 1, u64::MAX)),
        Err(Fault::TargetPastTop)
    );
    assert_eq!(rt; board.map(map(0, u64::MAX, u64::MAX, 1, u64::MAX)), Ok(()));
    Ok(())
}

#[test]
fn sixty_four_names_are_the_most(rt: HostRuntime) -> Result<(), Fail> {
    let mut short = board_table()?;
    assert_eq!(rt; short.map(map(3, 0, 0x3e, 3, 1)), Ok(()));
    assert!(rt; short.walk(3, 0).is_ok());
    let mut long = board_table()?;
    assert_eq!(rt;
        long.map(map(3, 0, 0x3f, 3, 1)),
        Err(Fault::WalkTooLong {
            node: 3,
            address: 0,
        })
    );
    Ok(())
}

#[test]
fn a_drop_can_uncover_a_ring(rt: HostRuntime) -> Result<(), Fail> {
    let mut board = board_table()?;
    assert_eq!(rt; board.accept(accept(5, 0, u64::MAX)), Ok(()));
    assert_eq!(rt; board.over(4, 5), Ok(()));
    assert_eq!(rt; board.over(5, 4), Ok(()));
    assert_eq!(rt;
        board.drop_accept(accept(5, 0, u64::MAX)),
        Err(Fault::WalkTooLong {
            node: 4,
            address: 0,
        })
    );
    Ok(())
}
