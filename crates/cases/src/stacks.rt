use crate::worked::{board, map, name, record};
use flatten::compare::compare;
use flatten::flat::flatten;
use layers::renaming::Renaming;
use layers::window::Window;
use model::faults::Fault;
use model::names::Name;
use model::records::Record;
use nets::net::Net;
use space::Space;
use space::flat::FlatTable;
use std::test::Fail;

// What records hold before a call.
const BLANK: Record = Record {
    lo: 7,
    hi: 7,
    component: 7,
    base: 7,
};

#[test]
fn a_board_flattens_to_four_records(rt: HostRuntime) -> Result<(), Fail> {
    let board = board(0x1000)?;
    let mut scratch = [Name::default(); 2];
    let mut table = [BLANK; 5];
    assert_eq!(rt; flatten(&board, &mut scratch, &mut table), Ok(4));
    assert_eq!(rt; table[2], record(0x4100, 0x4fff, 900, 0x100));
    assert_eq!(rt; table[3], record(0x8000, 0x8fff, 65, 0x8000));
    assert_eq!(rt; table[4], BLANK);
    assert_eq!(rt; scratch[0], name(0, 0));
    let mut short = [BLANK; 3];
    assert_eq!(rt;
        flatten(&board, &mut scratch, &mut short),
        Err(Fault::BufferShort)
    );
    assert_eq!(rt; short[0], BLANK);
    let mut one = [Name::default(); 1];
    assert_eq!(rt;
        flatten(&board, &mut one, &mut table),
        Err(Fault::ScratchShort)
    );
    Ok(())
}

#[test]
fn a_smaller_bank_differs_first_at_its_end(rt: HostRuntime) -> Result<(), Fail> {
    let board_whole = board(0x1000)?;
    let board_short = board(0xfff)?;
    let mut scratch = [Name::default(); 2];
    let mut other = [Name::default(); 2];
    assert_eq!(rt;
        compare(&board_whole, &board_short, &mut scratch, &mut other),
        Ok(Some(0x4fff))
    );
    assert_eq!(rt;
        compare(&board_whole, &board_whole, &mut scratch, &mut other),
        Ok(None)
    );
    let mut one = [Name::default(); 1];
    assert_eq!(rt;
        compare(&board_whole, &board_short, &mut scratch, &mut one),
        Err(Fault::SecondScratchShort)
    );
    Ok(())
}

#[test]
fn a_stack_of_all_layers_decodes(rt: HostRuntime) -> Result<(), Fail> {
    let rows = [record(0x100, 0x1ff, 5, 0)];
    let mut table = FlatTable::new();
    assert_eq!(rt; table.fill(&rows), Ok(()));
    decodes_through_all_layers(table)
}

// For a helper that is generic over the bottom: it takes no runtime, and so cannot assert.
fn check_eq<T: PartialEq + Drop>(found: T, expected: T) -> Result<(), Fail> {
    if found == expected {
        Ok(())
    } else {
        Err(Fail::new("a stack of all layers gives something else"))
    }
}

// A net over a renaming over a window over a net over the bottom, which has component 5 at 100 to 1ff.
fn decodes_through_all_layers<B: Space + Drop>(bottom: B) -> Result<(), Fail> {
    let mut lower = Net::new(1, bottom);
    check_eq(lower.over(0, 32), Ok(()))?;
    let Ok(window) = Window::new(0x10, 0x2f, 0x1f0, lower) else {
        return Err(Fail::new("the window is refused"));
    };
    let mut renaming = Renaming::new(window);
    check_eq(renaming.pair(5, 6), Ok(()))?;
    check_eq(renaming.pair(5, 7), Err(Fault::AlreadyThere))?;
    let mut stack = Net::new(1, renaming);
    check_eq(stack.map(map(0, 0, 0xff, 32, 0)), Ok(()))?;
    let mut slots = [Name::default(); 2];
    check_eq(stack.look(0x1f, &mut slots), Ok((1, 0x1f)))?;
    check_eq(slots[0], name(6, 0xff))?;
    check_eq(stack.look(0x20, &mut slots), Ok((0, 0x2f)))?;
    let mut records = [BLANK; 2];
    check_eq(flatten(&stack, &mut slots, &mut records), Ok(1))?;
    check_eq(records[0], record(0x10, 0x1f, 6, 0xf0))
}
