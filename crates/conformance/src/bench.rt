// What a family of cases works with: the dice that make the cases, and the tally of what came of them.
use crate::dice::Dice;
use crate::tally::Tally;
use plain::stack::Stack;
use std::alloc::Global;

#[derive(Drop)]
pub struct Bench {
    pub heap: Global,
    pub tally: Tally,
    pub dice: Dice,
}

impl Bench {
    pub fn new(heap: Global) -> Bench {
        Bench {
            heap,
            tally: Tally::new(heap),
            dice: Dice::new(0x5eed),
        }
    }
}

// One stack in both implementations.
#[derive(Drop)]
pub struct Both<S> {
    pub first: S,
    pub second: Stack,
}
