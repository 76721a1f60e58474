ghost use Rattle.std.specs.Prelude.{◌≡◌};
ghost use Rattle.std.proofs.Props.{props};
ghost use Rattle.blocks.specs.Shape.{kept};
ghost use Rattle.quicksearch.specs.Remembered.{Reliable};

use crate::memo::{AGENDAS, BOUNDS, Memo, NO_TARGET, PassedAgenda, Range, RangeBound};
use blocks::stored::Blocks;
use lists::ArrayVec;

// The search of a net, with what it has found out of the net's walks.
// Behind `&mut self` the net could be exchanged, so each method says that it is not: no fact of one value can.
#[derive(Drop)]
pub(crate) struct Search<'a> {
    pub net: &'a Blocks,
    pub memo: Memo,
    ghost reliable: { Reliable (kept net.now) memo } by { Prim.hlevel props },
}

impl<'a> Search<'a> {
    // Nothing is remembered yet: a bound that is not known says nothing, and an agenda without spots meets no name.
    pub fn new(blocks: &'a Blocks) -> Search<'a>
        ensures { result.net.now ≡ blocks.now }
    {
        let none = Range { low: 0, extent: 0 };
        let bound = RangeBound {
            range: none,
            node: 0,
            most: None,
        };
        let agenda = PassedAgenda {
            targets: ArrayVec::new(NO_TARGET),
            starts: none,
            budget: 0,
        };
        Search {
            net: blocks,
            memo: Memo {
                bounds: [bound; BOUNDS],
                agendas: [agenda; AGENDAS],
            },
        }
    }
}
