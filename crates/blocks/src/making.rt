ghost use Rattle.std.specs.Prelude.{◌≡◌};
ghost use Rattle.model.specs.Nets.{fresh};
ghost use Rattle.blocks.specs.Shape.{kept, accept_block, map_block};
ghost use Rattle.blocks.specs.Outcomes.{Wrapped, of_accept, of_map};

use crate::checks::{check_destination, check_node};
use crate::stored::{Accepted, Blocks, Mapped};
use lists::ArrayVec;
use model::blocks::{AcceptBlock, MapBlock};
use model::faults::Fault;
use model::ranges::{check_range, check_target};

impl TryFrom<AcceptBlock> for Accepted {
    type Error = Fault;

    ghost try_from_gives = { λ block r. Wrapped accept_block (of_accept block) block r };

    fn try_from(block: AcceptBlock) -> Result<Accepted, Fault> {
        check_node(block.node)?;
        check_range(block.lo, block.hi)?;
        Ok(Accepted { block })
    }
}

impl TryFrom<MapBlock> for Mapped {
    type Error = Fault;

    ghost try_from_gives = { λ block r. Wrapped map_block (of_map block) block r };

    fn try_from(block: MapBlock) -> Result<Mapped, Fault> {
        check_node(block.node)?;
        check_destination(block.destination, 32)?;
        check_target(block.lo, block.hi, block.base)?;
        Ok(Mapped { block })
    }
}

impl Blocks {
    // No blocks, no overlays, and the first node as the entry.
    pub fn new(group: u16) -> Blocks
        ensures { kept result ≡ fresh group }
    {
        // By hand: beside a ghost field `Default` is not derived.
        let accepted = Accepted {
            block: AcceptBlock::default(),
        };
        let mapped = Mapped {
            block: MapBlock::default(),
        };
        Blocks {
            group,
            accepts: ArrayVec::new(accepted),
            maps: ArrayVec::new(mapped),
            overlays: [None; 32],
            entry: 0,
        }
    }
}
