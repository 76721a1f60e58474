ghost use Rattle.std.specs.Prelude.{◌≡◌, ℕ, ◌+◌, ◌-◌, ◌^◌, ◌<◌, ◌≤◌, true, map as each, length, slice_index_or, None};
ghost use Rattle.lists.specs.Held.{held};
ghost use Rattle.model.specs.Edits.{same_accept, same_map};
ghost use Rattle.blocks.specs.Apart.{apart};
ghost use Rattle.blocks.specs.Destinations.{OverlayKnown};

use crate::destination::Destination;
use lists::ArrayVec;
use model::blocks::{AcceptBlock, MapBlock};

// An accept block that a net may keep.
#[derive(Clone, Copy)]
pub struct Accepted {
    pub block: AcceptBlock,
    ghost valid: { (block.node < 32) × (block.lo ≤ block.hi) × (block.hi < 2 ^ 64) },
}

// A map block that a net may keep.
#[derive(Clone, Copy)]
pub struct Mapped {
    pub block: MapBlock,
    ghost valid: { (block.node < 32) × (block.destination ≤ 32) × (block.lo ≤ block.hi) × (block.hi < 2 ^ 64) × (block.base + (block.hi - block.lo) < 2 ^ 64) },
}

// What a net keeps: of each kind no two blocks are the same. Nothing is said of its walks.
#[derive(Clone, Copy)]
pub struct Blocks {
    pub group: u16,
    pub accepts: ArrayVec<Accepted, 64>,
    pub maps: ArrayVec<Mapped, 128>,
    pub overlays: [Option<Destination>; 32],
    pub entry: u8,
    ghost valid: { (entry < 32) × ((k : ℕ) → OverlayKnown (slice_index_or overlays k None)) × (apart same_accept (each (λ x. x.block) (held accepts)) ≡ true) × (apart same_map (each (λ x. x.block) (held maps)) ≡ true) × (length overlays ≡ 32) },
}
