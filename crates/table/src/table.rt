ghost use Rattle.std.specs.Prelude.{◌≡◌, true};
ghost use Rattle.model.specs.Walks.{bounded as bound};
ghost use Rattle.blocks.specs.Shape.{kept};

use blocks::stored::Blocks;

// What a net keeps, where every walk meets at most 64 names.
#[derive(Clone, Copy)]
pub struct Table {
    pub(crate) blocks: Blocks,
    ghost bounded: { bound (kept blocks) ≡ true },
}
