ghost use Rattle.std.specs.Prelude.{◌≡◌};
ghost use Rattle.model.specs.Nets.{fresh};
ghost use Rattle.blocks.specs.Shape.{kept};
ghost use Rattle.walks.specs.Noted.{WalkAnswer};

use crate::table::Table;
use blocks::stored::Blocks;
use model::faults::Fault;
use walks::notes::Notes;
use walks::walking::walk_from;

impl Table {
    // No blocks, no overlays, and the first node as the entry.
    pub fn new(group: u16) -> Table
        ensures { kept result.blocks ≡ fresh group }
    {
        Table {
            blocks: Blocks::new(group),
        }
    }

    pub fn blocks(&self) -> &Blocks
        ensures { result.now ≡ self.now.blocks }
    {
        &self.blocks
    }

    // The walk from an address at a node: a table grants it from each of its names.
    pub fn walk(&self, node: u8, address: u64) -> Result<Notes, Fault>
        ensures { WalkAnswer (kept self.now.blocks) node address result }
    {
        walk_from(&self.blocks, node, address)
    }

    // The node where walks from outside start.
    pub fn entry(&self) -> u8
        ensures { result ≡ (kept self.now.blocks).entry }
    {
        self.blocks.entry
    }
}
