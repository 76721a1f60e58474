ghost use Rattle.std.specs.Prelude.{◌≡◌, ◌<◌};
ghost use Rattle.model.specs.Names.{top};
ghost use Rattle.model.specs.Walks.{least, overfull, first_overfull_lem};
ghost use Rattle.blocks.specs.Shape.{kept};
ghost use Rattle.blocks.specs.Found.{found};
ghost use Rattle.search.specs.Found.{found_address};

use blocks::stored::Blocks;
use walks::walking::walk_from;

// The first address of a node from which the walk meets more than 64 names. Within the span of a walk there is none, so the search jumps over it.
fn overfull_at(blocks: &Blocks, node: u8) -> Option<u64>
    requires { node < 32 }
    ensures { found_address result ≡ least (overfull (kept blocks.now) node) top }
{
    let mut address = 0;
    // The span of each walk tells how far to go, so no `for` counts the addresses.
    loop {
        let Ok(notes) = walk_from(blocks, node, address) else {
            return Some(address);
        };
        if notes.span >= u64::MAX - address {
            return None;
        }
        address += notes.span + 1;
    }
}

// The first name, by node, then address, whose walk meets more than 64 names.
pub fn first_overfull(blocks: &Blocks) -> Option<(u8, u64)>
    ensures { found result ≡ first_overfull_lem (kept blocks.now) 32 }
{
    // A `for`: of `find_map` over a range a proof learns too little.
    for node in 0..32u8 {
        if let Some(address) = overfull_at(blocks, node) {
            return Some((node, address));
        }
    }
    None
}
