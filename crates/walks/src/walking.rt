ghost use Rattle.std.specs.Prelude.{◌<◌, ◌≤◌, [], ◌∷◌};
ghost use Rattle.model.specs.Nets.{node as at_node};
ghost use Rattle.blocks.specs.Shape.{kept};
ghost use Rattle.walks.specs.Steps.{rest};
ghost use Rattle.walks.specs.Noted.{WalkAnswer};
ghost use Rattle.walks.specs.Going.{WentOn};

use crate::nodes::{accepts, next_step, reach_above};
use crate::notes::{Note, Notes, Walk};
use blocks::checks::check_node;
use blocks::destination::Destination;
use blocks::stored::Blocks;
use lists::ArrayVec;
use model::faults::Fault;
use model::names::Name;

impl Walk {
    // Meets an address at a node and walks its steps. None where that is more names than it may meet. Who starts the walk knows how to refuse that.
    // The net, node and address are handed on apart: the last two change with every call, and who held the first would have to promise that it stays.
    #[cycle(meet_steps)]
    fn meet(&mut self, blocks: &Blocks, node: u8, address: u64) -> Option<()>
        requires { node < 32 }
        ensures went { WentOn (kept blocks.now) (at_node node address ∷ []) self.old self.new result }
        ensures fewer { self.new.left ≤ self.old.left }
    {
        self.left = self.left.checked_sub(1)?;
        if accepts(blocks, node, address) {
            let component = 32 * u32::from(blocks.group) + u32::from(node);
            let own = Note::Own(Name { component, address });
            self.notes.items.push(own).ok()?;
        }
        self.notes.span = self.notes.span.min(reach_above(blocks, node, address));
        self.steps(blocks, node, address, 0)
    }

    // Walks the steps of an address at a node, from the map block at `from` on; the overlay counts as the step after the last.
    #[cycle(meet_steps)]
    fn steps(&mut self, blocks: &Blocks, node: u8, address: u64, from: usize) -> Option<()>
        ensures went { WentOn (kept blocks.now) (rest (kept blocks.now) node address from) self.old self.new result }
        ensures fewer { self.new.left ≤ self.old.left }
    {
        let Some(step) = next_step(blocks, node, address, from) else {
            return Some(());
        };
        match step.destination {
            Destination::Below => {
                self.left = self.left.checked_sub(1)?;
                self.notes.items.push(Note::Arrival(step.address)).ok()?;
                self.steps(blocks, node, address, step.next)
            }
            Destination::Node(to) => {
                self.meet(blocks, to, step.address)?;
                self.steps(blocks, node, address, step.next)
            }
        }
    }
}

// The walk from an address at a node, with 64 names allowed.
pub fn walk_from(blocks: &Blocks, node: u8, address: u64) -> Result<Notes, Fault>
    ensures { WalkAnswer (kept blocks.now) node address result }
{
    check_node(node)?;
    let mut walk = Walk {
        notes: Notes {
            items: ArrayVec::new(Note::Arrival(0)),
            span: u64::MAX - address,
        },
        left: 64,
    };
    walk.meet(blocks, node, address)
        .ok_or(Fault::WalkTooLong { node, address })?;
    Ok(walk.notes)
}
