ghost use Rattle.std.specs.Prelude.{◌≡◌, ◌≤◌, length, take};
ghost use Rattle.model.specs.Nets.{steps};
ghost use Rattle.blocks.specs.Shape.{kept};
ghost use Rattle.quicksearch.specs.Agendas.{Laid};

use crate::memo::Target;
use blocks::stored::Blocks;
use walks::nodes::next_step;

// Puts the steps from an address at a node into the queue, from the place `tail` on. Answers the place after the last, or None where the queue is too short.
pub(crate) fn add_steps(
    blocks: &Blocks,
    node: u8,
    address: u64,
    start: u64,
    queue: &mut [Target],
    tail: usize,
) -> Option<usize>
    requires room { tail ≤ length queue.old }
    ensures kept { take tail queue.new ≡ take tail queue.old }
    ensures laid { Laid (steps (kept blocks.now) node address) start tail queue.new result }
{
    let mut end = tail;
    let mut from = 0;
    while let Some(step) = next_step(blocks, node, address, from) {
        if end >= queue.len() {
            return None;
        }
        // By index: what is written through `get_mut` a proof would not know afterwards.
        queue[end] = Target {
            offset: step.address.wrapping_sub(start),
            destination: step.destination,
        };
        end += 1;
        from = step.next;
    }
    Some(end)
}
