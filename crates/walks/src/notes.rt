ghost use Rattle.std.specs.Prelude.{◌+◌, ◌≤◌, length};
ghost use Rattle.lists.specs.Held.{held};

use lists::ArrayVec;
use model::names::Name;

// What a walk notes: a name that a node of the net accepts, or an address that arrives in the space below.
#[derive(Clone, Copy)]
pub enum Note {
    Own(Name),
    Arrival(u64),
}

// What a walk noted, in order, and how far up the same walk goes.
#[derive(Clone, Copy)]
pub struct Notes {
    pub items: ArrayVec<Note, 64>,
    pub span: u64,
}

// A walk under way: what it has noted, and how many names it may still meet.
#[derive(Clone, Copy)]
pub(crate) struct Walk {
    pub notes: Notes,
    pub left: usize,
    ghost room: { length (held notes.items) + left ≤ 64 },
}
