// Sets of names, kept as lists in which a name may stand more than once.
ghost use Rattle.std.specs.Prelude.{◌≡◌, false, length, MatchOption};
ghost use Rattle.model.specs.Model.{lists};
ghost use Rattle.model.specs.Names.{holds};
ghost use Rattle.flatten.specs.Runs.{every, once};
ghost use Rattle.flatten.specs.Steps.{downs, ups};

use model::names::Name;
use sets::member::contains;
use space::Space;

// The names of a list, each once: those that do not stand again behind.
#[derive(Clone, Copy)]
pub(crate) struct EachOnce<'a> {
    left: &'a [Name],
}

impl<'a> EachOnce<'a> {
    pub(crate) fn of(names: &'a [Name]) -> EachOnce<'a>
        ensures { result.left.now ≡ names.now }
    {
        EachOnce { left: names }
    }
}

impl<'a> Iterator for EachOnce<'a> {
    ghost use Rattle.std.specs.Iterator.{YieldsFirst, item_count};

    type Item = Name;

    ghost next_gives = { YieldsFirst (λ s. once s.left.now) };

    ghost remaining = { item_count (λ s. once s.left.now) };

    fn next(&mut self) -> Option<Name> {
        'names: while let [name, rest @ ..] = self.left {
            self.left = rest;
            if !contains(rest, *name) {
                return Some(*name);
            }
        }
        None
    }
}

// How many names there are, each counted once.
pub(crate) fn distinct(names: &[Name]) -> usize
    ensures { result ≡ length (once names.now) }
{
    EachOnce::of(names).count()
}

// Whether the space has the name with its address moved; where it cannot be moved, there is no such name.
fn has_moved<S: Space>(space: &S, at: u64, name: Name, moved: Option<u64>) -> bool
    ensures { MatchOption moved (result ≡ false) (λ a. result ≡ holds (lists (S.Space.means space.now).shape at) (record { component = name.component; address = a })) }
{
    moved.is_some_and(|address| space.meets(at, Name { address, ..name }))
}

// This and the next one differ in the way that a name moves; with the move as a closure each would still be a function, since each has a definition of its own.

// Whether the space has each of the names, raised, at the address.
pub(crate) fn all_met<S: Space>(space: &S, at: u64, by: u64, names: &[Name]) -> bool
    ensures { result ≡ ups by (lists (S.Space.means space.now).shape at) names.now }
{
    names
        .iter()
        .all(|n| has_moved(space, at, *n, n.address.checked_add(by)))
}

// Whether the space has each of the names, lowered, at the address.
pub(crate) fn all_came<S: Space>(space: &S, at: u64, by: u64, names: &[Name]) -> bool
    ensures { result ≡ downs by (lists (S.Space.means space.now).shape at) names.now }
{
    names
        .iter()
        .all(|n| has_moved(space, at, *n, n.address.checked_sub(by)))
}

// Whether the space has each of the names at the address.
pub(crate) fn all_there<S: Space>(space: &S, at: u64, names: &[Name]) -> bool
    ensures { result ≡ every (holds (lists (S.Space.means space.now).shape at)) names.now }
{
    names.iter().all(|n| space.meets(at, *n))
}
