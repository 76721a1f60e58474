ghost use Rattle.std.specs.Prelude.{◌≡◌, [], ◌∷◌, ◌++◌, position as first};
ghost use Rattle.lists.specs.Held.{held};
ghost use Rattle.model.specs.Edits.{asked, without};
ghost use Rattle.blocks.specs.Outcomes.{Decided, to_add, to_drop};

use crate::alike::Alike;
use lists::ArrayVec;
use model::faults::Fault;

// Where the first that is like x stands.
pub fn position<T: Alike>(all: &[T], x: &T) -> Option<usize>
    ensures { result ≡ first (T.Alike.alike x.now) all.now }
{
    all.iter().position(|y| x.is_like(y))
}

// Adds x at the end, unless one like it is there or no place is left.
pub fn add<T: Alike, const N: usize>(list: &mut ArrayVec<T, N>, x: T) -> Result<(), Fault>
    ensures { Decided (asked (to_add (T.Alike.alike x) (held list.old) N)) (held list.old ++ x ∷ []) (held list.old) (held list.new) result }
{
    if position(list.as_slice(), &x).is_some() {
        return Err(Fault::AlreadyThere);
    }
    list.push(x).map_err(|_| Fault::TableFull)
}

// Takes out the one that is like x, and closes the gap.
pub fn take_out<T: Alike, const N: usize>(list: &mut ArrayVec<T, N>, x: T) -> Result<(), Fault>
    ensures { Decided (asked (to_drop (T.Alike.alike x) (held list.old))) (without (T.Alike.alike x) (held list.old)) (held list.old) (held list.new) result }
{
    let at = position(list.as_slice(), &x).ok_or(Fault::NotThere)?;
    list.remove(at);
    Ok(())
}
