ghost use Rattle.std.specs.Prelude.{◌≡◌};
ghost use Rattle.sets.specs.Members.{some_of};

use crate::order::Ordered;

// Whether `wanted` is among the items, in whatever order they stand.
pub fn contains<T: Ordered>(items: &[T], wanted: T) -> bool
    ensures { result ≡ some_of (λ y. T.Ordered.same y wanted) items.now }
{
    items.contains(&wanted)
}
