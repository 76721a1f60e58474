ghost use Rattle.std.specs.Prelude.{◌≡◌, ◌<◌, false, ◌++◌, length, take, drop, IfSome, IfNone, slice_index_or};
ghost use Rattle.sets.specs.Members.{some_of};
ghost use Rattle.sets.specs.Sets.{Rising, set_of, sorted, squeezed};

use crate::order::Ordered;

// Turns the slice, in place, into a set at its front: rising, each element once.
// Answers how many they are; behind them stands what the sorted slice has there. There is no heap: the caller's slice holds the set.
pub fn make_set<T: Ordered>(items: &mut [T]) -> usize
    ensures count { result ≡ length (set_of T.Ordered.rank T.Ordered.same items.old) }
    ensures held { items.new ≡ set_of T.Ordered.rank T.Ordered.same items.old ++ drop result (sorted T.Ordered.rank items.old) }
    ensures rises { Rising T.Ordered.rank (take result items.new) }
    ensures members { (x : T) → some_of (λ y. T.Ordered.same y x) (take result items.new) ≡ some_of (λ y. T.Ordered.same y x) items.old }
{
    items.sort_unstable();
    squeeze(items)
}

// Moves the first of each run of same neighbours to the front, in their order.
fn squeeze<T: Ordered>(items: &mut [T]) -> usize
    ensures count { result ≡ length (squeezed T.Ordered.same items.old) }
    ensures held { items.new ≡ squeezed T.Ordered.same items.old ++ drop result items.old }
{
    let count = items.len();
    if count == 0 {
        return 0;
    }
    let mut used = 1;
    // In place, reading at one index and writing at another: no iterator lends both.
    for i in 1..count {
        let next = items[i];
        let last = items[used - 1];
        if last != next {
            items[used] = next;
            used += 1;
        }
    }
    used
}

// Where `wanted` stands in a sorted set, by binary search.
pub fn find<T: Ordered>(items: &[T], wanted: T) -> Option<usize>
    ensures there { IfSome result (λ i. (i < length items.now) × (slice_index_or items.now i wanted ≡ wanted)) }
    ensures missing { Rising T.Ordered.rank items.now → IfNone result (some_of (λ y. T.Ordered.same y wanted) items.now ≡ false) }
{
    items.binary_search(&wanted).ok()
}
