ghost use Rattle.std.specs.Prelude.{◌≡◌, ◌+◌, [], ◌∷◌, ◌++◌, length, take, drop, is_ok, if◌then◌else◌, nat_lt};
ghost use Rattle.lists.specs.Held.{held};

use crate::{ArrayVec, Full};

impl<T: Copy, const N: usize> ArrayVec<T, N> {
    // An empty list; the places are filled with `blank` for the time being.
    pub fn new(blank: T) -> ArrayVec<T, N>
        ensures { held result ≡ [] }
    {
        ArrayVec {
            items: [blank; N],
            len: 0,
        }
    }

    pub fn len(&self) -> usize
        ensures { result ≡ length (held self.now) }
    {
        self.len
    }

    pub fn as_slice(&self) -> &[T]
        ensures { result.now ≡ held self.now }
    {
        let all = &self.items[..];
        &all[0..self.len]
    }

    // Adds x at the end, unless no place is left.
    pub fn push(&mut self, x: T) -> Result<(), Full>
        ensures room { is_ok result ≡ nat_lt (length (held self.old)) N }
        ensures kept { held self.new ≡ (if is_ok result then held self.old ++ x ∷ [] else held self.old) }
    {
        if self.len >= N {
            return Err(Full);
        }
        self.items[self.len] = x;
        self.len += 1;
        Ok(())
    }

    // Takes out what stands at a place, and closes the gap; past the end nothing changes.
    pub fn remove(&mut self, at: usize)
        ensures { held self.new ≡ take at (held self.old) ++ drop (at + 1) (held self.old) }
    {
        let count = self.len;
        if at < count {
            self.items.copy_within(at + 1..count, at);
            self.len = count - 1;
        }
    }
}
