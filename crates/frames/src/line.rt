ghost use Rattle.std.specs.Prelude.{◌≡◌, true};
ghost use Rattle.frames.specs.Halves.{sane};

use crate::state::State;
use lists::ArrayVec;

// No frame is longer than a map frame, so of a line of any length the first 27 bytes are kept. Whether more came stands beside them: 27 bytes may be the whole line.
#[derive(Drop)]
pub struct LineReader {
    pub(crate) kept: ArrayVec<u8, 27>,
    pub(crate) more: bool,
    pub(crate) state: State,
    ghost ok: { sane state ≡ true },
}
