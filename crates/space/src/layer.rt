ghost use Rattle.std.specs.Prelude.{◌≡◌};
ghost use Rattle.model.specs.Edits.{Edit as Change, ended, edited};

use crate::Space;
use model::faults::Fault;

// A space that takes edits, each of which answers and leaves what the reference model does.
pub trait Layer: Space {
    type Edit;

    // what an edit is to the reference model
    ghost meaning: { Self.Edit → Change };

    // Makes an edit, or refuses it and changes nothing.
    fn edit(&mut self, e: Self::Edit) -> Result<(), Fault>
        ensures answer { ended result ≡ (edited (Self.Space.means self.old).shape (meaning e)).0 }
        ensures kept { (Self.Space.means self.new).shape ≡ (edited (Self.Space.means self.old).shape (meaning e)).1 };
}
