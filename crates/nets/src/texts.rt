ghost use Rattle.std.specs.Prelude.{◌≡◌, ◌+◌, ◌*◌, length, Ok as Granted};
ghost use Rattle.model.specs.Nets.{fresh};
ghost use Rattle.loading.specs.Texts.{lines_of};
ghost use Rattle.loading.specs.Loads.{loaded};
ghost use Rattle.writing.specs.Texts.{text_of, overlays_set, Wrote};
ghost use Rattle.nets.specs.Shape.{inner};
ghost use Rattle.nets.specs.Loading.{LoadsInto};

use crate::net::Net;
use loading::fault::LoadFault;
use loading::load::load;
use model::faults::Fault;
use space::Space;
use writing::write::write;

// A net as text, one frame a line.
impl<B: Space> Net<B> {
    // Applies the lines to a fresh net of the same group over the same space, and keeps it only if all are granted.
    pub fn load(&mut self, text: &[u8]) -> Result<(), LoadFault>
        ensures table { LoadsInto (loaded 1 (fresh (inner self.old.table).keeps.group) (lines_of text.now)) (inner self.old.table).keeps (inner self.new.table).keeps result }
        ensures below { self.new.below ≡ self.old.below }
    {
        self.table = load(self.table.blocks().group, text)?;
        Ok(())
    }

    // Writes enter, accepts, maps, then overlays by node, and tells how many bytes that takes.
    // Whoever loads these bytes into a net of the same group has this net again.
    pub fn write(&self, out: &mut [u8]) -> Result<usize, Fault>
        ensures text { Wrote (text_of (inner self.now.table).keeps) out.old out.new result }
        ensures count { length (text_of (inner self.now.table).keeps) ≡ 5 + 37 * length (inner self.now.table).keeps.accepts + 55 * length (inner self.now.table).keeps.maps + 7 * overlays_set (inner self.now.table).keeps.overlays }
        ensures back { loaded 1 (fresh (inner self.now.table).keeps.group) (lines_of (text_of (inner self.now.table).keeps)) ≡ Granted (inner self.now.table).keeps }
    {
        write(self.table.blocks(), out)
    }
}
