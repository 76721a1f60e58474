ghost use Rattle.std.specs.Prelude.{◌≡◌, ◌+◌, ◌*◌, ◌≤◌, length};
ghost use Rattle.blocks.specs.Shape.{kept};
ghost use Rattle.writing.specs.Texts.{overlays_set, text_of, Wrote};

use crate::writer::Writer;
use blocks::stored::Blocks;
use model::faults::Fault;

fn count_overlays(blocks: &Blocks) -> usize
    ensures count { result ≡ overlays_set (kept blocks.now).overlays }
    ensures most { result ≤ 32 }
{
    let overlays = &blocks.overlays[..];
    overlays.iter().filter(|overlay| overlay.is_some()).count()
}

// Writes what a net keeps: the entry, its blocks in their order, its overlays by node; tells how many bytes that takes.
// A short buffer is left as it was, and so are the bytes behind the text.
pub fn write(blocks: &Blocks, out: &mut [u8]) -> Result<usize, Fault>
    ensures text { Wrote (text_of (kept blocks.now)) out.old out.new result }
    ensures count { length (text_of (kept blocks.now)) ≡ 5 + 37 * length (kept blocks.now).accepts + 55 * length (kept blocks.now).maps + 7 * overlays_set (kept blocks.now).overlays }
{
    let accepts = blocks.accepts.as_slice();
    let maps = blocks.maps.as_slice();
    let need = 5 + 37 * accepts.len() + 55 * maps.len() + 7 * count_overlays(blocks);
    if out.len() < need {
        return Err(Fault::BufferShort);
    }
    let mut writer = Writer { out, at: 0 };
    writer.enter(blocks.entry);
    writer.lines(accepts);
    writer.lines(maps);
    writer.overlays(blocks);
    Ok(writer.at)
}
