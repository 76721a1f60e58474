ghost use Rattle.walks.specs.Laws.{WalksRise, NotesRise};

// Up to its span a walk stays the same, with every address raised; and so do its notes.
pub fn spans_stand() -> u8
    ensures walks { WalksRise }
    ensures notes { NotesRise }
{
    0
}
