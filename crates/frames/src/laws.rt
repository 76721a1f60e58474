ghost use Rattle.frames.specs.Laws.{ReadByCharacters, NetsReadLess, LineFits};

// Whoever feeds a line to a reader, character by character, and then finishes, is told what the line says.
// A program reads what a net reads, and the numbers that are read fit their bytes.
pub fn lines_stand() -> u8
    ensures fed { ReadByCharacters }
    ensures nets { NetsReadLess }
    ensures fits { LineFits }
{
    0
}
