ghost use Rattle.loading.specs.Laws.{NoLine, EndedLine, LastLine, NetsBuild};

// An empty text has no line. A line ends at its line feed, and the last one where the text does.
// The frames that a net reads are all told to its table.
pub fn texts_stand() -> u8
    ensures empty { NoLine }
    ensures ended { EndedLine }
    ensures last { LastLine }
    ensures nets { NetsBuild }
{
    0
}
