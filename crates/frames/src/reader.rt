ghost use Rattle.std.specs.Prelude.{◌≡◌, fold};
ghost use Rattle.frames.specs.Lines.{line_read};
ghost use Rattle.frames.specs.Machine.{seen, fresh, with_byte, after, kept_read, finished};

use crate::frame::{Frame, Kinds};
use crate::line::LineReader;
use crate::read::read_frame;
use crate::state::State;
use lists::ArrayVec;
use model::faults::Fault;
use text::digit::digit;

impl LineReader {
    pub fn new() -> LineReader
        ensures { seen result ≡ fresh }
    {
        LineReader {
            kept: ArrayVec::new(0),
            more: false,
            state: State::Whole,
        }
    }

    // One byte more, kept where there is a place for it.
    fn keep(&mut self, byte: u8)
        ensures { seen self.new ≡ with_byte (seen self.old) byte }
    {
        if self.kept.push(byte).is_err() {
            self.more = true;
        }
    }

    // The next character of the line.
    pub fn take(&mut self, c: char)
        ensures { seen self.new ≡ after (seen self.old) c }
    {
        self.state = match (self.state, digit(c)) {
            (State::Whole, Some(high)) => State::Half { high },
            (State::Half { high }, Some(low)) => {
                self.keep(16 * high + low);
                State::Whole
            }
            _ => State::NoDigit,
        };
    }

    // Each byte as a character.
    pub fn take_all(&mut self, line: &[u8])
        ensures { seen self.new ≡ fold after (seen self.old) line.now }
    {
        // A `for`: of what a closure changes a proof would know nothing.
        for byte in line {
            self.take(*byte as char);
        }
    }

    // What the kept bytes are. With more bytes no kind has the length, but the kind is asked for first.
    fn read_kept(&self, kinds: Kinds) -> Result<Frame, Fault>
        ensures { result ≡ kept_read kinds (seen self.now) }
    {
        let bytes = self.kept.as_slice();
        if bytes.is_empty() {
            return Err(Fault::OddDigits);
        }
        let frame = read_frame(kinds, bytes)?;
        if self.more {
            return Err(Fault::LengthWrong);
        }
        Ok(frame)
    }

    // The frame of the line that ends here.
    pub fn finish(&self, kinds: Kinds) -> Result<Frame, Fault>
        ensures { result ≡ finished kinds (seen self.now) }
    {
        match self.state {
            State::NoDigit => Err(Fault::NotADigit),
            State::Half { .. } => Err(Fault::OddDigits),
            State::Whole => self.read_kept(kinds),
        }
    }
}

// The frame of a whole line, without its line feed.
pub fn read_line(kinds: Kinds, line: &[u8]) -> Result<Frame, Fault>
    ensures { result ≡ line_read kinds line.now }
{
    let mut reader = LineReader::new();
    reader.take_all(line);
    reader.finish(kinds)
}
