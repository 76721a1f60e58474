ghost use Rattle.std.specs.Prelude.{◌≡◌, ◌+◌, min, [], IfOk, MatchOption};

use std::io;
use std::io::{BufRead, Input, StdinLock};

// Standard input, line by line, as bytes: what is no text is a line like any other. One buffer serves all lines.
// No iterator: the library's `split` makes a buffer for each line, and `zip` with `1..` takes a number for an end of input too, after which more may come.
#[derive(Drop)]
pub struct Lines {
    reader: StdinLock<'static>,
    line: Vec<u8>,
    number: u64,
}

impl Lines {
    pub fn new(rt: &HostRuntime) -> Lines
        ensures line { result.line.items ≡ [] }
        ensures number { result.number ≡ 0 }
    {
        Lines {
            reader: rt.reader(),
            line: Vec::new(rt.alloc()),
            number: 0,
        }
    }

    // Reads the next line, without its line feed, and answers its number, from 1; none at the end of the input, which takes no number.
    pub fn read_line(&mut self) -> io::Result<Option<u64>>
        ensures { IfOk result (λ read. MatchOption read (self.new.number ≡ self.old.number) (λ n. (n ≡ min (self.old.number + 1) 18446744073709551615) × (self.new.number ≡ n))) }
    {
        self.line.clear();
        if self.reader.read_until(b'\n', &mut self.line)? == 0 {
            return Ok(None);
        }
        if self.line.last() == Some(&b'\n') {
            let _ = self.line.pop();
        }
        self.number = self.number.saturating_add(1);
        Ok(Some(self.number))
    }

    // The line that was read last.
    pub fn line(&self) -> &[u8]
        ensures { result.now ≡ self.now.line.items }
    {
        self.line.as_slice()
    }
}
