ghost use Rattle.std.specs.Prelude.{◌≡◌, [], ◌∷◌};
ghost use Rattle.text.specs.Numbers.{spelled};
ghost use Rattle.writing.specs.Adding.{Adds, Fits};
ghost use Rattle.writing.specs.Fields.{byte_field, word_field, line_of};
ghost use Rattle.frames.specs.Codes.{code_of};

use frames::kind::Kind;
use text::number::digit_at;

// A number of a line, and in how many digits it is written.
#[derive(Clone, Copy)]
pub(crate) struct Field {
    value: u64,
    digits: usize,
}

impl From<Kind> for Field {
    ghost from_gives = { λ kind field. field ≡ byte_field (code_of kind) };

    fn from(kind: Kind) -> Field {
        Field::from(u8::from(kind))
    }
}

impl From<u8> for Field {
    ghost from_gives = { λ byte field. field ≡ byte_field byte };

    fn from(byte: u8) -> Field {
        Field {
            value: u64::from(byte),
            digits: 2,
        }
    }
}

impl From<u64> for Field {
    ghost from_gives = { λ word field. field ≡ word_field word };

    fn from(word: u64) -> Field {
        Field {
            value: word,
            digits: 16,
        }
    }
}

// A buffer, and up to where it is written. The caller lends the buffer: there is no heap for a String or a Vec.
#[derive(Drop)]
pub(crate) struct Writer<'a> {
    pub(crate) out: &'a mut [u8],
    pub(crate) at: usize,
}

impl<'a> Writer<'a> {
    fn byte(&mut self, byte: u8)
        requires { Fits (byte ∷ []) self.old }
        ensures { Adds (byte ∷ []) self.old self.new }
    {
        self.out[self.at] = byte;
        self.at += 1;
    }

    // The low digits of a value. text's append_number writes them to a String; here there is no heap.
    fn number(&mut self, value: u64, digits: usize)
        requires { Fits (spelled digits value) self.old }
        ensures { Adds (spelled digits value) self.old self.new }
    {
        // A `for`: of what a closure changes a proof would know nothing.
        for place in (0..digits).rev() {
            self.byte(digit_at(value, place) as u8);
        }
    }

    // The numbers, with no space between them, and a line feed.
    pub(crate) fn line(&mut self, fields: &[Field])
        requires { Fits (line_of fields.now) self.old }
        ensures { Adds (line_of fields.now) self.old self.new }
    {
        // A `for`: of what a closure changes a proof would know nothing.
        for field in fields {
            self.number(field.value, field.digits);
        }
        self.byte(b'\n');
    }
}
