ghost use Rattle.std.specs.Prelude.{◌≡◌};
ghost use Rattle.frames.specs.Codes.{code_of, kind_of};

use model::faults::Fault;

// What the first byte of a frame tells.
#[derive(Clone, Copy, PartialEq, Eq, Debug)]
pub enum Kind {
    Accept,
    Map,
    Over,
    Enter,
    DropAccept,
    DropMap,
    Look,
}

// The byte that stands for the kind: a letter, and the small one of it where a block is dropped.
impl From<Kind> for u8 {
    ghost from_gives = { λ kind code. code ≡ code_of kind };

    fn from(kind: Kind) -> u8 {
        match kind {
            Kind::Accept => b'A',
            Kind::Map => b'M',
            Kind::Over => b'O',
            Kind::Enter => b'E',
            Kind::DropAccept => b'a',
            Kind::DropMap => b'm',
            Kind::Look => b'L',
        }
    }
}

impl TryFrom<u8> for Kind {
    type Error = Fault;

    ghost try_from_gives = { λ code r. r ≡ kind_of code };

    fn try_from(code: u8) -> Result<Self, Fault> {
        match code {
            b'A' => Ok(Kind::Accept),
            b'M' => Ok(Kind::Map),
            b'O' => Ok(Kind::Over),
            b'E' => Ok(Kind::Enter),
            b'a' => Ok(Kind::DropAccept),
            b'm' => Ok(Kind::DropMap),
            b'L' => Ok(Kind::Look),
            _ => Err(Fault::KindUnknown),
        }
    }
}
