ghost use Rattle.std.specs.Prelude.{◌≡◌, length};
ghost use Rattle.frames.specs.Codes.{code_of};
ghost use Rattle.frames.specs.Frames.{word_read, known, accept_read, map_read, look_read, node_frame_read, frame_read};

use crate::frame::{Frame, Kinds};
use crate::kind::Kind;
use model::blocks::{AcceptBlock, MapBlock};
use model::faults::Fault;

impl Kinds {
    // Whether a frame may be of this kind.
    fn knows(self, kind: Kind) -> bool
        ensures { result ≡ known self (code_of kind) }
    {
        match kind {
            Kind::Accept | Kind::Map | Kind::Over | Kind::Enter => true,
            Kind::DropAccept | Kind::DropMap | Kind::Look => self == Kinds::Program,
        }
    }
}

// The number that eight bytes spell, the high one first.
fn read_word(bytes: &[u8]) -> Result<u64, Fault>
    ensures { result ≡ word_read bytes.now }
{
    let bytes = bytes.try_into().map_err(|_| Fault::LengthWrong)?;
    Ok(u64::from_be_bytes(bytes))
}

// An accept block: lo and hi.
fn read_accept(node: u8, numbers: &[u8]) -> Result<AcceptBlock, Fault>
    ensures { result ≡ accept_read node numbers.now }
{
    let (lo, hi) = numbers.split_at_checked(8).ok_or(Fault::LengthWrong)?;
    Ok(AcceptBlock {
        node,
        lo: read_word(lo)?,
        hi: read_word(hi)?,
    })
}

// A map block: lo, hi, one byte of destination, base.
fn read_map(node: u8, numbers: &[u8]) -> Result<MapBlock, Fault>
    ensures { result ≡ map_read node numbers.now }
{
    let (block, rest) = numbers.split_at_checked(16).ok_or(Fault::LengthWrong)?;
    let [destination, base @ ..] = rest else {
        return Err(Fault::LengthWrong);
    };
    let AcceptBlock { node, lo, hi } = read_accept(node, block)?;
    Ok(MapBlock {
        node,
        lo,
        hi,
        destination: *destination,
        base: read_word(base)?,
    })
}

// A look: an address, and no node.
fn read_look(address: &[u8]) -> Result<Frame, Fault>
    ensures { result ≡ look_read address.now }
{
    let address = read_word(address)?;
    Ok(Frame::Look { address })
}

// A frame that names a node.
fn read_node_frame(kind: Kind, node: u8, rest: &[u8]) -> Result<Frame, Fault>
    ensures { result ≡ node_frame_read (code_of kind) node rest.now }
{
    match (kind, rest) {
        (Kind::Accept, numbers) => Ok(Frame::Accept(read_accept(node, numbers)?)),
        (Kind::Map, numbers) => Ok(Frame::Map(read_map(node, numbers)?)),
        (Kind::DropAccept, numbers) => Ok(Frame::DropAccept(read_accept(node, numbers)?)),
        (Kind::DropMap, numbers) => Ok(Frame::DropMap(read_map(node, numbers)?)),
        (Kind::Over, [destination]) => Ok(Frame::Over {
            node,
            destination: *destination,
        }),
        (Kind::Enter, []) => Ok(Frame::Enter { node }),
        _ => Err(Fault::LengthWrong),
    }
}

// The frame that the bytes are: its kind, its node, and its numbers, high byte first.
pub fn read_frame(kinds: Kinds, bytes: &[u8]) -> Result<Frame, Fault>
    ensures { result ≡ frame_read kinds bytes.now }
{
    let [code, rest @ ..] = bytes else {
        return Err(Fault::KindUnknown);
    };
    let kind = Kind::try_from(*code)?;
    if !kinds.knows(kind) {
        return Err(Fault::KindUnknown);
    }
    match (kind, rest) {
        (Kind::Look, address) => read_look(address),
        (_, [node, numbers @ ..]) => read_node_frame(kind, *node, numbers),
        _ => Err(Fault::LengthWrong),
    }
}
