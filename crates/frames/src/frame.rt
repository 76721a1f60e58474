use model::blocks::{AcceptBlock, MapBlock};

// What one line tells: an edit of a net, or a look at an address.
#[derive(Clone, Copy, PartialEq, Debug)]
pub enum Frame {
    Accept(AcceptBlock),
    Map(MapBlock),
    Over { node: u8, destination: u8 },
    Enter { node: u8 },
    DropAccept(AcceptBlock),
    DropMap(MapBlock),
    Look { address: u64 },
}

// Who reads: a net knows the frames that build it, a program the drops and the look too.
#[derive(Clone, Copy, PartialEq, Eq, Debug)]
pub enum Kinds {
    Net,
    Program,
}
