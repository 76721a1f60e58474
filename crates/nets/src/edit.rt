use model::blocks::{AcceptBlock, MapBlock};

// What a net can be told to do.
// Any byte may be given: the net refuses what is no node or destination, and 33 clears an overlay.
#[derive(Drop)]
pub enum NetEdit<B> {
    Accept(AcceptBlock),
    Map(MapBlock),
    Over { node: u8, destination: u8 },
    DropAccept(AcceptBlock),
    DropMap(MapBlock),
    Enter(u8),
    Plug(B),
}
