use table::table::Table;

// Nodes that decode, over the space below them.
#[derive(Drop)]
pub struct Net<B> {
    pub(crate) table: Table,
    pub(crate) below: B,
}
