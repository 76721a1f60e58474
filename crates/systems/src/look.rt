// From which node at which address.
#[derive(Clone, Copy)]
pub struct Look {
    pub node: u8,
    pub address: u64,
}
