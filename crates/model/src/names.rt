// Where decoding ends: a component, and an address at it.
#[derive(Clone, Copy, PartialEq, Eq, PartialOrd, Ord, Debug, Default)]
pub struct Name {
    pub component: u32,
    pub address: u64,
}
