// One row of a flat table: the addresses `lo` to `hi`, both included, lead to `component`, from `base` up.
#[derive(Clone, Copy, PartialEq, Eq, PartialOrd, Ord, Debug, Default)]
pub struct Record {
    pub lo: u64,
    pub hi: u64,
    pub component: u32,
    pub base: u64,
}
