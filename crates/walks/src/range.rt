ghost use Rattle.std.specs.Prelude.{◌≡◌};
ghost use Rattle.walks.specs.declared.range.NodeRange.{NodeRange};
ghost use Rattle.walks.specs.Spans.{covers as covering, room};

use blocks::stored::{Accepted, Mapped};

// The addresses `lo` to `hi` of a node, both included. The fields are those of an accept block, which another crate declares: methods need a type of this one.
#[derive(Clone, Copy)]
pub(crate) struct NodeRange {
    pub node: u8,
    pub lo: u64,
    pub hi: u64,
}

impl NodeRange {
    // Whether it has the address at the node.
    pub(crate) fn covers(&self, node: u8, address: u64) -> bool
        ensures { result ≡ covering self.now.node self.now.lo self.now.hi node address }
    {
        self.node == node && (self.lo..=self.hi).contains(&address)
    }

    // How far up from the address it goes on to have it, or not, as it does there.
    pub(crate) fn room_above(&self, node: u8, address: u64) -> u64
        ensures { result ≡ room self.now.node self.now.lo self.now.hi node address }
    {
        if self.node != node {
            u64::MAX
        } else if address < self.lo {
            self.lo - 1 - address
        } else if address <= self.hi {
            self.hi - address
        } else {
            u64::MAX
        }
    }
}

// A block speaks of the addresses of a node.
pub(crate) trait Ranged {
    ghost range_of: { Self → NodeRange };

    fn range(&self) -> NodeRange
        ensures { result ≡ range_of self.now };
}

// One text twice: the two blocks share the names of these fields, and no type.
impl Ranged for Accepted {
    ghost range_of = { λ x. record { node = x.block.node; lo = x.block.lo; hi = x.block.hi } };

    fn range(&self) -> NodeRange {
        let b = self.block;
        NodeRange {
            node: b.node,
            lo: b.lo,
            hi: b.hi,
        }
    }
}

impl Ranged for Mapped {
    ghost range_of = { λ x. record { node = x.block.node; lo = x.block.lo; hi = x.block.hi } };

    fn range(&self) -> NodeRange {
        let b = self.block;
        NodeRange {
            node: b.node,
            lo: b.lo,
            hi: b.hi,
        }
    }
}
