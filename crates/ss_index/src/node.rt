//! The nodes that hold a seat in an index, made once, so that filing takes no memory.
ghost use Rattle.std.specs.Prelude.{◌≡◌, IfOk};

use crate::tree::{Fork, Tree};
use std::alloc::{AllocError, Global};
use std::marker::Model;

/// The room of a seat that is in no index. Contracts see it as the seat's number.
#[derive(Drop)]
pub struct SeatNode {
    pub(crate) fork: Box<Fork>,
}

impl Model for SeatNode {
    ghost use Rattle.std.specs.Prelude.{◌≡◌, ℕ};

    ghost Value = { ℕ };

    ghost use Rattle.ss_index.specs.declared.tree.Tree.TheVariants.{Leaf};

    ghost view = { λ a. a.fork.value.seat };

    ghost invariant = { λ a. (a.fork.value.left ≡ Leaf) × (a.fork.value.right ≡ Leaf) };
}

impl SeatNode {
    /// Makes the room of a seat in any index. No other call takes memory.
    pub fn new(alloc: Global, seat: u32) -> Result<SeatNode, AllocError>
        ensures { IfOk result (λ node. node ≡ seat) }
    {
        let fork = Box::new(
            alloc,
            Fork {
                left: Tree::Leaf,
                seat,
                right: Tree::Leaf,
            },
        )?;
        Ok(SeatNode { fork })
    }

    /// The same room, for another seat.
    #[inline]
    pub fn renumbered(self, seat: u32) -> SeatNode
        ensures { result ≡ seat }
    {
        let SeatNode { mut fork } = self;
        fork.seat = seat;
        SeatNode { fork }
    }

    /// The seat's number.
    pub fn seat(&self) -> u32
        ensures { result ≡ self.now }
    {
        self.fork.seat
    }
}
