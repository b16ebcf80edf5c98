//! The field of the heap of nodes, with its type. Nothing calls this function: it is refused if the
//! field is another, or has another type, and if there is one more.
ghost use Rattle.std.specs.Prelude.{◌≡◌, []};

use super::NodeHeap;
use std::alloc::Global;

/// The field of a heap, if no node is left.
fn of_heap(nodes: NodeHeap) -> Global
    requires { nodes.cells ≡ [] }
{
    let NodeHeap { heap } = nodes;
    heap
}
