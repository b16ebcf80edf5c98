//! The index of seats: the calls by which a caller files and takes seats, over a tree.
ghost use Rattle.std.specs.Prelude.{◌≡◌, ◌++◌, [], ◌∷◌};
ghost use Rattle.std.specs.Option.{option_to_list};
ghost use Rattle.ss_links.specs.Seats.{first_of, last_of, list_without};
ghost use Rattle.ss_index.specs.Filing.{seats_passed, seats_filed, IsDivided, EachSeat};

use crate::node::SeatNode;
use crate::order::Order;
use crate::tree::{Tree, first, last, merge, remove, remove_first, split};
use std::marker::Model;
use std::mem;

/// A list of seats, as a tree that is searched from its root.
///
/// A call goes once down the tree. How deep it is, no contract says: each seat has a priority that
/// scatters the numbers, so the depth of n seats is some 2 log n in whatever order they came.
#[derive(Drop)]
pub struct SeatIndex {
    root: Tree,
}

impl Model for SeatIndex {
    ghost use Rattle.std.specs.Prelude.{ℕ, List};

    ghost Value = { List ℕ };

    ghost use Rattle.ss_index.specs.Trees.{inorder};

    ghost view = { λ a. inorder a.root };
}

impl SeatIndex {
    /// No seats.
    pub fn new() -> SeatIndex
        ensures { result ≡ [] }
    {
        SeatIndex { root: Tree::Leaf }
    }

    /// The first seat, or none if there are no seats.
    pub fn first(&self) -> Option<u32>
        ensures { result ≡ first_of self.now }
    {
        first(&self.root)
    }

    /// Puts a seat in front of the first one that is after the place, or last, and gives the seat
    /// directly before it, or none if it is first. After one that is after the place, all are.
    pub fn put<O: Order>(&mut self, node: SeatNode, order: &O) -> Option<u32>
        requires known { EachSeat (O.knows order.now) self.old }
        requires divided { IsDivided (O.behind order.now) self.old }
        ensures seats { self.new ≡ seats_filed (O.behind order.now) node self.old }
        ensures before { result ≡ last_of (seats_passed (O.behind order.now) self.old) }
    {
        if let Tree::Leaf = self.root {
            self.root = Tree::Fork(node.fork);
            return None;
        }
        let (front, rest) = split(mem::replace(&mut self.root, Tree::Leaf), order);
        let before = last(&front);
        let rest = merge(Tree::Fork(node.fork), rest);
        self.root = merge(front, rest);
        before
    }

    /// Puts a seat last, whatever the order.
    pub fn put_last(&mut self, node: SeatNode)
        ensures { self.new ≡ self.old ++ node ∷ [] }
    {
        let root = mem::replace(&mut self.root, Tree::Leaf);
        self.root = merge(root, Tree::Fork(node.fork));
    }

    /// Takes the first seat out and gives its node, or none if there are no seats, whatever the
    /// order.
    pub fn take_first(&mut self) -> Option<SeatNode>
        ensures first { result ≡ first_of self.old }
        ensures seats { self.old ≡ option_to_list result ++ self.new }
    {
        let root = mem::replace(&mut self.root, Tree::Leaf);
        let (rest, node) = remove_first(root);
        self.root = rest;
        node
    }

    /// Takes a seat out and gives its node. The seat is at the place that `put` would give it among
    /// the others.
    pub fn take<O: Order>(&mut self, seat: u32, order: &O) -> SeatNode
        requires known { EachSeat (O.knows order.now) (list_without self.old seat) }
        requires divided { IsDivided (O.behind order.now) (list_without self.old seat) }
        requires placed { self.old ≡ seats_filed (O.behind order.now) seat (list_without self.old seat) }
        ensures seats { self.new ≡ list_without self.old seat }
        ensures node { result ≡ seat }
    {
        let root = mem::replace(&mut self.root, Tree::Leaf);
        let (others, node) = remove(root, seat, order);
        self.root = others;
        node
    }
}
