//! Trees of seats, owned by value: a call takes a tree and gives trees, made of the same boxes.
ghost use Rattle.std.specs.Prelude.{◌≡◌, ◌++◌, IsTrue};
ghost use Rattle.std.specs.Option.{option_to_list};
ghost use Rattle.ss_links.specs.Seats.{first_of, last_of, list_without};
ghost use Rattle.ss_index.specs.Filing.{seats_passed, rest, IsDivided, EachSeat, is_at};
ghost use Rattle.ss_index.specs.Trees.{inorder};

use crate::node::SeatNode;
use crate::order::Order;
use std::mem;

/// A binary tree of seats. From a fork to its sides, priorities do not rise.
#[cycle(tree)]
#[derive(Drop)]
pub(crate) enum Tree {
    /// No seat.
    Leaf,
    /// A seat, between those of two trees.
    Fork(Box<Fork>),
}

/// A seat, with the trees at its sides.
#[cycle(tree)]
#[derive(Drop)]
pub(crate) struct Fork {
    pub(crate) left: Tree,
    pub(crate) seat: u32,
    pub(crate) right: Tree,
}

/// The priority of a seat, which no other seat has: its number, scattered by the last steps of the
/// hash function MurmurHash3, which lose no bits.
fn priority(seat: u32) -> u32 {
    let mut mixed = seat;
    mixed = (mixed ^ (mixed >> 16)).wrapping_mul(0x85eb_ca6b);
    mixed = (mixed ^ (mixed >> 13)).wrapping_mul(0xc2b2_ae35);
    mixed ^ (mixed >> 16)
}

/// The first seat of a tree.
pub(crate) fn first(tree: &Tree) -> Option<u32>
    ensures { result ≡ first_of (inorder tree.now) }
{
    match tree {
        Tree::Leaf => None,
        Tree::Fork(fork) => match first(&fork.left) {
            None => Some(fork.seat),
            found => found,
        },
    }
}

/// The last seat of a tree.
pub(crate) fn last(tree: &Tree) -> Option<u32>
    ensures { result ≡ last_of (inorder tree.now) }
{
    match tree {
        Tree::Leaf => None,
        Tree::Fork(fork) => match last(&fork.right) {
            None => Some(fork.seat),
            found => found,
        },
    }
}

/// The seats of two trees, those of the second after those of the first.
pub(crate) fn merge(front: Tree, rest: Tree) -> Tree
    ensures { inorder result ≡ inorder front ++ inorder rest }
{
    let Tree::Fork(mut first) = front else {
        return rest;
    };
    let Tree::Fork(mut second) = rest else {
        return Tree::Fork(first);
    };
    if priority(first.seat) >= priority(second.seat) {
        let inner = mem::replace(&mut first.right, Tree::Leaf);
        first.right = merge(inner, Tree::Fork(second));
        Tree::Fork(first)
    } else {
        let inner = mem::replace(&mut second.left, Tree::Leaf);
        second.left = merge(Tree::Fork(first), inner);
        Tree::Fork(second)
    }
}

/// A tree's seats that are in front of a place, and those that are after it.
pub(crate) fn split<O: Order>(tree: Tree, order: &O) -> (Tree, Tree)
    requires known { EachSeat (O.knows order.now) (inorder tree) }
    requires divided { IsDivided (O.behind order.now) (inorder tree) }
    ensures front { inorder result.0 ≡ seats_passed (O.behind order.now) (inorder tree) }
    ensures rest { inorder result.1 ≡ rest (O.behind order.now) (inorder tree) }
{
    match tree {
        Tree::Leaf => (Tree::Leaf, Tree::Leaf),
        Tree::Fork(mut fork) => {
            if order.is_behind(fork.seat) {
                let inner = mem::replace(&mut fork.left, Tree::Leaf);
                let (front, rest) = split(inner, order);
                fork.left = rest;
                (front, Tree::Fork(fork))
            } else {
                let inner = mem::replace(&mut fork.right, Tree::Leaf);
                let (front, rest) = split(inner, order);
                fork.right = front;
                (Tree::Fork(fork), rest)
            }
        }
    }
}

/// A tree without a seat, and that seat's node.
pub(crate) fn remove<O: Order>(tree: Tree, seat: u32, order: &O) -> (Tree, SeatNode)
    requires known { EachSeat (O.knows order.now) (list_without (inorder tree) seat) }
    requires at { IsTrue (is_at (O.behind order.now) seat (inorder tree)) }
    ensures seats { inorder result.0 ≡ list_without (inorder tree) seat }
    ensures node { result.1 ≡ seat }
{
    match tree {
        Tree::Leaf => unreachable!(),
        Tree::Fork(mut fork) => {
            if fork.seat == seat {
                let left = mem::replace(&mut fork.left, Tree::Leaf);
                let right = mem::replace(&mut fork.right, Tree::Leaf);
                (merge(left, right), SeatNode { fork })
            } else if order.is_behind(fork.seat) {
                let inner = mem::replace(&mut fork.left, Tree::Leaf);
                let (left, node) = remove(inner, seat, order);
                fork.left = left;
                (Tree::Fork(fork), node)
            } else {
                let inner = mem::replace(&mut fork.right, Tree::Leaf);
                let (right, node) = remove(inner, seat, order);
                fork.right = right;
                (Tree::Fork(fork), node)
            }
        }
    }
}

/// A tree without its first seat, and that seat's node, if it has seats.
pub(crate) fn remove_first(tree: Tree) -> (Tree, Option<SeatNode>)
    ensures first { result.1 ≡ first_of (inorder tree) }
    ensures seats { inorder tree ≡ option_to_list result.1 ++ inorder result.0 }
{
    match tree {
        Tree::Leaf => (Tree::Leaf, None),
        Tree::Fork(mut fork) => {
            let inner = mem::replace(&mut fork.left, Tree::Leaf);
            match remove_first(inner) {
                (left, Some(node)) => {
                    fork.left = left;
                    (Tree::Fork(fork), Some(node))
                }
                (_, None) => {
                    let right = mem::replace(&mut fork.right, Tree::Leaf);
                    (right, Some(SeatNode { fork }))
                }
            }
        }
    }
}
