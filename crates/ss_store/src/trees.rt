//! Trees of seats, in which the place of a member is looked for.
//!
//! A tree has the seats of one list, in the order of the list. It only gives a seat at which a
//! search may begin, and the caller checks that seat. A wrong seat could only make the search slow.

use std::alloc::{AllocError, Global};

/// The seats next to one in the tree of its list: the roots of the trees at its sides, and the seat
/// whose side it is.
#[derive(Clone, Copy)]
struct Twig {
    left: Option<u32>,
    right: Option<u32>,
    above: Option<u32>,
}

impl Twig {
    /// The twig of a seat that is in no tree, or is the only one of its tree.
    fn alone() -> Twig {
        Twig {
            left: None,
            right: None,
            above: None,
        }
    }
}

/// Whether a link leads to this seat.
fn leads_to(link: Option<u32>, seat: u32) -> bool {
    match link {
        None => false,
        Some(other) => other == seat,
    }
}

/// A number that scatters the seats: each seat has its own. No seat is above one with a higher
/// number, so a tree is as low as if its seats had come in any order.
fn priority(seat: u32) -> u32 {
    let mut mixed = seat;
    mixed = (mixed ^ (mixed >> 16)).wrapping_mul(0x85eb_ca6b);
    mixed = (mixed ^ (mixed >> 13)).wrapping_mul(0xc2b2_ae35);
    mixed ^ (mixed >> 16)
}

/// A tree for each head, of the seats of its list.
#[derive(Drop)]
pub(crate) struct Trees {
    roots: Vec<Option<u32>>,
    twigs: Vec<Twig>,
}

impl Trees {
    /// No trees. It takes no memory.
    pub(crate) fn new(alloc: Global) -> Trees {
        Trees {
            roots: Vec::new(alloc),
            twigs: Vec::new(alloc),
        }
    }

    /// Makes room for these numbers of heads and seats.
    pub(crate) fn try_grow(&mut self, heads: usize, seats: usize) -> Result<(), AllocError> {
        for _ in self.roots.len()..heads {
            self.roots.push(None)?;
        }
        for _ in self.twigs.len()..seats {
            self.twigs.push(Twig::alone())?;
        }
        Ok(())
    }

    /// The seat at the root of a head's tree.
    pub(crate) fn root(&self, head: u32) -> Option<u32> {
        match self.roots.get(head as usize) {
            None => None,
            Some(root) => *root,
        }
    }

    fn twig(&self, seat: u32) -> Twig {
        match self.twigs.get(seat as usize) {
            None => Twig::alone(),
            Some(twig) => *twig,
        }
    }

    /// The seat at the root of the tree in front of this one.
    pub(crate) fn left(&self, seat: u32) -> Option<u32> {
        self.twig(seat).left
    }

    /// The seat at the root of the tree after this one.
    pub(crate) fn right(&self, seat: u32) -> Option<u32> {
        self.twig(seat).right
    }

    fn set_root(&mut self, head: u32, root: Option<u32>) {
        let at = head as usize;
        if at < self.roots.len() {
            self.roots[at] = root;
        }
    }

    fn set_twig(&mut self, seat: u32, twig: Twig) {
        let at = seat as usize;
        if at < self.twigs.len() {
            self.twigs[at] = twig;
        }
    }

    /// Hangs a tree at the left of a seat.
    fn hang_left(&mut self, seat: u32, tree: Option<u32>) {
        let twig = self.twig(seat);
        self.set_twig(seat, Twig { left: tree, ..twig });
        self.set_above(tree, Some(seat));
    }

    /// Hangs a tree at the right of a seat.
    fn hang_right(&mut self, seat: u32, tree: Option<u32>) {
        let twig = self.twig(seat);
        self.set_twig(
            seat,
            Twig {
                right: tree,
                ..twig
            },
        );
        self.set_above(tree, Some(seat));
    }

    fn set_above(&mut self, tree: Option<u32>, above: Option<u32>) {
        if let Some(seat) = tree {
            let twig = self.twig(seat);
            self.set_twig(seat, Twig { above, ..twig });
        }
    }

    /// Hangs a tree in the place of seat `old`: at a side of the seat above, or at the head's root.
    fn hang_for(&mut self, head: u32, above: Option<u32>, old: u32, tree: Option<u32>) {
        match above {
            None => {
                self.set_root(head, tree);
                self.set_above(tree, None);
            }
            Some(seat) => {
                if leads_to(self.left(seat), old) {
                    self.hang_left(seat, tree);
                } else {
                    self.hang_right(seat, tree);
                }
            }
        }
    }

    /// The first seat of the tree with this root.
    fn leftmost(&self, root: u32) -> u32 {
        let mut at = root;
        for _ in 0..self.twigs.len() {
            match self.left(at) {
                None => return at,
                Some(left) => at = left,
            }
        }
        at
    }

    /// Turns a seat up, above the one that it hangs at. The order of the seats stays.
    fn turn_up(&mut self, head: u32, seat: u32, over: u32) {
        let above = self.twig(over).above;
        self.hang_for(head, above, over, Some(seat));
        if leads_to(self.left(over), seat) {
            let inner = self.right(seat);
            self.hang_left(over, inner);
            self.hang_right(seat, Some(over));
        } else {
            let inner = self.left(seat);
            self.hang_right(over, inner);
            self.hang_left(seat, Some(over));
        }
    }

    /// Turns a seat up as long as the one above has a lower number.
    fn raise(&mut self, head: u32, seat: u32) {
        for _ in 0..self.twigs.len() {
            match self.twig(seat).above {
                None => return,
                Some(over) => {
                    if priority(over) >= priority(seat) {
                        return;
                    }
                    self.turn_up(head, seat, over);
                }
            }
        }
    }

    /// Puts a seat, which is in no tree, directly after another of the head's tree, or first.
    pub(crate) fn put(&mut self, head: u32, seat: u32, before: Option<u32>) {
        let behind = match before {
            None => self.root(head),
            Some(front) => self.right(front),
        };
        match (behind, before) {
            (Some(root), _) => {
                let next = self.leftmost(root);
                self.hang_left(next, Some(seat));
            }
            (None, Some(front)) => self.hang_right(front, Some(seat)),
            (None, None) => self.set_root(head, Some(seat)),
        }
        self.raise(head, seat);
    }

    /// Takes a seat out of the head's tree.
    pub(crate) fn take(&mut self, head: u32, seat: u32) {
        for _ in 0..self.twigs.len() {
            let twig = self.twig(seat);
            match (twig.left, twig.right) {
                (Some(left), Some(right)) => {
                    let higher = if priority(left) >= priority(right) {
                        left
                    } else {
                        right
                    };
                    self.turn_up(head, higher, seat);
                }
                (None, only) | (only, None) => {
                    self.hang_for(head, twig.above, seat, only);
                    self.set_twig(seat, Twig::alone());
                    return;
                }
            }
        }
    }
}
