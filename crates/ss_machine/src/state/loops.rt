//! The open loops of a frame, kept so that no memory is taken when a closed loop is opened again.

ghost use Rattle.std.specs.Prelude.{◌≡◌, ◌∷◌, [], MatchBool, MatchOption, OnOk, OnErr, IfOk};
ghost use Rattle.ss_state.specs.Loops.{innermost, loops_with_candidate};

use ss_program::Direction;
use std::alloc::{AllocError, Global};
use std::marker::Model;

/// The numbers or members that an open loop goes through.
#[derive(Clone, Copy)]
pub enum Walk {
    /// Numbers, each `step` further than the one before, up to the last.
    Numbers {
        direction: Direction,
        last: i64,
        step: i64,
    },
    /// The members of the list of a set, for the owner that a value names.
    Members {
        direction: Direction,
        set: usize,
        owner: i64,
    },
}

/// An open loop: the place of its FOR phrase, the candidate that comes next, if one is left, and
/// the numbers or members that it goes through.
#[derive(Clone, Copy)]
pub struct OpenLoop {
    pub phrase: usize,
    pub candidate: Option<i64>,
    pub walk: Walk,
}

impl Model for OpenLoop {
    ghost use Rattle.std.proofs.Common.{ap};
    ghost use Rattle.ss_machine.specs.declared.state.loops.Walk.{Walk};
    ghost use Rattle.ss_state.specs.Loops.{OpenLoop};
    ghost use Rattle.ss_machine.specs.View.{as_walk, code_walk, code_walk_is};

    ghost Value = { OpenLoop };

    ghost view = { λ a. record {
      phrase = a.phrase;
      candidate = a.candidate;
      walk = as_walk a.walk;
    } };

    ghost inverse = { λ l. record {
      phrase = l.phrase;
      candidate = l.candidate;
      walk = code_walk l.walk;
    } };

    ghost inverse_ok = { λ a _. ap (λ (w : Walk). record a { walk = w }) (code_walk_is a.walk) };
}

/// The open loops of a frame, the innermost first. Each has memory of its own, which it keeps when
/// it is closed.
#[derive(Drop)]
pub struct Loops {
    top: Option<Box<Node>>,
}

#[derive(Drop)]
struct Node {
    open_loop: OpenLoop,
    outer: Option<Box<Node>>,
}

impl Model for Loops {
    ghost use Rattle.std.specs.Prelude.{List};
    ghost use Rattle.ss_state.specs.Loops.{OpenLoop};
    ghost use Rattle.ss_machine.specs.Nodes.{chain_loops};

    ghost Value = { List OpenLoop };

    ghost view = { λ a. chain_loops a.top };
}

/// A loop that was closed, with its memory.
#[derive(Drop)]
pub struct ClosedLoop {
    node: Box<Node>,
}

impl Model for ClosedLoop {
    ghost use Rattle.ss_state.specs.Loops.{OpenLoop};
    ghost use Rattle.ss_machine.specs.Nodes.{node_loop};

    ghost Value = { OpenLoop };

    ghost view = { λ a. node_loop a.node.value };
}

impl Loops {
    /// No loop is open. It takes no memory.
    pub fn new() -> Self
        ensures { result ≡ [] }
    {
        Loops { top: None }
    }

    /// The innermost loop.
    pub fn top(&self) -> Option<OpenLoop>
        ensures { result ≡ innermost self.now }
    {
        match &self.top {
            None => None,
            Some(node) => Some(node.open_loop),
        }
    }

    /// Whether no loop is open.
    #[inline(always)]
    pub fn are_none(&self) -> bool
        ensures { MatchBool result (self.now ≡ []) (Unit {0}) }
    {
        self.top.is_none()
    }

    /// Opens a loop within the others.
    pub fn open(&mut self, alloc: Global, open_loop: OpenLoop) -> Result<(), AllocError>
        ensures ok { OnOk result (self.new ≡ open_loop ∷ self.old) }
        ensures err { OnErr result (self.new ≡ self.old) }
    {
        let node = Box::new(
            alloc,
            Node {
                open_loop,
                outer: None,
            },
        )?;
        self.reopen(ClosedLoop { node });
        Ok(())
    }

    /// Gives the innermost loop another candidate.
    pub fn set_candidate(&mut self, candidate: Option<i64>)
        ensures { self.new ≡ loops_with_candidate candidate self.old }
    {
        if let Some(node) = &mut self.top {
            let innermost = &mut node.open_loop;
            innermost.candidate = candidate;
        }
    }

    /// Closes the innermost loop.
    pub fn close(&mut self) -> Option<ClosedLoop>
        ensures { MatchOption result ((self.old ≡ []) × (self.new ≡ []))
            (λ closed. self.old ≡ closed ∷ self.new) }
    {
        match self.top.take() {
            None => None,
            Some(mut node) => {
                self.top = node.outer.take();
                Some(ClosedLoop { node })
            }
        }
    }

    /// Opens a loop again that was closed. It takes no memory.
    pub fn reopen(&mut self, closed: ClosedLoop)
        ensures { self.new ≡ closed ∷ self.old }
    {
        let ClosedLoop { mut node } = closed;
        node.outer = self.top.take();
        self.top = Some(node);
    }
}
