//! The agenda's data and its invariant; the other files add the calls on its order and its changes.
ghost use Rattle.std.specs.Prelude.{◌≡◌, ◌<◌, ℕ, map, ◌≤◌, length, Some, IfOk, slice_index, is_some, IfSome};
ghost use Rattle.std.specs.Prelude.{true};
ghost use Rattle.std.specs.Option.{option_map};
ghost use Rattle.ss_words.specs.declared.limits.TheConstants.{MOST_CLASSES};
ghost use Rattle.ss_links.specs.Board.{empty_board, list_at};
ghost use Rattle.ss_events.specs.Rules.{rule_at, rules_of, is_event_class, event_classes, event_number};
ghost use Rattle.ss_events.specs.Agenda.{pending_at, of_class};
ghost use Rattle.ss_events.specs.State.{AreRanked, board_of, order, no_notices};
ghost use Rattle.ss_events.specs.Places.{notice_on, IsTaken};
ghost use Rattle.ss_events.specs.Views.{notice_of, rule_of};
ghost use Rattle.ss_events.specs.WellAgenda.{IsWellAgenda};
ghost use Rattle.ss_events.specs.Slots.{slot_of};

use crate::pending_notice::{PendingNotice, Row};
use crate::ranking::entry_of;
use crate::rule::{ClassRule, class_rules, event_number};
use ss_index::{SeatIndex, SeatNode};
use ss_links::SetBoard;
use ss_program::Program;
use std::alloc::{AllocError, Global};
use std::marker::Model;

/// When a notice is due, and of which class it is.
#[derive(Clone, Copy, PartialEq, Eq, Debug)]
pub struct Slot {
    pub time: i64,
    pub class: usize,
}

/// One change of the agenda, with all that its undoing needs.
#[derive(Drop)]
pub enum AgendaChange {
    /// A notice was scheduled, and perhaps got its seat.
    Scheduled {
        notice: u32,
        /// Whether its seat was made.
        seated: bool,
    },
    /// A pending notice was taken off.
    TakenOff {
        notice: u32,
        /// The entry of the notice.
        entry: PendingNotice,
        /// The notice of its class directly before it, or none if it was first.
        predecessor: Option<u32>,
    },
}

/// Pending notices, on a board with one list for each event class.
#[derive(Drop)]
pub struct Agenda<S: SetBoard> {
    pub(crate) alloc: Global,
    pub(crate) rules: Vec<ClassRule>,
    pub(crate) rows: Vec<Row>,
    pub(crate) notices: Vec<u32>,
    /// When the notice of each seat is due, if it is pending.
    pub(crate) times: Vec<i64>,
    pub(crate) next_filing: u64,
    pub(crate) board: S,
    /// The list of each head of the board once more, in which a place is found down a tree, if the
    /// list is long.
    pub(crate) indexes: Vec<Option<SeatIndex>>,
    /// The room of a seat that was taken out of an index.
    pub(crate) spare: Option<SeatNode>,
}

impl<S: SetBoard> Model for Agenda<S> {
    ghost use Rattle.ss_events.specs.State.{AgendaState};

    ghost Value = { AgendaState };

    ghost use Rattle.std.specs.Prelude.{◌≡◌};
    ghost use Rattle.ss_events.specs.Rows.{state_of, IsAgenda, AreDue};
    ghost use Rattle.ss_events.specs.Indexes.{AreIndexes};

    ghost view = { λ a. state_of a.rules.items a.rows.items a.next_filing a.notices.items };

    ghost invariant = { λ a.
        IsAgenda a.rows.items (state_of a.rules.items a.rows.items a.next_filing a.notices.items)
        (S.board a.board) × AreIndexes a.indexes.items (S.board a.board).lists
        × AreDue a.times.items a.notices.items a.rows.items };
}

impl<S: SetBoard> Agenda<S> {
    /// An agenda for a program's run, without pending notices, on a board without heads and seats.
    pub fn new(alloc: Global, program: &Program, board: S) -> Result<Self, AllocError>
        requires { S.board board ≡ empty_board }
        ensures { IfOk result (λ agenda. agenda ≡ no_notices (rules_of program.now)) }
    {
        program.known();
        let rules = class_rules(alloc, program)?;
        Agenda::with_rules(alloc, rules, board)
    }

    /// An agenda of classes of these rules, without pending notices, on a board without heads and
    /// seats. There are at most `MOST_CLASSES`, no two with one place in the order of priority.
    pub fn with_rules(alloc: Global, rules: Vec<ClassRule>, board: S) -> Result<Self, AllocError>
        requires ranked { AreRanked (map rule_of rules.items) }
        requires few { length rules.items ≤ MOST_CLASSES }
        requires empty { S.board board ≡ empty_board }
        ensures { IfOk result (λ agenda. agenda ≡ no_notices (map rule_of rules.items)) }
    {
        let mut board = board;
        let mut indexes = Vec::new(alloc);
        for class in 0..rules.len() {
            if rules[class].for_events {
                board.try_add_head()?;
                indexes.push(None)?;
            }
        }
        Ok(Agenda {
            alloc,
            rules,
            rows: Vec::new(alloc),
            notices: Vec::new(alloc),
            times: Vec::new(alloc),
            next_filing: 1,
            board,
            indexes,
            spare: None,
        })
    }

    /// Lets its caller know that the agenda is well-formed.
    pub fn known(&self)
        ensures { IsWellAgenda self.now.rules self.now.agenda }
    {
        // Reading a field makes the invariant known.
        let _ = &self.rows;
    }

    /// The number of keys that a notice of this class has, or none if it is no event class.
    pub fn key_count(&self, class: usize) -> Option<usize>
        ensures event { is_some result ≡ is_event_class self.now.rules class }
        ensures count { IfSome result
            (λ count. count ≡ length (rule_at self.now.rules class).ties) }
    {
        let rule = self.rules.get(class)?;
        if rule.for_events {
            Some(rule.ties.len())
        } else {
            None
        }
    }

    /// When the notice is due and of which class it is, or none if it isn't pending.
    pub fn slot(&self, notice: u32) -> Option<Slot>
        requires { 0 < notice }
        ensures { result ≡ option_map slot_of (pending_at self.now.agenda.pending notice) }
    {
        let entry = entry_of(&self.rows, notice)?;
        Some(Slot {
            time: entry.time,
            class: entry.class,
        })
    }

    /// The entry of the notice of a seat.
    pub(crate) fn entry_on(&self, seat: u32) -> &PendingNotice
        requires { IsTaken self.now seat }
        ensures { pending_at self.now.agenda.pending (notice_on self.now seat)
            ≡ Some (notice_of (notice_on self.now seat) result.now) }
    {
        entry_of(&self.rows, self.notices[seat as usize]).unwrap()
    }

    /// The head of an event class: its number among the event classes.
    pub(crate) fn head(&self, class: usize) -> u32
        requires { is_event_class self.now.rules class ≡ true }
        ensures value { result ≡ event_number self.now.rules class }
        ensures there { result < length (event_classes self.now.rules) }
    {
        event_number(&self.rules, class)
    }

    /// The board. It has one head for each event class, in order of declaration, and the list of
    /// each has the seats of the class's pending notices, in their order.
    pub fn board(&self) -> &S
        ensures board { S.board result.now ≡ board_of self.now }
        ensures heads { length (S.board result.now).lists ≡ length (event_classes self.now.rules) }
        ensures by_class { (c : ℕ) → c < length (event_classes self.now.rules) →
            map (λ seat. notice_on self.now seat) (list_at (S.board result.now).lists c)
            ≡ map (λ e. e.notice)
            (of_class (slice_index (event_classes self.now.rules) c) (order self.now)) }
    {
        &self.board
    }

    /// The notice of a seat of the board.
    pub fn notice(&self, seat: u32) -> u32
        requires { seat < length self.now.notices }
        ensures { result ≡ notice_on self.now seat }
    {
        self.notices[seat as usize]
    }
}
