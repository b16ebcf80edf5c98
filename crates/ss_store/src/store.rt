//! The store itself: its making, FILE and REMOVE, and the undoing of changes.

ghost use Rattle.std.specs.Prelude.{◌≡◌, ◌<◌, IfOk, length};
ghost use Rattle.ss_links.specs.Board.{empty_board};
ghost use Rattle.ss_store.specs.Tables.{set_of, tables_of};
ghost use Rattle.ss_store.specs.Tables.{AreTables};
ghost use Rattle.ss_store.specs.Value.{empty_value};
ghost use Rattle.ss_store.specs.Store as pure;
ghost use Rattle.ss_store.specs.Filing.{after_filing, after_removing};
ghost use Rattle.ss_store.specs.Change.{FitsStore, unapply_store, IsOutcome, IsRemoval};

use crate::change::StoreChange;
use crate::growing::add_heads;
use crate::places::{
    ListOfSet, head_of, known, member_at_seat, member_if, number_of_value, place_for, seat_if,
    seat_of, seat_to_remove, spot_of,
};
use crate::ranking::{is_in_order, start_of};
use crate::rows::Entities;
use crate::search::Search;
use crate::shape::{ClassShape, How, SetShape, Which};
use crate::tables::{class_shapes, count_owned, set_shapes};
use ss_journal::Undo;
use ss_links::{Place, SetBoard};
use ss_program::{Owner, Program};
use ss_words::RunFault;
use std::alloc::{AllocError, Global};
use std::marker::Model;

/// Entities with their attributes, and the lists of the sets that they own, over a set board.
///
/// A value names the entity of a class with that number; one below 1 names none. Only `new`,
/// `with_tables`, `create` and `create_all` ask for memory. A call that is refused changes nothing.
#[derive(Drop)]
pub struct Store<S: SetBoard> {
    pub(crate) alloc: Global,
    pub(crate) classes: Vec<ClassShape>,
    pub(crate) sets: Vec<SetShape>,
    pub(crate) system: u32,
    pub(crate) entities: Entities,
    pub(crate) numbers: Vec<u32>,
    pub(crate) board: S,
    pub(crate) search: Search,
}

impl<S: SetBoard> Model for Store<S> {
    ghost use Rattle.std.specs.Prelude.{List, []};
    ghost use Rattle.ss_store.specs.Invariant.{IsStore};
    ghost use Rattle.ss_store.specs.Order.{AreInOrder};
    ghost use Rattle.ss_store.specs.Parts.{HeadEntry, SeatEntry, StoreParts, value_of};
    ghost use Rattle.ss_store.specs.Value.{StoreValue};

    ghost Value = { StoreValue };

    ghost view = { λ a. value_of (record {
      tables = record { classes = a.classes.items; sets = a.sets.items; system = a.system };
      rows = a.entities;
      numbers = a.numbers.items;
      owners = [];
      members = [];
      board = S.board a.board;
    }) };

    ghost invariant = { λ a. (ws : List HeadEntry) × (ms : List SeatEntry) × IsStore (record {
      tables = record { classes = a.classes.items; sets = a.sets.items; system = a.system };
      rows = a.entities;
      numbers = a.numbers.items;
      owners = ws;
      members = ms;
      board = S.board a.board;
    }) × AreInOrder (record {
      tables = record { classes = a.classes.items; sets = a.sets.items; system = a.system };
      rows = a.entities;
      numbers = a.numbers.items;
      owners = ws;
      members = ms;
      board = S.board a.board;
    }) a.search };
}

impl<S: SetBoard> Store<S> {
    /// A store of a program, with nothing made, on a board without heads and seats.
    pub fn new(alloc: Global, program: &Program, board: S) -> Result<Self, AllocError>
        requires { S.board board ≡ empty_board }
        ensures { IfOk result (λ store. store ≡ empty_value (tables_of program.now)) }
    {
        program.known();
        let classes = class_shapes(alloc, program)?;
        let sets = set_shapes(alloc, program)?;
        let system = count_owned(&program.sets, Owner::System, program.sets.len()) as u32;
        Store::with_tables(alloc, classes, sets, system, board)
    }

    /// A store of these classes and sets with nothing made, on a board without heads and seats. The
    /// system owns `system` of the sets.
    pub fn with_tables(
        alloc: Global,
        classes: Vec<ClassShape>,
        sets: Vec<SetShape>,
        system: u32,
        board: S,
    ) -> Result<Self, AllocError>
        requires tables { AreTables
            (record { classes = classes.items; sets = sets.items; system = system }) }
        requires board { S.board board ≡ empty_board }
        ensures { IfOk result (λ store. store
            ≡ empty_value
            (record { classes = classes.items; sets = sets.items; system = system })) }
    {
        let entities = Entities::new(alloc, classes.len())?;
        let mut board = board;
        let mut search = Search::new(alloc);
        search.try_grow(system, 0)?;
        add_heads(&mut board, system)?;
        Ok(Store {
            alloc,
            classes,
            sets,
            system,
            entities,
            numbers: Vec::new(alloc),
            board,
            search,
        })
    }
}

impl<S: SetBoard> Store<S> {
    /// Files a member in the list of a set for this owner, at the place that `how` gives.
    ///
    /// Faults: F3 if the owner, the member, or the one that `how` names does not exist; F4 if the
    /// member is in a list of the set; F5 if the one that `how` names is not in this list.
    pub fn file(
        &mut self,
        set: usize,
        owner: i64,
        member: i64,
        how: How,
    ) -> Result<StoreChange, RunFault>
        requires { set < length self.old.tables.sets }
        ensures { IsOutcome result
            (after_filing (set_of self.old.tables set) self.old.state (pure.number_of owner)
            (pure.number_of member) how)
            self.old self.new }
    {
        let shape = &self.sets[set];
        let number = number_of_value(owner);
        let member = number_of_value(member);
        known(&self.board);
        let head = match head_of(&self.entities, shape, number) {
            None => return Err(RunFault::NoEntity),
            Some(head) => head,
        };
        let seat = match seat_of(&self.entities, shape, member) {
            None => return Err(RunFault::NoEntity),
            Some(seat) => seat,
        };
        let spot = match spot_of(&self.entities, shape, how) {
            Err(fault) => return Err(fault),
            Ok(spot) => spot,
        };
        match self.board.place(seat) {
            Some(_) => return Err(RunFault::AlreadyInSet),
            None => {}
        }
        let list = ListOfSet {
            entities: &self.entities,
            numbers: &self.numbers,
            set: shape,
            head,
        };
        let in_order = is_in_order(&self.search, &self.board, list, spot);
        let start = start_of(in_order, &self.search, list, member);
        let before = match place_for(&self.board, list, start, member, spot) {
            Err(fault) => return Err(fault),
            Ok(before) => before,
        };
        self.board.relink(seat, Place { head, before });
        self.search.put(shape, head, seat, before);
        self.search.note(head, in_order);
        Ok(StoreChange::Filed {
            set,
            owner: shape.owner,
            list: shape.list,
            number,
            member,
        })
    }

    /// Removes a member from the list of a set for this owner, and gives its number.
    ///
    /// Faults: F3 if the owner or the member named does not exist; F5 if the member named is not in
    /// the list; F6 if the first or the last of an empty list is asked for.
    pub fn remove(
        &mut self,
        set: usize,
        owner: i64,
        which: Which,
    ) -> Result<(u32, StoreChange), RunFault>
        requires { set < length self.old.tables.sets }
        ensures { IsRemoval result
            (after_removing (set_of self.old.tables set) self.old.state
            (pure.number_of owner) which)
            self.old self.new }
    {
        let shape = &self.sets[set];
        let number = number_of_value(owner);
        known(&self.board);
        let head = match head_of(&self.entities, shape, number) {
            None => return Err(RunFault::NoEntity),
            Some(head) => head,
        };
        let seat = match seat_to_remove(&self.entities, &self.board, shape, head, which) {
            Err(fault) => return Err(fault),
            Ok(seat) => seat,
        };
        let place = self.board.unlink(seat);
        self.search.take(shape, head, seat);
        let member = member_at_seat(&self.numbers, seat);
        let before = member_if(&self.numbers, place.before);
        Ok((
            member,
            StoreChange::Removed {
                set,
                owner: shape.owner,
                list: shape.list,
                number,
                member: member as usize,
                before,
            },
        ))
    }
}

impl<S: SetBoard> Undo for Store<S> {
    type Change = StoreChange;

    ghost fits = { FitsStore };

    ghost unapply = { unapply_store };

    fn undo(&mut self, change: StoreChange) {
        match change {
            StoreChange::Filed {
                set,
                owner: _,
                list: _,
                number: _,
                member,
            } => {
                known(&self.board);
                let shape = &self.sets[set];
                let seat = seat_of(&self.entities, shape, member).unwrap();
                let place = self.board.unlink(seat);
                self.search.take(shape, place.head, seat);
            }
            StoreChange::Removed {
                set,
                owner: _,
                list: _,
                number,
                member,
                before,
            } => {
                known(&self.board);
                let shape = &self.sets[set];
                let before = seat_if(&self.entities, shape, before);
                let head = head_of(&self.entities, shape, number).unwrap();
                let seat = seat_of(&self.entities, shape, member).unwrap();
                self.board.relink(seat, Place { head, before });
                self.search.put(shape, head, seat, before);
                self.search.note(head, false);
            }
            StoreChange::Created {
                class,
                number: _,
                heads: _,
                seats: _,
            } => self.take_entity(class),
            StoreChange::ClassCreated {
                class,
                count,
                heads: _,
                seats: _,
            } => self.take_entities(class, count),
            StoreChange::AttributeSet {
                class,
                attribute,
                number,
                old,
            } => self.reset(class, attribute, number, old),
            StoreChange::Ended {
                class,
                number,
                owned: _,
                values,
            } => self.bring_back(class, number, values),
        }
    }
}
