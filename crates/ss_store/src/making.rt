//! Entities made, and the calls that take them off again.
ghost use Rattle.std.specs.Prelude.{◌≡◌, ◌<◌, ◌≤◌, IfOk, OnErr, length, true, false, ℕ};
ghost use Rattle.ss_store.specs.Tables.{class_of};
ghost use Rattle.ss_store.specs.declared.limits.TheConstants.{MOST_ENTITIES};
ghost use Rattle.ss_store.specs.Store.{made_of, with_new, with_class};
ghost use Rattle.ss_store.specs.Making.{numbering, rows_of_numbering, HasRoom, Makes, MakesAll, FitsLast, TakesOff};
ghost use Rattle.ss_store.specs.Making.{one_less};
ghost use Rattle.ss_store.specs.Value.{StoreValue};
ghost use Rattle.ss_store.specs.Change.{IsCreation, IsMaking};

use crate::change::StoreChange;
use crate::growing::{NumberedClass, grow, shrink};
use crate::limits::MOST_ENTITIES;
use crate::store::Store;
use ss_links::SetBoard;
use ss_words::limits::MOST_REFERENCES;
use ss_words::{RunFault, StepFault};
use std::alloc::AllocError;

impl<S: SetBoard> Store<S> {
    /// How many entities were made in the numbering of a class.
    fn count_made(&self, class: usize) -> usize
        requires { class < length self.now.tables.classes }
        ensures kept { result
            ≡ length (rows_of_numbering self.now.kept
            (numbering (class_of self.now.tables class) class)) }
        ensures given { (class_of self.now.tables class).permanent ≡ false
            → result ≡ length self.now.state.references }
        ensures made { (class_of self.now.tables class).permanent ≡ true
            → result ≡ length (made_of self.now.state class) }
    {
        let shape = self.classes[class];
        self.entities.count(shape.permanent, class)
    }

    /// How many heads the board has.
    fn count_heads(&self) -> u32
        ensures { result ≡ self.now.kept.heads }
    {
        let board = &self.board;
        board.heads()
    }

    /// How many seats the board has.
    fn count_seats(&self) -> u32
        ensures { result ≡ self.now.kept.seats }
    {
        let board = &self.board;
        board.seats()
    }

    /// Makes an entity of a class, the next of its numbering.
    fn add_entity(&mut self, class: usize) -> Result<(), AllocError>
        requires class { class < length self.old.tables.classes }
        requires few { HasRoom class self.old }
        ensures ok { IfOk result (λ _. Makes class self.old self.new) }
        ensures err { OnErr result (self.new ≡ self.old) }
    {
        let shape = self.classes[class];
        let heads = self.board.heads().saturating_add(shape.owned);
        let seats = self.board.seats().saturating_add(shape.joined);
        self.search.try_grow(heads, seats)?;
        let grown = grow(
            self.alloc,
            &mut self.entities,
            &mut self.numbers,
            &mut self.board,
            NumberedClass {
                number: class,
                shape,
            },
        );
        match grown {
            Err(refused) => Err(refused),
            Ok(_) => Ok(()),
        }
    }

    /// Takes the last entity of a class off.
    pub(crate) fn take_entity(&mut self, class: usize)
        requires class { class < length self.old.tables.classes }
        requires fits { (k heads seats : ℕ) × FitsLast class k heads seats self.old }
        ensures { (k heads seats : ℕ) → FitsLast class k heads seats self.old →
            self.new ≡ one_less class heads seats self.old }
    {
        let shape = self.classes[class];
        shrink(
            &mut self.entities,
            &mut self.numbers,
            &mut self.board,
            shape.permanent,
            class,
        );
        self.search.forget();
    }

    /// Takes `count` entities of a class off, last first.
    pub(crate) fn take_entities(&mut self, class: usize, count: usize)
        requires { (rest : StoreValue) × TakesOff class count self.old rest }
        ensures { (rest : StoreValue) → TakesOff class count self.old rest → self.new ≡ rest }
    {
        for _ in 0..count {
            self.take_entity(class);
        }
    }

    /// Makes `count` entities of a class, or none if memory is refused.
    fn add_entities(&mut self, class: usize, count: usize) -> Result<(), AllocError>
        requires class { class < length self.old.tables.classes }
        requires kind { (class_of self.old.tables class).permanent ≡ true }
        requires none { length (rows_of_numbering self.old.kept
            (numbering (class_of self.old.tables class) class)) ≡ 0 }
        requires few { count ≤ MOST_ENTITIES }
        ensures ok { IfOk result (λ _. MakesAll class count self.old self.new) }
        ensures err { OnErr result (self.new ≡ self.old) }
    {
        for made in 0..count {
            if let Err(refused) = self.add_entity(class) {
                self.take_entities(class, made);
                return Err(refused);
            }
        }
        Ok(())
    }

    /// Makes an entity of a temporary or event class, whose attributes are 0 and whose lists are
    /// empty, and gives its reference: 1, 2, 3, .. over all such classes.
    ///
    /// Want of references (F20) and then of memory is refused; a refusal leaves all as it was.
    pub fn create(&mut self, class: usize) -> Result<(u32, StoreChange), StepFault>
        requires class { class < length self.old.tables.classes }
        requires kind { (class_of self.old.tables class).permanent ≡ false }
        ensures { IsCreation result
            (with_new self.old.state class (class_of self.old.tables class)) self.old self.new }
    {
        let count = self.count_made(class);
        if count >= MOST_REFERENCES {
            return Err(StepFault::Fault(RunFault::TooManyReferences));
        }
        let heads = self.count_heads();
        let seats = self.count_seats();
        match self.add_entity(class) {
            Err(_) => Err(StepFault::Memory),
            Ok(()) => {
                let number = count + 1;
                Ok((
                    number as u32,
                    StoreChange::Created {
                        class,
                        number,
                        heads,
                        seats,
                    },
                ))
            }
        }
    }

    /// Makes entities 1 to `n` of a permanent class, whose attributes are 0 and whose lists are
    /// empty.
    ///
    /// A class that was made already (F12), a number that is not 1 to 10,000 (F13), and then want
    /// of memory are refused; a refusal leaves all as it was.
    pub fn create_all(&mut self, class: usize, n: i64) -> Result<StoreChange, StepFault>
        requires class { class < length self.old.tables.classes }
        requires kind { (class_of self.old.tables class).permanent ≡ true }
        ensures { IsMaking result
            (with_class self.old.state class (class_of self.old.tables class) n) self.old self.new }
    {
        if self.count_made(class) > 0 {
            return Err(StepFault::Fault(RunFault::AlreadyCreated));
        }
        if n < 1 || n > MOST_ENTITIES as i64 {
            return Err(StepFault::Fault(RunFault::CountOutOfRange));
        }
        let count = n as usize;
        let heads = self.count_heads();
        let seats = self.count_seats();
        match self.add_entities(class, count) {
            Err(_) => Err(StepFault::Memory),
            Ok(()) => Ok(StoreChange::ClassCreated {
                class,
                count,
                heads,
                seats,
            }),
        }
    }
}
