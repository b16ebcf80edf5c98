//! Loops as places: FOR phrases with LOOP, FIND and COMPUTE.
use crate::boxed::Boxed;
use crate::condition::Condition;
use crate::expr::Expr;
use crate::target::{SetRef, Target};
use crate::variable::Variable;
use ss_words::{Direction, QualifierWord, Statistic};
use std::marker::Model;

/// A qualifier of a FOR phrase.
#[derive(Drop)]
pub struct Qualifier {
    pub word: QualifierWord,
    pub condition: Condition,
}

/// The qualifiers of a FOR phrase, in order.
#[derive(Drop)]
pub struct Qualifiers {
    pub list: Vec<Qualifier>,
}

impl Model for Qualifiers {
    ghost use Rattle.std.specs.Prelude.{List};
    ghost use Rattle.std.specs.Coded.{codes};
    ghost use Rattle.ss_program.specs.declared.looping.Qualifier.{Qualifier};
    ghost use Rattle.ss_program.specs.contracts.looping.Qualifier as one;

    ghost Value = { List Qualifier };

    ghost coded = { Prim.hlevel (codes, one.the_row.coded) };

    ghost view = { λ a. a.list.items };
}

/// The range of a FOR phrase.
#[derive(Drop)]
pub enum Phrase {
    /// `variable = first TO last [BY step]`, or `variable BACK FROM first TO last [BY step]`.
    Counting {
        direction: Direction,
        variable: Variable,
        first: Expr,
        last: Expr,
        step: Option<Expr>,
    },
    /// `EACH class [CALLED variable]`: the numbers from 1 up to the global variable `count`, which
    /// is that of `N.class`. Without CALLED the variable is that of the class's name.
    Each {
        class: usize,
        is_called: bool,
        variable: Variable,
        count: usize,
    },
    /// `EACH variable IN set [FROM member | AFTER member] [IN REVERSE ORDER]`.
    Walking {
        direction: Direction,
        variable: Variable,
        set: SetRef,
        begin: Begin,
    },
}

/// The begin of a walk through a list.
#[derive(Drop)]
pub enum Begin {
    /// At the first member, or at the last in reverse order.
    AtTheEnd,
    /// At the member that a value names.
    From(Expr),
    /// At the one after it in the walk's direction.
    After(Expr),
}

/// A FOR phrase with its qualifiers, and whether DO follows it.
#[derive(Drop)]
pub struct ForPhrase {
    pub phrase: Phrase,
    pub qualifiers: Qualifiers,
    pub has_do: bool,
}

/// A target of COMPUTE, and the statistic that is assigned to it.
#[derive(Drop)]
pub struct Telling {
    pub target: Target,
    pub statistic: Statistic,
}

/// The targets of a COMPUTE, in order.
#[derive(Drop)]
pub struct Tellings {
    pub list: Vec<Telling>,
}

impl Model for Tellings {
    ghost use Rattle.std.specs.Prelude.{List};
    ghost use Rattle.std.specs.Coded.{codes};
    ghost use Rattle.ss_program.specs.declared.looping.Telling.{Telling};
    ghost use Rattle.ss_program.specs.contracts.looping.Telling as one;

    ghost Value = { List Telling };

    ghost coded = { Prim.hlevel (codes, one.the_row.coded) };

    ghost view = { λ a. a.list.items };
}

/// FOR phrases, and the places that only they control.
#[derive(Drop)]
pub enum Looping {
    For(Boxed<ForPhrase>),
    Loop,
    /// `FIND FIRST CASE`.
    Find,
    /// The first place of a COMPUTE, which gathers the value.
    Gather(Boxed<Expr>),
    /// Its second place, which assigns the statistics.
    Tell(Tellings),
}
