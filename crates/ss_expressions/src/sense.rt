//! What is asked, as the checker judges it in a section.
ghost use Rattle.std.specs.Prelude.{◌≡◌, IfOk, IfSome, option_map};
ghost use Rattle.ss_check.specs.Asked.{IsSymbolsOf};
ghost use Rattle.ss_check.specs.AskedView.{asked_view};
ghost use Rattle.ss_program.specs.ProgramSound.{IsSoundSetRef, scope_in};
ghost use Rattle.ss_expressions.specs.Senses as spec;
ghost use Rattle.ss_expressions.specs.SensesView.{sense_view, judged_view};
ghost use Rattle.ss_expressions.specs.WantedView.{wanted_view};

use crate::local_names::{expression_names_local, names_local};
use crate::wanted::Wanted;
use ss_check::{AskedFault, SymbolTable};
use ss_program::{Condition, Expr, Relation, SetRef};
use std::alloc::AllocError;

/// What is asked, with the numbers of its names.
#[derive(Drop)]
pub enum Sense {
    /// The value of an expression.
    Expression(Expr),
    /// Whether a condition holds.
    Condition(Condition),
    /// The list of which a condition says that it IS EMPTY.
    List(Condition),
    /// The living entities of the class with this number.
    Living(usize),
}

/// The list of which a condition says that it IS EMPTY.
pub(crate) fn set_in(condition: &Condition) -> Option<&SetRef>
    ensures { option_map (λ r. r.now) result ≡ spec.set_in condition.now }
{
    match &condition.any.first.first {
        Relation::IsEmpty { set, .. } => Some(set),
        Relation::Compared { .. } | Relation::IsIn { .. } | Relation::Within(_) => None,
    }
}

impl Sense {
    /// Whether some variable in it is a local one.
    pub(crate) fn names_local(&self) -> bool
        ensures { result ≡ spec.sense_names_local (sense_view self.now) }
    {
        match self {
            Sense::Expression(e) => expression_names_local(e),
            Sense::Condition(c) | Sense::List(c) => names_local(c),
            Sense::Living(_) => false,
        }
    }
}

/// What is asked, as the checker judges it in the section with this number, or its fault.
/// `AllocError` if memory was refused.
pub(crate) fn judged<'a>(
    symbols: &SymbolTable,
    section: usize,
    wanted: &'a Wanted,
) -> Result<Result<Sense, AskedFault<'a>>, AllocError>
    ensures { IfOk result (λ judged. judged_view judged
        ≡ spec.judged_sense symbols.now section (wanted_view wanted.now)) }
{
    Ok(match wanted {
        Wanted::Value(e) => match symbols.expression(section, e)? {
            Ok(e) => Ok(Sense::Expression(e)),
            Err(fault) => Err(fault),
        },
        Wanted::Truth(c) => match symbols.condition(section, c)? {
            Ok(c) => Ok(Sense::Condition(c)),
            Err(fault) => Err(fault),
        },
        Wanted::List(c) => match symbols.condition(section, c)? {
            Ok(c) => Ok(Sense::List(c)),
            Err(fault) => Err(fault),
        },
        Wanted::Class(class) => Ok(Sense::Living(*class)),
    })
}
