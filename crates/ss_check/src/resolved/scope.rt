//! The scope of a section's names, and the variables and subscripts that it gives.

ghost use Rattle.std.specs.Prelude.{◌≡◌, option_map};
ghost use Rattle.ss_program.specs.ProgramExpr.{expr_of, subscript_of};
ghost use Rattle.ss_program.specs.declared.variable.Variable.TheVariants as variable;
ghost use Rattle.ss_check.specs.Declarations.{kind_of};
ghost use Rattle.ss_check.specs.KindView.{kind_view};
ghost use Rattle.ss_check.specs.ResolvedNames as resolved;
ghost use Rattle.ss_check.specs.Scope.{in_scope};

use crate::declared::name_kind::NameKind;
use crate::declared::name_tables::{NameTables, number};
use crate::declared::tables::Tables;
use ss_program::{NameTable, Subscript, Sum, Variable};
use std::alloc::Global;

/// The scope in which the names of a section are resolved.
#[derive(Clone, Copy)]
pub(crate) struct Scope<'a> {
    pub alloc: Global,
    /// The declarations of the whole program.
    pub whole: &'a Tables,
    /// The tables of its names.
    pub names: &'a NameTables,
    /// The names of the section's local variables.
    pub locals: &'a NameTable,
}

/// The kind as which a name is declared, if it is.
pub(crate) fn kind<'a>(scope: Scope<'a>, name: &[u8]) -> Option<&'a NameKind>
    ensures { option_map (λ k. kind_view k.now) result ≡ kind_of scope.entry.whole.now name.now }
{
    let whole = scope.whole;
    whole.kinds.get(name)
}

/// The variable that a name of this kind denotes.
pub(crate) fn variable_of(scope: Scope<'_>, kind: Option<&NameKind>, name: &[u8]) -> Variable
    ensures { result
        ≡ in_scope scope.entry resolved.variable_of
        (option_map (λ k. kind_view k.now) kind.entry) name.now }
{
    match kind {
        None => Variable::Local(number(scope.locals, name)),
        Some(NameKind::Clock) => Variable::Clock,
        Some(_) => Variable::Global(scope.names.global(name)),
    }
}

/// The variable that a name denotes.
pub(crate) fn resolve_variable(scope: Scope<'_>, name: &[u8]) -> Variable
    ensures { result ≡ in_scope scope.entry resolved.resolved_variable name.now }
{
    variable_of(scope, kind(scope, name), name)
}

/// The global variable of a class's name.
pub(crate) fn class_variable(scope: Scope<'_>, class: &[u8]) -> Variable
    ensures { result ≡ variable.Global (in_scope scope.entry resolved.class_variable class.now) }
{
    Variable::Global(scope.names.global(class))
}

/// The subscript of a part of a class's entity; without one, the variable of the class's name.
pub(crate) fn class_subscript(
    scope: Scope<'_>,
    class: &[u8],
    subscript: Option<Box<Sum>>,
) -> Subscript
    ensures { subscript_of result ≡ in_scope scope.entry resolved.class_subscript class.now
        (option_map (λ e. expr_of e.value) subscript) }
{
    match subscript {
        None => Subscript::Implied(scope.names.global(class)),
        Some(e) => Subscript::Written(e),
    }
}

/// The subscript of a set, by its owner.
pub(crate) fn owner_subscript(
    scope: Scope<'_>,
    set: &[u8],
    subscript: Option<Box<Sum>>,
) -> Subscript
    ensures { subscript_of result ≡ in_scope scope.entry resolved.owner_subscript set.now
        (option_map (λ e. expr_of e.value) subscript) }
{
    let whole = scope.whole;
    match whole.owners.get(set) {
        Some(Some(class)) => class_subscript(scope, &class.bytes, subscript),
        Some(None) | None => system_subscript(subscript),
    }
}

/// The subscript of a set that the system owns.
fn system_subscript(subscript: Option<Box<Sum>>) -> Subscript
    ensures { subscript_of result
        ≡ resolved.system_subscript (option_map (λ e. expr_of e.value) subscript) }
{
    match subscript {
        None => Subscript::System,
        Some(e) => Subscript::Written(e),
    }
}

/// The subscript of a set, by the class of its members.
pub(crate) fn member_subscript(
    scope: Scope<'_>,
    set: &[u8],
    subscript: Option<Box<Sum>>,
) -> Subscript
    ensures { subscript_of result ≡ in_scope scope.entry resolved.member_subscript set.now
        (option_map (λ e. expr_of e.value) subscript) }
{
    let whole = scope.whole;
    match whole.members.get(set) {
        Some(class) => class_subscript(scope, &class.bytes, subscript),
        None => class_subscript(scope, b"", subscript),
    }
}
