//! What is asked for in a section after its text was read: judged by the rules on names, and resolved.

ghost use Rattle.std.specs.Prelude.{◌≡◌, map, option_map, IfOk};
ghost use Rattle.std.specs.List.{find};
ghost use Rattle.ss_routines.specs.View.{condition_view, expr_view};
ghost use Rattle.ss_check.specs.Asked as asked;
ghost use Rattle.ss_check.specs.AskedView.{asked_fault_view, asked_view};
ghost use Rattle.ss_check.specs.Facts.{is_among};
ghost use Rattle.ss_check.specs.Resolved as resolved;
ghost use Rattle.ss_check.specs.ResolvedNames.{variable_used};
ghost use Rattle.ss_check.specs.Scope.{in_scope};
ghost use Rattle.ss_check.specs.UseView.{use_view};
ghost use Rattle.ss_check.specs.Uses as uses_of;

use crate::declared::name_tables::number;
use crate::fault::CheckRule;
use crate::resolved::conditions::resolve_condition;
use crate::resolved::expressions::resolve_expr;
use crate::resolved::scope::Scope;
use crate::rules::places::use_rule;
use crate::symbols::SymbolTable;
use crate::uses::conditions::add_condition;
use crate::uses::expressions::add_expr;
use crate::uses::use_list::{Use, UseList};
use ss_program::{Condition, Expr, NameTable};
use std::alloc::AllocError;

/// Why what is asked for has no meaning in a section.
#[derive(Clone, Copy, Debug, PartialEq, Eq)]
pub enum AskedFault<'a> {
    /// The first name, in written order, that is taken for a variable and is neither declared nor a
    /// local variable of the section.
    Unknown(&'a [u8]),
    /// No name is unknown: the lowest rule on names that is broken (docs/LANGUAGE.md, "Rules of the
    /// checker").
    Broken(CheckRule),
}

impl SymbolTable {
    /// An expression that is asked for in the section with this number, with the numbers of its
    /// names, or why it has none there. Sections count from 0, in the order of the text; no name is
    /// a local variable of a section that there is not. The only error is that memory was refused.
    pub fn expression<'a>(
        &self,
        section: usize,
        e: &'a ss_routines::Expr,
    ) -> Result<Result<Expr, AskedFault<'a>>, AllocError>
        ensures { IfOk result (λ r. asked_view r
            ≡ asked.judged_expression self.now section (expr_view e.now)) }
    {
        match self.locals.get(section) {
            Some(locals) => judge_expression(self.scope(locals), e),
            None => {
                let nothing = NameTable::new(self.alloc);
                let judged = judge_expression(self.scope(&nothing), e);
                drop(nothing);
                judged
            }
        }
    }

    /// A condition that is asked for in the section with this number, as `expression` does.
    pub fn condition<'a>(
        &self,
        section: usize,
        c: &'a ss_routines::Condition,
    ) -> Result<Result<Condition, AskedFault<'a>>, AllocError>
        ensures { IfOk result (λ r. asked_view r
            ≡ asked.judged_condition self.now section (condition_view c.now)) }
    {
        match self.locals.get(section) {
            Some(locals) => judge_condition(self.scope(locals), c),
            None => {
                let nothing = NameTable::new(self.alloc);
                let judged = judge_condition(self.scope(&nothing), c);
                drop(nothing);
                judged
            }
        }
    }

    /// The scope of a section with these local variables.
    fn scope<'a>(&'a self, locals: &'a NameTable) -> Scope<'a>
        ensures whole { result.whole.now ≡ self.now.declared }
        ensures names { result.names.now ≡ self.now.names }
        ensures locals { result.locals.now ≡ locals.now }
    {
        Scope {
            alloc: self.alloc,
            whole: &self.whole,
            names: &self.names,
            locals,
        }
    }
}

/// An expression with the numbers of its names in a scope, or its fault.
fn judge_expression<'a>(
    scope: Scope<'_>,
    e: &'a ss_routines::Expr,
) -> Result<Result<Expr, AskedFault<'a>>, AllocError>
    ensures { IfOk result (λ r. asked_view r ≡ asked.unless
        (asked.fault_of_uses scope.entry.whole.now scope.entry.locals.now
        (uses_of.uses_expr (expr_view e.now)))
        (in_scope scope.entry resolved.resolved_expr (expr_view e.now))) }
{
    match expression_fault(scope, e)? {
        Some(fault) => Ok(Err(fault)),
        None => Ok(Ok(resolve_expr(scope, e)?)),
    }
}

/// The fault of an expression in a scope, if it has one.
fn expression_fault<'a>(
    scope: Scope<'_>,
    e: &'a ss_routines::Expr,
) -> Result<Option<AskedFault<'a>>, AllocError>
    ensures { IfOk result (λ fault. option_map asked_fault_view fault
        ≡ asked.fault_of_uses scope.entry.whole.now scope.entry.locals.now
        (uses_of.uses_expr (expr_view e.now))) }
{
    let mut uses = UseList::new(scope.alloc);
    add_expr(&mut uses, e)?;
    Ok(fault_of_uses(scope, uses.as_slice()))
}

/// A condition with the numbers of its names in a scope, or its fault.
fn judge_condition<'a>(
    scope: Scope<'_>,
    c: &'a ss_routines::Condition,
) -> Result<Result<Condition, AskedFault<'a>>, AllocError>
    ensures { IfOk result (λ r. asked_view r ≡ asked.unless
        (asked.fault_of_uses scope.entry.whole.now scope.entry.locals.now
        (uses_of.uses_condition (condition_view c.now)))
        (in_scope scope.entry resolved.resolved_condition (condition_view c.now))) }
{
    match condition_fault(scope, c)? {
        Some(fault) => Ok(Err(fault)),
        None => Ok(Ok(resolve_condition(scope, c)?)),
    }
}

/// The fault of a condition in a scope, if it has one.
fn condition_fault<'a>(
    scope: Scope<'_>,
    c: &'a ss_routines::Condition,
) -> Result<Option<AskedFault<'a>>, AllocError>
    ensures { IfOk result (λ fault. option_map asked_fault_view fault
        ≡ asked.fault_of_uses scope.entry.whole.now scope.entry.locals.now
        (uses_of.uses_condition (condition_view c.now))) }
{
    let mut uses = UseList::new(scope.alloc);
    add_condition(&mut uses, c)?;
    Ok(fault_of_uses(scope, uses.as_slice()))
}

/// The fault of uses in a scope, if they have one.
fn fault_of_uses<'a>(scope: Scope<'_>, uses: &[Use<'a>]) -> Option<AskedFault<'a>>
    ensures { option_map asked_fault_view result
        ≡ asked.fault_of_uses scope.entry.whole.now scope.entry.locals.now (map use_view uses.now) }
{
    match first_unknown(scope, uses) {
        Some(name) => Some(AskedFault::Unknown(name)),
        None => match use_rule(scope.whole, uses) {
            Some(rule) => Some(AskedFault::Broken(rule)),
            None => None,
        },
    }
}

/// The first name that these take for a variable and that is unknown in a scope, if there is one.
fn first_unknown<'a>(scope: Scope<'_>, uses: &[Use<'a>]) -> Option<&'a [u8]>
    ensures { option_map (λ name. name.now) result
        ≡ asked.first_unknown scope.entry.whole.now scope.entry.locals.now
        (map use_view uses.now) }
{
    for one in uses {
        if let Some(name) = unknown_name(scope, one) {
            return Some(name);
        }
    }
    None
}

/// The name that this takes for a variable, if it does and the name is unknown in a scope.
fn unknown_name<'a>(scope: Scope<'_>, name_use: &Use<'a>) -> Option<&'a [u8]>
    ensures { option_map (λ name. name.now) result
        ≡ find (asked.is_unknown scope.entry.whole.now scope.entry.locals.now)
        (variable_used (use_view name_use.now)) }
{
    match name_use {
        Use::Value {
            name,
            arguments: None,
        }
        | Use::Target {
            name,
            subscripted: false,
        }
        | Use::LoopVariable(name) => {
            if is_unknown(scope, name) {
                Some(name)
            } else {
                None
            }
        }
        _ => None,
    }
}

/// Whether a name is neither declared nor a local variable.
fn is_unknown(scope: Scope<'_>, name: &[u8]) -> bool
    ensures { result
        ≡ asked.is_unknown scope.entry.whole.now scope.entry.locals.now name.now }
{
    let whole = scope.whole;
    !(whole.kinds.has(name) || is_local(scope, name))
}

/// Whether a name is a local variable.
#[tactic(auto, using(crate::proofs::FactTables::among_names))]
fn is_local(scope: Scope<'_>, name: &[u8]) -> bool
    ensures { result ≡ is_among name.now scope.entry.locals.now }
{
    number(scope.locals, name) < scope.locals.len()
}
