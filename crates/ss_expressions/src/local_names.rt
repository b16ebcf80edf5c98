//! Whether a condition names a local variable.
ghost use Rattle.std.specs.Prelude.{◌≡◌, ◌||◌};
ghost use Rattle.ss_program.specs.ProgramExpr.{expr_of, term_of, factor_of, subscript_of, arguments_of};
ghost use Rattle.ss_program.specs.ProgramCondition.{condition_of, conjunction_of, relation_of};
ghost use Rattle.ss_expressions.specs.LocalNames as spec;

use ss_program::{
    Arguments, Condition, Conjunction, Disjunction, Expr, Factor, Relation, SetRef, Subscript, Sum,
    Term, Variable,
};

/// Whether a sum does.
#[cycle(sums)]
fn sum_names_local(e: &Sum) -> bool
    ensures { result ≡ spec.expr_names_local (expr_of e.now) }
{
    if term_names_local(&e.first) {
        return true;
    }
    for further in &e.more {
        if term_names_local(&further.term) {
            return true;
        }
    }
    false
}

/// Whether a product does.
#[cycle(sums)]
fn term_names_local(t: &Term) -> bool
    ensures { result ≡ spec.term_names_local (term_of t.now) }
{
    if factor_names_local(&t.first) {
        return true;
    }
    for further in &t.more {
        if factor_names_local(further) {
            return true;
        }
    }
    false
}

/// Whether a factor does.
#[cycle(sums)]
fn factor_names_local(f: &Factor) -> bool
    ensures { result ≡ spec.factor_names_local (factor_of f.now) }
{
    match f {
        Factor::Number(_) => false,
        Factor::Variable(x) => matches!(x, Variable::Local(_)),
        Factor::Absolute(e) | Factor::Within(e) => sum_names_local(e),
        Factor::Greatest(arguments) | Factor::Least(arguments) => arguments_name_local(arguments),
        Factor::Quotient(x, y) | Factor::Remainder(x, y) => {
            sum_names_local(x) || sum_names_local(y)
        }
        Factor::Attribute { attribute, .. } => subscript_names_local(&attribute.subscript),
        Factor::OwnerKept { set, .. } | Factor::MemberKept { set, .. } => {
            subscript_names_local(&set.subscript)
        }
    }
}

/// Whether a subscript does: the variable of a class is a global one.
#[cycle(sums)]
fn subscript_names_local(subscript: &Subscript) -> bool
    ensures { result ≡ spec.subscript_names_local (subscript_of subscript.now) }
{
    match subscript {
        Subscript::Implied(_) | Subscript::System => false,
        Subscript::Written(e) => sum_names_local(e),
    }
}

/// Whether one of some arguments does.
#[cycle(sums)]
fn arguments_name_local(arguments: &Arguments) -> bool
    ensures { result ≡ (spec.expr_names_local (arguments_of arguments.now).0
        || spec.exprs_name_local (arguments_of arguments.now).1) }
{
    if sum_names_local(&arguments.first) {
        return true;
    }
    for further in &arguments.more {
        if sum_names_local(further) {
            return true;
        }
    }
    false
}

/// Whether the owner of a list does.
fn set_names_local(set: &SetRef) -> bool
    ensures { result ≡ spec.set_names_local set.now }
{
    subscript_names_local(&set.owner.subscript)
}

/// Whether conjunctions joined by OR do.
#[cycle(conditions)]
fn any_names_local(c: &Disjunction) -> bool
    ensures { result ≡ spec.names_local (condition_of c.now) }
{
    if all_name_local(&c.first) {
        return true;
    }
    for further in &c.more {
        if all_name_local(further) {
            return true;
        }
    }
    false
}

/// Whether relations joined by AND do.
#[cycle(conditions)]
fn all_name_local(c: &Conjunction) -> bool
    ensures { result ≡ spec.conjunction_names_local (conjunction_of c.now) }
{
    if relation_names_local(&c.first) {
        return true;
    }
    for further in &c.more {
        if relation_names_local(further) {
            return true;
        }
    }
    false
}

/// Whether a relation does.
#[cycle(conditions)]
fn relation_names_local(r: &Relation) -> bool
    ensures { result ≡ spec.relation_names_local (relation_of r.now) }
{
    match r {
        Relation::Compared { left, right, .. } => {
            sum_names_local(left.sum()) || sum_names_local(right.sum())
        }
        Relation::IsEmpty { set, .. } => set_names_local(set),
        Relation::IsIn { member, set, .. } => {
            sum_names_local(member.sum()) || set_names_local(set)
        }
        Relation::Within(c) => any_names_local(c),
    }
}

/// Whether a condition names a local variable.
pub(crate) fn names_local(condition: &Condition) -> bool
    ensures { result ≡ spec.names_local condition.now }
{
    any_names_local(&condition.any)
}

/// Whether an expression names a local variable.
pub(crate) fn expression_names_local(e: &Expr) -> bool
    ensures { result ≡ spec.expr_names_local e.now }
{
    sum_names_local(e.sum())
}
