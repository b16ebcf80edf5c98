//! The findings about an expression in a state.
ghost use Rattle.std.specs.Prelude.{◌≡◌, pos};
ghost use Rattle.ss_program.specs.ProgramExpr.{arguments_of, expr_of, factor_of, subscript_of, term_of};
ghost use Rattle.ss_values.specs.Values.{result_in_range};
ghost use Rattle.ss_state.specs.Readings.{variable_in};
ghost use Rattle.ss_faults.specs.Readings as spec;

use crate::told::Told;
use ss_links::SetBoard;
use ss_machine::Machine;
use ss_program::{
    Arguments, Expr, Factor, Index, MemberKept, Owner, OwnerKept, Subscript, Sum, Term, TermSign,
    Variable,
};
use ss_words::RunFault;

/// The value of a variable in the machine's state, 0 if it has no such variable.
#[tactic(auto, using(crate::proofs::Variables::variables))]
pub fn variable_value<S: SetBoard>(machine: &Machine<S>, variable: Variable) -> i64
    ensures { result ≡ variable_in machine.now.state variable }
{
    machine.known();
    match variable {
        Variable::Clock => machine.clock(),
        Variable::Local(number) => machine.frame_local(0, number).unwrap_or(0),
        Variable::Global(number) => {
            if number < machine.program().globals.len() {
                machine.variable(variable)
            } else {
                0
            }
        }
    }
}

fn number_told(number: u64) -> Told
    ensures { result ≡ spec.number_told (result_in_range (pos number)) }
{
    match i64::try_from(number) {
        Ok(value) => Told::Value(value),
        Err(_) => Told::Unclear,
    }
}

pub fn attribute_told<S: SetBoard>(
    machine: &Machine<S>,
    class: usize,
    attribute: usize,
    number: i64,
) -> Told
    ensures { result ≡ spec.attribute_told machine.now.state class attribute number }
{
    match machine.store().get(class, attribute, number) {
        Ok(value) => Told::Value(value),
        Err(_) => Told::Missing { class, number },
    }
}

/// That the owner that a value names is missing.
fn owner_missing(owner: Owner, number: i64) -> Told
    ensures { result ≡ spec.owner_missing owner number }
{
    match owner {
        Owner::System => Told::Unclear,
        Owner::OwnedBy(class) => Told::Missing { class, number },
    }
}

fn member_read(otherwise: Told, read: Result<Option<u32>, RunFault>) -> Told
    ensures { result ≡ spec.member_read otherwise read }
{
    match read {
        Ok(Some(member)) => Told::Value(i64::from(member)),
        Ok(None) => Told::Value(0),
        Err(_) => otherwise,
    }
}

/// `F.s`, `L.s` or `N.s` of the owner that a value names.
#[tactic(auto, using(crate::proofs::Variables::sets_kept))]
pub fn owner_told<S: SetBoard>(
    machine: &Machine<S>,
    kept: OwnerKept,
    set: usize,
    owner: i64,
) -> Told
    ensures { result
        ≡ spec.owner_told machine.now.input.program machine.now.state kept set owner }
{
    if set >= machine.program().sets.len() {
        return Told::Unclear;
    }
    let missing = owner_missing(machine.program().set_owner(set), owner);
    match kept {
        OwnerKept::First => member_read(missing, machine.store().walk_first(set, owner)),
        OwnerKept::Last => member_read(missing, machine.store().walk_last(set, owner)),
        OwnerKept::Count => {
            match machine.store().count(set, owner) {
                Ok(count) => Told::Value(i64::from(count)),
                Err(_) => missing,
            }
        }
    }
}

/// `P.s`, `S.s` or `M.s` of the member that a value names.
#[tactic(auto, using(crate::proofs::Variables::sets_kept))]
fn member_told<S: SetBoard>(machine: &Machine<S>, kept: MemberKept, set: usize, member: i64) -> Told
    ensures { result
        ≡ spec.member_told machine.now.input.program machine.now.state kept set member }
{
    if set >= machine.program().sets.len() {
        return Told::Unclear;
    }
    let class = machine.program().member_class(set);
    let missing = Told::Missing {
        class,
        number: member,
    };
    match kept {
        MemberKept::Predecessor => member_read(missing, machine.store().predecessor(set, member)),
        MemberKept::Successor => member_read(missing, machine.store().successor(set, member)),
        MemberKept::Membership => {
            match machine.store().membership(set, member) {
                Ok(truth) => Told::Value(i64::from(truth)),
                Err(_) => missing,
            }
        }
    }
}

/// The entity of a class that a value names.
pub fn entity_told<S: SetBoard>(machine: &Machine<S>, class: usize, number: i64) -> Told
    ensures { result ≡ spec.entity_told machine.now.state class number }
{
    if machine.store().exists(class, number) {
        Told::Value(number)
    } else {
        Told::Missing { class, number }
    }
}

/// A value with its sign.
fn signed_value(sign: TermSign, told: Told) -> Told
    ensures { result ≡ spec.signed_value sign told }
{
    match (sign, told) {
        (TermSign::Minus, Told::Value(value)) => {
            match value.checked_neg() {
                Some(negated) => Told::Value(negated),
                None => Told::Unclear,
            }
        }
        (_, other) => other,
    }
}

fn signed_told(sign: Option<TermSign>, first: Told) -> Told
    ensures { result ≡ spec.signed_told sign first }
{
    match sign {
        None => first,
        Some(sign) => signed_value(sign, first),
    }
}

/// The finding about an expression in the machine's state.
pub fn expression_told<S: SetBoard>(machine: &Machine<S>, e: &Expr) -> Told
    ensures { result ≡ spec.told_of machine.now.input.program machine.now.state e.now }
{
    sum_told(machine, e.sum())
}

#[cycle(told)]
fn sum_told<S: SetBoard>(machine: &Machine<S>, e: &Sum) -> Told
    ensures { result ≡ spec.told_of machine.now.input.program machine.now.state (expr_of e.now) }
{
    let mut told = signed_told(e.sign, term_told(machine, &e.first));
    for further in &e.more {
        told = told.and(term_told(machine, &further.term));
    }
    told
}

#[cycle(told)]
fn term_told<S: SetBoard>(machine: &Machine<S>, t: &Term) -> Told
    ensures { result ≡ spec.term_told machine.now.input.program machine.now.state (term_of t.now) }
{
    let mut told = factor_told(machine, &t.first);
    for further in &t.more {
        told = told.and(factor_told(machine, further));
    }
    told
}

#[cycle(told)]
fn factor_told<S: SetBoard>(machine: &Machine<S>, f: &Factor) -> Told
    ensures { result
        ≡ spec.factor_told machine.now.input.program machine.now.state (factor_of f.now) }
{
    match f {
        Factor::Number(number) => number_told(*number),
        Factor::Variable(variable) => Told::Value(variable_value(machine, *variable)),
        Factor::Absolute(e) => sum_told(machine, e).behind(),
        Factor::Greatest(arguments) => arguments_told(machine, arguments),
        Factor::Least(arguments) => arguments_told(machine, arguments),
        Factor::Quotient(e, f) => sum_told(machine, e).and(sum_told(machine, f)),
        Factor::Remainder(e, f) => sum_told(machine, e).and(sum_told(machine, f)),
        Factor::Attribute { class, attribute } => {
            match subscript_told(machine, &attribute.subscript) {
                Told::Value(number) => attribute_told(machine, *class, attribute.number, number),
                Told::Missing { class, number } => Told::Missing { class, number },
                _ => Told::Unclear,
            }
        }
        Factor::OwnerKept { kept, set } => {
            match subscript_told(machine, &set.subscript) {
                Told::Value(number) => owner_told(machine, *kept, set.number, number),
                Told::Missing { class, number } => Told::Missing { class, number },
                _ => Told::Unclear,
            }
        }
        Factor::MemberKept { kept, set } => {
            match subscript_told(machine, &set.subscript) {
                Told::Value(number) => member_told(machine, *kept, set.number, number),
                Told::Missing { class, number } => Told::Missing { class, number },
                _ => Told::Unclear,
            }
        }
        Factor::Within(e) => sum_told(machine, e),
    }
}

#[cycle(told)]
fn subscript_told<S: SetBoard>(machine: &Machine<S>, subscript: &Subscript) -> Told
    ensures { result ≡ spec.subscript_told machine.now.input.program machine.now.state
        (subscript_of subscript.now) }
{
    match subscript {
        Subscript::Implied(number) => {
            Told::Value(variable_value(machine, Variable::Global(*number)))
        }
        Subscript::System => Told::Value(0),
        Subscript::Written(e) => sum_told(machine, e),
    }
}

#[cycle(told)]
fn arguments_told<S: SetBoard>(machine: &Machine<S>, arguments: &Arguments) -> Told
    ensures { result ≡ spec.arguments_told machine.now.input.program machine.now.state
        (spec.behind (spec.told_of machine.now.input.program machine.now.state
        (arguments_of arguments.now).0)) (arguments_of arguments.now).1 }
{
    let mut told = sum_told(machine, &arguments.first).behind();
    for further in &arguments.more {
        told = told.and(sum_told(machine, further));
    }
    told
}

/// The finding about a subscript in the machine's state.
pub fn index_told<S: SetBoard>(machine: &Machine<S>, index: &Index) -> Told
    ensures { result ≡ spec.subscript_told machine.now.input.program machine.now.state index.now }
{
    subscript_told(machine, &index.subscript)
}
