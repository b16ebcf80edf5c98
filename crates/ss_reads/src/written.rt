//! The text of a reference, as the program has it.
ghost use Rattle.std.specs.Prelude.{◌≡◌, ◌++◌, OnOk, codes};
ghost use Rattle.ss_program.specs.ProgramExpr.{expr_of, term_of, factor_of, subscript_of, arguments_of};
ghost use Rattle.ss_reads.specs.Written as spec;

use crate::part::Item;
use ss_debug::push_number;
use ss_program::{
    Arguments, Factor, MemberKept, OwnerKept, Program, Subscript, Sum, Term, TermSign, Variable,
    name_at,
};
use std::alloc::AllocError;

/// The name of a variable of a section.
pub fn variable_name(program: &Program, section: usize, variable: Variable) -> &[u8]
    ensures { result.now ≡ spec.variable_name program.now section variable }
{
    match variable {
        Variable::Global(number) => name_at(&program.globals, number),
        Variable::Local(number) => name_at(program.locals(section), number),
        Variable::Clock => b"TIME.V",
    }
}

/// The head of the name of an attribute that a set keeps of its owner.
fn owner_head(kept: OwnerKept) -> &'static [u8]
    ensures { result.now ≡ spec.owner_head kept }
{
    match kept {
        OwnerKept::First => b"F.",
        OwnerKept::Last => b"L.",
        OwnerKept::Count => b"N.",
    }
}

/// The head of the name of an attribute that a set keeps of its members.
fn member_head(kept: MemberKept) -> &'static [u8]
    ensures { result.now ≡ spec.member_head kept }
{
    match kept {
        MemberKept::Predecessor => b"P.",
        MemberKept::Successor => b"S.",
        MemberKept::Membership => b"M.",
    }
}

/// Appends the name of an item.
pub fn push_item(text: &mut Vec<u8>, program: &Program, item: Item) -> Result<(), AllocError>
    ensures { OnOk result (text.new.items
        ≡ text.old.items ++ spec.item_name program.now item) }
{
    match item {
        Item::Attribute { class, attribute } => {
            text.extend_from_slice(name_at(program.attributes(class), attribute))
        }
        Item::OwnerKept { kept, set } => {
            text.extend_from_slice(owner_head(kept))?;
            text.extend_from_slice(program.set_name(set))
        }
        Item::MemberKept { kept, set } => {
            text.extend_from_slice(member_head(kept))?;
            text.extend_from_slice(program.set_name(set))
        }
        Item::Members { set } => text.extend_from_slice(program.set_name(set)),
    }
}

/// The sign at the head of an expression.
fn sign_text(sign: Option<TermSign>) -> &'static [u8]
    ensures { result.now ≡ spec.sign_text sign }
{
    match sign {
        None => b"",
        Some(TermSign::Plus) => b"+",
        Some(TermSign::Minus) => b"-",
    }
}

/// The sign between two terms.
fn join_text(sign: TermSign) -> &'static [u8]
    ensures { result.now ≡ spec.join_text sign }
{
    match sign {
        TermSign::Plus => b" + ",
        TermSign::Minus => b" - ",
    }
}

#[cycle(written)]
fn push_sum(
    text: &mut Vec<u8>,
    program: &Program,
    section: usize,
    e: &Sum,
) -> Result<(), AllocError>
    ensures { OnOk result (text.new.items
        ≡ text.old.items ++ spec.expr_text program.now section (expr_of e.now)) }
{
    text.extend_from_slice(sign_text(e.sign))?;
    push_term(text, program, section, &e.first)?;
    for further in &e.more {
        text.extend_from_slice(join_text(further.sign))?;
        push_term(text, program, section, &further.term)?;
    }
    Ok(())
}

#[cycle(written)]
fn push_term(
    text: &mut Vec<u8>,
    program: &Program,
    section: usize,
    t: &Term,
) -> Result<(), AllocError>
    ensures { OnOk result (text.new.items
        ≡ text.old.items ++ spec.term_text program.now section (term_of t.now)) }
{
    push_factor(text, program, section, &t.first)?;
    for further in &t.more {
        text.extend_from_slice(b" * ")?;
        push_factor(text, program, section, further)?;
    }
    Ok(())
}

/// Appends an expression and the end of its parentheses.
#[cycle(written)]
fn push_closed(
    text: &mut Vec<u8>,
    program: &Program,
    section: usize,
    e: &Sum,
) -> Result<(), AllocError>
    ensures { OnOk result (text.new.items ≡ text.old.items
        ++ (spec.expr_text program.now section (expr_of e.now) ++ codes ")")) }
{
    push_sum(text, program, section, e)?;
    text.extend_from_slice(b")")
}

/// Appends further arguments, each after a comma.
#[cycle(written)]
fn push_arguments(
    text: &mut Vec<u8>,
    program: &Program,
    section: usize,
    arguments: &Arguments,
) -> Result<(), AllocError>
    ensures { OnOk result (text.new.items ≡ text.old.items
        ++ (spec.expr_text program.now section (arguments_of arguments.now).0
        ++ spec.exprs_text program.now section (arguments_of arguments.now).1)) }
{
    push_sum(text, program, section, &arguments.first)?;
    for further in &arguments.more {
        text.extend_from_slice(b", ")?;
        push_sum(text, program, section, further)?;
    }
    Ok(())
}

/// Appends arguments and the end of their parentheses.
#[cycle(written)]
fn push_function(
    text: &mut Vec<u8>,
    program: &Program,
    section: usize,
    arguments: &Arguments,
) -> Result<(), AllocError>
    ensures { OnOk result (text.new.items ≡ text.old.items
        ++ (spec.expr_text program.now section (arguments_of arguments.now).0
        ++ (spec.exprs_text program.now section (arguments_of arguments.now).1 ++ codes ")"))) }
{
    push_arguments(text, program, section, arguments)?;
    text.extend_from_slice(b")")
}

#[cycle(written)]
fn push_factor(
    text: &mut Vec<u8>,
    program: &Program,
    section: usize,
    f: &Factor,
) -> Result<(), AllocError>
    ensures { OnOk result (text.new.items
        ≡ text.old.items ++ spec.factor_text program.now section (factor_of f.now)) }
{
    match f {
        Factor::Number(n) => push_number(text, *n),
        Factor::Variable(x) => text.extend_from_slice(variable_name(program, section, *x)),
        Factor::Absolute(e) => {
            text.extend_from_slice(b"ABS.F(")?;
            push_closed(text, program, section, e)
        }
        Factor::Greatest(arguments) => {
            text.extend_from_slice(b"MAX.F(")?;
            push_function(text, program, section, arguments)
        }
        Factor::Least(arguments) => {
            text.extend_from_slice(b"MIN.F(")?;
            push_function(text, program, section, arguments)
        }
        Factor::Quotient(x, y) => {
            text.extend_from_slice(b"DIV.F(")?;
            push_sum(text, program, section, x)?;
            text.extend_from_slice(b", ")?;
            push_closed(text, program, section, y)
        }
        Factor::Remainder(x, y) => {
            text.extend_from_slice(b"MOD.F(")?;
            push_sum(text, program, section, x)?;
            text.extend_from_slice(b", ")?;
            push_closed(text, program, section, y)
        }
        Factor::Attribute { class, attribute } => {
            let item = Item::Attribute {
                class: *class,
                attribute: attribute.number,
            };
            push_reference(text, program, section, item, &attribute.subscript)
        }
        Factor::OwnerKept { kept, set } => {
            let item = Item::OwnerKept {
                kept: *kept,
                set: set.number,
            };
            push_reference(text, program, section, item, &set.subscript)
        }
        Factor::MemberKept { kept, set } => {
            let item = Item::MemberKept {
                kept: *kept,
                set: set.number,
            };
            push_reference(text, program, section, item, &set.subscript)
        }
        Factor::Within(e) => {
            text.extend_from_slice(b"(")?;
            push_closed(text, program, section, e)
        }
    }
}

/// Appends a subscript as it is written.
#[cycle(written)]
fn push_subscript(
    text: &mut Vec<u8>,
    program: &Program,
    section: usize,
    subscript: &Subscript,
) -> Result<(), AllocError>
    ensures { OnOk result (text.new.items ≡ text.old.items
        ++ spec.subscript_text program.now section (subscript_of subscript.now)) }
{
    match subscript {
        Subscript::Implied(_) | Subscript::System => Ok(()),
        Subscript::Written(e) => {
            text.extend_from_slice(b"(")?;
            push_closed(text, program, section, e)
        }
    }
}

/// Appends an item with a subscript, as it is written.
#[cycle(written)]
pub fn push_reference(
    text: &mut Vec<u8>,
    program: &Program,
    section: usize,
    item: Item,
    subscript: &Subscript,
) -> Result<(), AllocError>
    ensures { OnOk result (text.new.items ≡ text.old.items
        ++ spec.reference_text program.now section item (subscript_of subscript.now)) }
{
    push_item(text, program, item)?;
    push_subscript(text, program, section, subscript)
}
