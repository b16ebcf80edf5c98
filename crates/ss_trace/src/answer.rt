//! The answers to questions.
ghost use Rattle.std.specs.Prelude.{◌≡◌, ◌++◌, OnOk, IfOk, Option};
ghost use Rattle.ss_machine.specs.Moment.{position};
ghost use Rattle.ss_trace.specs.Question.{answer_at, with_number, shown_question_text, question_text};

use crate::attribute::push_attribute;
use crate::count::push_count;
use crate::question::Question;
use ss_debug::{Debugger, Question as Shown, push_integer};
use ss_links::SetBoard;
use std::alloc::{AllocError, Global};

/// Appends the answer to a question, in the debugger's present state.
///
/// `AllocError` if a growth was refused; then the appended bytes do not count.
pub fn push_answer<S: SetBoard>(
    debugger: &Debugger<S>,
    question: &Question,
    bytes: &mut Vec<u8>,
) -> Result<(), AllocError>
    ensures { OnOk result (bytes.new.items ≡ bytes.old.items
        ++ answer_at debugger.now.machine.input question.now (position debugger.now.machine)) }
{
    let machine = debugger.machine();
    match question {
        Question::Shown(shown) => {
            let text = debugger.answer_to(shown)?;
            bytes.extend_from_slice(&text)
        }
        Question::Attribute(class, x, name) => {
            push_attribute(bytes, machine, class.as_slice(), *x, name.as_slice())
        }
        Question::Count(name, owner) => push_count(bytes, machine, name.as_slice(), *owner),
    }
}

/// The answer to a question, in the debugger's present state.
pub fn answer_to<S: SetBoard>(
    alloc: Global,
    debugger: &Debugger<S>,
    question: &Question,
) -> Result<Vec<u8>, AllocError>
    ensures { IfOk result (λ text. text.items
        ≡ answer_at debugger.now.machine.input question.now (position debugger.now.machine)) }
{
    if let Question::Shown(shown) = question {
        return debugger.answer_to(shown);
    }
    let mut text = Vec::new(alloc);
    push_answer(debugger, question, &mut text)?;
    Ok(text)
}

/// Appends a name, and a number after a blank if one is given.
fn push_with_number(bytes: &mut Vec<u8>, name: &[u8], number: Option<i64>) -> Result<(), AllocError>
    ensures { OnOk result (bytes.new.items ≡ bytes.old.items ++ with_number name.now number) }
{
    bytes.extend_from_slice(name)?;
    let Some(number) = number else {
        return Ok(());
    };
    bytes.extend_from_slice(b" ")?;
    push_integer(bytes, number)
}

/// Appends a question of the debugger as it is asked.
fn push_shown(shown: &Shown, bytes: &mut Vec<u8>) -> Result<(), AllocError>
    ensures { OnOk result (bytes.new.items ≡ bytes.old.items ++ shown_question_text shown.now) }
{
    match shown {
        Shown::Clock => bytes.extend_from_slice(b"CLOCK"),
        Shown::Where => bytes.extend_from_slice(b"WHERE"),
        Shown::Variable(name) => {
            bytes.extend_from_slice(b"VAR ")?;
            bytes.extend_from_slice(name.as_slice())
        }
        Shown::Entity(name, x) => push_with_number(bytes, name.as_slice(), Some(*x)),
        Shown::Set(name, owner) => {
            bytes.extend_from_slice(b"SET ")?;
            push_with_number(bytes, name.as_slice(), *owner)
        }
        Shown::Events => bytes.extend_from_slice(b"EVENTS"),
        Shown::Taken => bytes.extend_from_slice(b"TAKEN"),
        Shown::Entry => bytes.extend_from_slice(b"ENTRY"),
        Shown::Report => bytes.extend_from_slice(b"REPORT"),
    }
}

/// Appends a question as it is asked, in upper case and least digits.
///
/// `AllocError` if a growth was refused; then the appended bytes do not count.
pub fn push_asked(question: &Question, bytes: &mut Vec<u8>) -> Result<(), AllocError>
    ensures { OnOk result (bytes.new.items ≡ bytes.old.items ++ question_text question.now) }
{
    match question {
        Question::Shown(shown) => push_shown(shown, bytes),
        Question::Attribute(class, x, name) => {
            push_with_number(bytes, class.as_slice(), Some(*x))?;
            bytes.extend_from_slice(b" ")?;
            bytes.extend_from_slice(name.as_slice())
        }
        Question::Count(name, owner) => {
            bytes.extend_from_slice(b"COUNT ")?;
            push_with_number(bytes, name.as_slice(), *owner)
        }
    }
}
