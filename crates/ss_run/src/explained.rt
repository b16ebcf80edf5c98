//! The explanation after the line of a fault, or of a refused model.
ghost use Rattle.std.specs.Prelude.{◌≡◌, ◌++◌, OnOk, IfOk};
ghost use Rattle.ss_run.specs.Explained.{end_explanation, rule_line, without_return, line_of_text};
ghost use Rattle.ss_run.specs.Explained.{refusal_explanation};

use itoa::Buffer;
use ss_check::Wrong;
use ss_debug::split_line;
use ss_faults::push_fault_sentence;
use ss_links::SetBoard;
use ss_machine::Machine;
use ss_names::push_breach;
use ss_sentences::rule_sentence;
use std::alloc::{AllocError, Global};

/// The text after the state line of the last state of a run over this text of its data: if that
/// state is faulted, the fault's sentence, the parts that it is about, and the piece of the data.
#[tactic(auto, unfolding(crate::specs::Explained::end_explanation))]
pub fn end_explanation<S: SetBoard>(
    alloc: Global,
    machine: &Machine<S>,
    data_text: &[u8],
) -> Result<Vec<u8>, AllocError>
    ensures { IfOk result (λ text. text.items
        ≡ end_explanation machine.now.input.program data_text.now machine.now.state) }
{
    let mut text = Vec::new(alloc);
    push_fault_sentence(alloc, machine, Some(data_text), &mut text)?;
    Ok(text)
}

/// Appends the sentence of a rule after its code.
fn push_rule_line(text: &mut Vec<u8>, code: &str) -> Result<(), AllocError>
    ensures { OnOk result (text.new.items ≡ text.old.items ++ rule_line code.now) }
{
    text.extend_from_slice(code.as_bytes())?;
    text.extend_from_slice(b": ")?;
    text.extend_from_slice(rule_sentence(code))?;
    text.extend_from_slice(b"\n")
}

/// A line without the carriage return at its end.
fn without_return(line: &[u8]) -> &[u8]
    ensures { result.now ≡ without_return line.now }
{
    if !line.is_empty() && line[line.len() - 1] == b'\r' {
        return &line[..line.len() - 1];
    }
    line
}

/// Line `number` of a text, the first of which is line 1; nothing if there is none.
fn line_of_text(text: &[u8], number: usize) -> &[u8]
    ensures { result.now ≡ line_of_text text.now number }
{
    let before = number.saturating_sub(1);
    let mut rest = text;
    for _k in 0..before {
        let (_, more) = split_line(rest);
        rest = more;
    }
    let (line, _) = split_line(rest);
    without_return(line)
}

/// The text after the line of a model that is refused by the rule of the checker with this code at
/// this line: the rule's sentence, the line of the model after its number, and what is wrong.
#[tactic(auto, unfolding(crate::specs::Explained::refusal_explanation))]
pub fn rule_explanation(
    alloc: Global,
    model: &[u8],
    code: &str,
    line: usize,
    wrong: &Wrong,
) -> Result<Vec<u8>, AllocError>
    ensures { IfOk result
        (λ text. text.items ≡ refusal_explanation model.now code.now line wrong.now) }
{
    let mut buffer = Buffer::new();
    let mut text = Vec::new(alloc);
    push_rule_line(&mut text, code)?;
    text.extend_from_slice(buffer.format(line).as_bytes())?;
    text.extend_from_slice(b"> ")?;
    text.extend_from_slice(line_of_text(model, line))?;
    text.extend_from_slice(b"\n")?;
    push_breach(alloc, model, line, wrong, &mut text)?;
    Ok(text)
}
