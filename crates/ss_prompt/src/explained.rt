//! The explanation of a refusal of a model by a rule of the checker.
ghost use Rattle.std.specs.Prelude.{◌≡◌, ◌++◌, OnOk};
ghost use Rattle.ss_sentences.specs.Wording.{rule_sentence};
ghost use Rattle.ss_prompt.specs.Explained.{has_blank, rule_line, check_explanation};

use crate::source::{push_marked_line, source_lines};
use ss_check::{CheckRule, Wrong};
use ss_names::push_breach;
use ss_sentences::rule_sentence;
use std::alloc::{AllocError, Global};

/// Whether a sentence has a blank for a word of the model.
fn has_blank(sentence: &[u8]) -> bool
    ensures { result ≡ has_blank sentence.now }
{
    sentence.iter().any(|b| *b == b'{')
}

/// Appends the meaning of a rule, if its sentence has no blank.
fn push_rule(text: &mut Vec<u8>, code: &str) -> Result<(), AllocError>
    ensures { OnOk result (text.new.items
        ≡ text.old.items ++ rule_line code.now (rule_sentence code.now)) }
{
    let sentence = rule_sentence(code);
    if has_blank(sentence) {
        return Ok(());
    }
    text.extend_from_slice(code.as_bytes())?;
    text.extend_from_slice(b": ")?;
    text.extend_from_slice(sentence)?;
    text.extend_from_slice(b"\n")
}

/// A refusal of a model by a rule of the checker at a line, which is counted from 1.
#[derive(Clone, Copy)]
pub struct CheckRefusal<'a> {
    pub rule: CheckRule,
    pub line: usize,
    pub wrong: &'a Wrong,
}

/// Appends the explanation of a refusal of a model by a rule of the checker: the meaning of the
/// rule, the line as it is written, and what is wrong. After `AllocError` a part of it may be
/// there.
pub fn push_check_explanation(
    alloc: Global,
    model: &[u8],
    refusal: CheckRefusal<'_>,
    text: &mut Vec<u8>,
) -> Result<(), AllocError>
    ensures { OnOk result (text.new.items ≡ text.old.items ++ check_explanation model.now
        refusal.entry.rule refusal.entry.line refusal.entry.wrong.now) }
{
    let lines = source_lines(alloc, model)?;
    push_rule(text, refusal.rule.code())?;
    push_marked_line(text, &lines, b"> ", refusal.line)?;
    push_breach(alloc, model, refusal.line, refusal.wrong, text)
}
