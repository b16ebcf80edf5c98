//! The plain words of a list of words.
ghost use Rattle.std.specs.Prelude.{◌≡◌, ◌+◌, IfOk, map, drop, option_to_list, if◌then◌else◌};
ghost use Rattle.ss_words.specs.Plain.{mark_or_word, plain_at, plains_of};
ghost use Rattle.ss_words.specs.Words.{kind_of};
ghost use Rattle.ss_words.specs.PlainRules as spec;
ghost use Rattle.ss_words.specs.PlainRules.{plain_words_of, follow, ruled_word, unruled_words};
ghost use Rattle.ss_words.specs.PlainRulesView.{rule_of, surroundings_of};

use crate::mark::Mark;
use crate::plain_rules::{Around, Rule, is_governing};
use crate::plain_word::{Plain, PlainWord};
use crate::spelling::reserved;
use crate::word::{WordKind, Words};
use std::alloc::{AllocError, Global};

/// The plain words of the words of a text (docs/LANGUAGE.md, "Plain words"), which borrow the names
/// and pictures from them. The only error is that memory was refused, as it is for 2^32 words or
/// more.
pub fn plain_words<'a>(alloc: Global, words: &'a Words) -> Result<Vec<PlainWord<'a>>, AllocError>
    ensures { IfOk result (λ plain. map plain_at plain.items ≡ plain_words_of words.now) }
{
    let mut plain = spell(alloc, words)?;
    follow(Rule::AsFollows, &mut plain);
    follow(Rule::WithoutFillers, &mut plain);
    follow(Rule::ByGoverningWord, &mut plain);
    follow(Rule::SingleCommas, &mut plain);
    follow(Rule::PartingCommas, &mut plain);
    Ok(plain)
}

fn spell<'a>(alloc: Global, words: &'a Words) -> Result<Vec<PlainWord<'a>>, AllocError>
    ensures { IfOk result (λ plain. map plain_at plain.items ≡ unruled_words words.now) }
{
    let mut plain = Vec::with_capacity(alloc, words.list.len())?;
    for (index, word) in words.list.iter().enumerate() {
        let Ok(index) = u32::try_from(index) else {
            return Err(AllocError);
        };
        let mark = mark_of(&word.kind);
        plain.push(PlainWord { word, index, mark })?;
    }
    Ok(plain)
}

// The reserved word or sign that a word is.
fn mark_of(kind: &WordKind) -> Option<Mark>
    ensures { mark_or_word result (kind_of kind.now) ≡ spec.plain_kind (kind_of kind.now) }
{
    match kind {
        WordKind::Name(name) => reserved(name.bytes()),
        WordKind::Sign(sign) => Some(Mark::Sign(*sign)),
        WordKind::Number(_) | WordKind::Picture(_) => None,
    }
}

// Those that the rule leaves, each as it leaves it, in the place of the words.
fn follow(rule: Rule, words: &mut Vec<PlainWord<'_>>)
    ensures { map plain_at words.new.items ≡ follow (rule_of rule) (map plain_at words.old.items) }
{
    let mut kept = 0;
    let mut before = None;
    let mut governing = None;
    for index in 0..words.len() {
        let word = words[index];
        let mark = word.kind().mark();
        let around = Around {
            before,
            governing,
            behind: mark_at(words, index + 1),
        };
        if let Some(word) = ruled(rule, around, word) {
            words[kept] = word;
            kept += 1;
        }
        before = mark;
        governing = governed_by(mark, governing);
    }
    words.truncate(kept);
}

fn mark_at(words: &[PlainWord<'_>], index: usize) -> Option<Mark>
    ensures { result ≡ spec.beside (plains_of (drop index words.now)) }
{
    match words.get(index) {
        Some(word) => word.kind().mark(),
        None => None,
    }
}

fn governed_by(mark: Option<Mark>, governing: Option<Mark>) -> Option<Mark>
    ensures { result ≡ (if spec.is_governing mark then mark else governing) }
{
    match mark {
        Some(mark) if is_governing(mark) => Some(mark),
        _ => governing,
    }
}

// The result of the rule on the word; `None` if it drops it.
fn ruled<'a>(rule: Rule, around: Around, word: PlainWord<'a>) -> Option<PlainWord<'a>>
    ensures { map plain_at (option_to_list result)
        ≡ ruled_word (rule_of rule) (surroundings_of around) (plain_at word.entry) }
{
    let Plain::Mark(mark) = word.kind() else {
        return Some(word);
    };
    match rule.apply(around, mark) {
        Some(mark) => Some(PlainWord {
            mark: Some(mark),
            ..word
        }),
        None => None,
    }
}
