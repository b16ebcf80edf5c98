//! Whether words are a program, and whether a program goes on after them.
ghost use Rattle.std.specs.Prelude.{◌≡◌, IfErr, IfOk};
ghost use Rattle.ss_words.specs.PlainRules.{plain_words_of};
ghost use Rattle.ss_sentences.specs.Grammar.{IsFault, IsGoing, IsSpelled};
ghost use Rattle.ss_sentences.specs.Grammar as spec;

use ss_preamble::preamble;
use ss_routines::sections;
use ss_words::{TextFault, TextRule, Words};
use std::alloc::{AllocError, Global};

/// Whether words are a preamble or none, and sections; else why not, with the line of the word at
/// which they are refused.
#[tactic(auto, using(crate::proofs::Parts::parts))]
pub fn spelled(alloc: Global, words: &Words) -> Result<(), TextFault>
    ensures ok { IfOk result (λ _. IsSpelled (plain_words_of words.now)) }
    ensures err { IfErr result (λ fault. IsFault fault (plain_words_of words.now)) }
{
    let (decls, from) = preamble(alloc, words)?;
    drop(decls);
    drop(sections(alloc, words, from)?);
    Ok(())
}

/// Whether the words are a program, or are refused only because they end.
#[tactic(auto, using(crate::proofs::Parts::goings))]
pub fn goes_on(alloc: Global, words: &Words) -> Result<bool, AllocError>
    ensures { IfOk result (λ goes_on. IsGoing goes_on (plain_words_of words.now)) }
{
    match spelled(alloc, words) {
        Ok(()) => Ok(true),
        Err(TextFault::Memory) => Err(AllocError),
        Err(TextFault::Refused { rule, .. }) => Ok(is_end(rule)),
    }
}

/// Whether it is P2.
pub fn is_end(rule: TextRule) -> bool
    ensures { result ≡ spec.is_end rule }
{
    matches!(rule, TextRule::UnexpectedEnd)
}
