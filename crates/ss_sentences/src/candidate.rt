//! The candidates: which words could be at a place of a text.
ghost use Rattle.std.specs.Prelude.{◌≡◌, IfOk, OnOk, All, map};
ghost use Rattle.ss_words.specs.PlainRules.{plain_words_of};
ghost use Rattle.ss_words.specs.Words.{kind_of, name, word_at};
ghost use Rattle.ss_sentences.specs.Candidates as spec;
ghost use Rattle.ss_sentences.specs.Candidates.{IsFitting};
ghost use Rattle.ss_sentences.specs.Grammar.{IsGoing};

use crate::grammar::goes_on;
use crate::pieces::last_kind;
use ss_columns::{SCHEDULING, is_kind_among};
use ss_words::{Name, Sign, Word, WordKind, Words};
use std::alloc::{AllocError, Global};

/// The word that is tried at a place: a given word, or one of a kind of words.
#[derive(Clone, Copy, Debug, PartialEq, Eq)]
pub enum Tried {
    /// A name that is not reserved.
    AName,
    ANumber,
    Sign(Sign),
    /// The reserved word that is printed.
    Reserved,
    /// The article that is printed. It stays only directly after SCHEDULE and CAUSE.
    Article,
}

/// How a candidate is printed, the word that is tried for it, and whether it fits.
#[derive(Clone, Copy, Debug)]
pub struct Judgement {
    pub told: &'static [u8],
    pub tried: Tried,
    pub fits: bool,
}

/// How each candidate is printed, and the word that is tried for it, in this order. There is one
/// candidate for words that mean the same. The definitions read this table too.
pub const CANDIDATES: [(&[u8], Tried); 111] = [
    (b"a name", Tried::AName),
    (b"a number", Tried::ANumber),
    (b"+", Tried::Sign(Sign::Plus)),
    (b"-", Tried::Sign(Sign::Minus)),
    (b"*", Tried::Sign(Sign::Star)),
    (b"(", Tried::Sign(Sign::Open)),
    (b")", Tried::Sign(Sign::Close)),
    (b"a comma", Tried::Sign(Sign::Comma)),
    (b"=", Tried::Sign(Sign::Equal)),
    (b"<", Tried::Sign(Sign::Less)),
    (b">", Tried::Sign(Sign::Greater)),
    (b"<=", Tried::Sign(Sign::LessEqual)),
    (b">=", Tried::Sign(Sign::GreaterEqual)),
    (b"A", Tried::Article),
    (b"THE", Tried::Article),
    (b"PREAMBLE", Tried::Reserved),
    (b"END", Tried::Reserved),
    (b"MAIN", Tried::Reserved),
    (b"ROUTINE", Tried::Reserved),
    (b"EVENT", Tried::Reserved),
    (b"EVENTS", Tried::Reserved),
    (b"EXTERNAL", Tried::Reserved),
    (b"ARE", Tried::Reserved),
    (b"NOTICES", Tried::Reserved),
    (b"PERMANENT", Tried::Reserved),
    (b"TEMPORARY", Tried::Reserved),
    (b"ENTITIES", Tried::Reserved),
    (b"INCLUDE", Tried::Reserved),
    (b"EVERY", Tried::Reserved),
    (b"SYSTEM", Tried::Reserved),
    (b"HAS", Tried::Reserved),
    (b"OWNS", Tried::Reserved),
    (b"BELONGS", Tried::Reserved),
    (b"TO", Tried::Reserved),
    (b"NORMALLY", Tried::Reserved),
    (b"MODE", Tried::Reserved),
    (b"IS", Tried::Reserved),
    (b"INTEGER", Tried::Reserved),
    (b"DEFINE", Tried::Reserved),
    (b"AS", Tried::Reserved),
    (b"VARIABLES", Tried::Reserved),
    (b"FIFO", Tried::Reserved),
    (b"LIFO", Tried::Reserved),
    (b"SETS", Tried::Reserved),
    (b"RANKED", Tried::Reserved),
    (b"BY", Tried::Reserved),
    (b"HIGH", Tried::Reserved),
    (b"LOW", Tried::Reserved),
    (b"THEN", Tried::Reserved),
    (b"PRIORITY", Tried::Reserved),
    (b"ORDER", Tried::Reserved),
    (b"BREAK", Tried::Reserved),
    (b"TIES", Tried::Reserved),
    (b"SAVING", Tried::Reserved),
    (b"GIVEN", Tried::Reserved),
    (b"YIELDING", Tried::Reserved),
    (b"LET", Tried::Reserved),
    (b"ADD", Tried::Reserved),
    (b"SUBTRACT", Tried::Reserved),
    (b"FROM", Tried::Reserved),
    (b"CREATE", Tried::Reserved),
    (b"CALLED", Tried::Reserved),
    (b"DESTROY", Tried::Reserved),
    (b"FILE", Tried::Reserved),
    (b"REMOVE", Tried::Reserved),
    (b"FIRST", Tried::Reserved),
    (b"LAST", Tried::Reserved),
    (b"BEFORE", Tried::Reserved),
    (b"AFTER", Tried::Reserved),
    (b"IN", Tried::Reserved),
    (b"AT", Tried::Reserved),
    (b"IF", Tried::Reserved),
    (b"ELSE", Tried::Reserved),
    (b"ALWAYS", Tried::Reserved),
    (b"FOUND", Tried::Reserved),
    (b"NONE", Tried::Reserved),
    (b"NOT", Tried::Reserved),
    (b"EMPTY", Tried::Reserved),
    (b"AND", Tried::Reserved),
    (b"OR", Tried::Reserved),
    (b"NE", Tried::Reserved),
    (b"FOR", Tried::Reserved),
    (b"BACK", Tried::Reserved),
    (b"REVERSE", Tried::Reserved),
    (b"WITH", Tried::Reserved),
    (b"UNLESS", Tried::Reserved),
    (b"WHILE", Tried::Reserved),
    (b"UNTIL", Tried::Reserved),
    (b"DO", Tried::Reserved),
    (b"LOOP", Tried::Reserved),
    (b"FIND", Tried::Reserved),
    (b"CASE", Tried::Reserved),
    (b"COMPUTE", Tried::Reserved),
    (b"NUMBER", Tried::Reserved),
    (b"SUM", Tried::Reserved),
    (b"MAXIMUM", Tried::Reserved),
    (b"MINIMUM", Tried::Reserved),
    (b"SCHEDULE", Tried::Reserved),
    (b"CANCEL", Tried::Reserved),
    (b"NOW", Tried::Reserved),
    (b"UNITS", Tried::Reserved),
    (b"START", Tried::Reserved),
    (b"SIMULATION", Tried::Reserved),
    (b"STOP", Tried::Reserved),
    (b"CALL", Tried::Reserved),
    (b"RETURN", Tried::Reserved),
    (b"READ", Tried::Reserved),
    (b"PRINT", Tried::Reserved),
    (b"LINES", Tried::Reserved),
    (b"THUS", Tried::Reserved),
    (b"SKIP", Tried::Reserved),
];

/// The word that is tried.
pub fn word_kind(alloc: Global, told: &[u8], tried: Tried) -> Result<WordKind, AllocError>
    ensures { IfOk result (λ kind. kind_of kind ≡ spec.candidate_kind told.now tried) }
{
    match tried {
        Tried::Sign(sign) => Ok(WordKind::Sign(sign)),
        Tried::ANumber => Ok(WordKind::Number(1)),
        Tried::AName => name_of(alloc, b"X"),
        Tried::Reserved | Tried::Article => name_of(alloc, told),
    }
}

fn name_of(alloc: Global, bytes: &[u8]) -> Result<WordKind, AllocError>
    ensures { IfOk result (λ kind. kind_of kind ≡ name bytes.now) }
{
    let bytes = Vec::from_slice(alloc, bytes)?;
    Ok(WordKind::Name(Name::new(alloc, bytes)?))
}

/// Whether the last of these words keeps an article after it.
#[tactic(auto, unfolding(ss_columns::specs::Reserved::scheduling_words))]
pub fn keeps_article(words: &[Word]) -> bool
    ensures { result ≡ spec.keeps_article (map word_at words.now) }
{
    match last_kind(words) {
        Some(kind) => is_kind_among(kind, &SCHEDULING),
        None => false,
    }
}

/// Whether a candidate would be dropped after these words.
pub fn is_dropped(words: &Words, tried: Tried) -> bool
    ensures { result ≡ spec.is_dropped words.now tried }
{
    match tried {
        Tried::Article => !keeps_article(&words.list),
        _ => false,
    }
}

/// Whether a program goes on or ends after these words and the candidate. The words are again as
/// they were, unless memory was refused.
#[tactic(auto, using(crate::proofs::WordLists::pushed))]
fn goes_on_with(
    alloc: Global,
    words: &mut Words,
    told: &[u8],
    tried: Tried,
) -> Result<bool, AllocError>
    ensures same { OnOk result (words.new ≡ words.old) }
    ensures judged { IfOk result (λ goes_on. IsGoing goes_on (plain_words_of
        (spec.with_candidate words.old told.now tried))) }
{
    let line = words.list.len();
    let kind = word_kind(alloc, told, tried)?;
    words.list.push(Word { line, kind })?;
    let goes_on = goes_on(alloc, words)?;
    words.list.truncate(line);
    Ok(goes_on)
}

/// Judges a candidate after these words.
fn judge(alloc: Global, words: &mut Words, told: &[u8], tried: Tried) -> Result<bool, AllocError>
    ensures same { OnOk result (words.new ≡ words.old) }
    ensures judged { IfOk result (λ fits. IsFitting words.old told.now tried fits) }
{
    if is_dropped(words, tried) {
        return Ok(false);
    }
    goes_on_with(alloc, words, told, tried)
}

/// The table of the candidates.
#[tactic(auto, unfolding(crate::specs::Candidates::candidates))]
pub fn candidates() -> &'static [(&'static [u8], Tried)]
    ensures { map (λ row. (row.0.now, row.1)) result.now ≡ spec.candidates }
{
    &CANDIDATES
}

/// Judges each candidate after these words, which are numbered from 0.
pub fn judge_all(alloc: Global, words: &mut Words) -> Result<Vec<Judgement>, AllocError>
    ensures judged { IfOk result
        (λ all. All (λ j. IsFitting words.old j.told.now j.tried j.fits) all.items) }
    ensures complete { IfOk result
        (λ all. map spec.candidate_of all.items ≡ spec.candidates) }
{
    let mut rows = candidates();
    let mut all = Vec::with_capacity(alloc, rows.len())?;
    while let [row, rest @ ..] = rows {
        let (told, tried) = *row;
        let fits = judge(alloc, words, told, tried)?;
        all.push(Judgement { told, tried, fits })?;
        rows = rest;
    }
    Ok(all)
}
