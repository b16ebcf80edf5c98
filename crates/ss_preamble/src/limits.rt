//! Counting the names and keys that are limited.
ghost use Rattle.std.specs.Prelude.{IfOk, IfSome, IfNone, [], bytes_eq, count_by, ◌≡◌, ◌≤◌, ◌<◌};
ghost use Rattle.std.specs.Prelude.{◌+◌, ◌^◌};
ghost use Rattle.std.specs.List.{list_any};
ghost use Rattle.ss_words.specs.declared.limits.TheConstants.{MOST_VARIABLES};
ghost use Rattle.ss_words.specs.Plain.{plain_of, plains_of};
ghost use Rattle.ss_preamble.specs.Roles as roles;
ghost use Rattle.ss_preamble.specs.WordLimits.{AreWithin};
ghost use Rattle.ss_preamble.specs.Refused.{PassesLimit};
ghost use Rattle.ss_preamble.specs.Limits.{with_name};
ghost use Rattle.ss_preamble.specs.Tally.{counted_view, standing_view, role_view, tally_view, tally_of};
ghost use Rattle.ss_preamble.specs.Tally.{with_role, is_in_room, texts};

use ss_words::limits::{MOST_ATTRIBUTES, MOST_CLASSES, MOST_KEYS, MOST_SETS, MOST_VARIABLES};
use ss_words::{Mark, Plain, PlainWord, Reserved, Sign};
use std::alloc::{AllocError, Global};

/// The limit to which names count.
#[derive(Clone, Copy)]
pub enum CountedKind {
    NoNames,
    /// After INCLUDE and EVERY.
    Classes,
    /// After HAS: attributes of a class, or variables of the system.
    Owned,
    /// After OWNS and BELONGS, and in the DEFINE of sets.
    Sets,
    /// In the DEFINE of variables.
    Variables,
    /// In a ranking.
    Keys,
}

/// The limit to which a word counts, and its name or number.
#[derive(Clone, Copy)]
pub enum Role<'a> {
    Class(&'a [u8]),
    /// An attribute of this class.
    Attribute(&'a [u8]),
    Variable,
    Set(&'a [u8]),
    /// A key and its number in its ranking, from 1.
    Key(usize),
    Nothing,
}

/// The role of the names after a place, by the words before it.
#[derive(Clone, Copy)]
pub struct Standing<'a> {
    pub counted: CountedKind,
    /// The class to which HAS gives attributes; `None` if it gives variables to the system.
    pub owner: Option<&'a [u8]>,
    /// The keys of the ranking so far.
    pub keys: usize,
}

/// The counts of the words so far.
#[derive(Drop)]
pub struct Tally<'a> {
    pub classes: Vec<&'a [u8]>,
    /// The class of each attribute.
    pub attributes: Vec<&'a [u8]>,
    pub variables: usize,
    pub sets: Vec<&'a [u8]>,
}

/// The number of the first of these words that passes a limit; `None` if none does.
#[tactic(auto, using(crate::proofs::PastLimitLoop::past_limits))]
pub fn past_limit(alloc: Global, words: &[PlainWord<'_>]) -> Result<Option<usize>, AllocError>
    ensures none { IfOk result (λ o. IfNone o (AreWithin (roles.roles (plains_of words.now)))) }
    ensures some { IfOk result (λ o. IfSome o (λ k. PassesLimit (plains_of words.now) k)) }
{
    let mut standing = Standing {
        counted: CountedKind::NoNames,
        owner: None,
        keys: 0,
    };
    let mut tally = Tally::new(alloc);
    let mut rest = words;
    while let [word, behind @ ..] = rest {
        let kind = word.kind();
        if !tally.takes(standing.word_role(kind))? {
            return Ok(Some(words.len().saturating_sub(rest.len())));
        }
        standing = standing.behind(kind, behind);
        rest = behind;
    }
    Ok(None)
}

impl<'a> Standing<'a> {
    /// The role of a word.
    fn word_role(&self, word: Plain<'a>) -> Role<'a>
        ensures { role_view result ≡ roles.role (standing_view self.now) (plain_of word.entry) }
    {
        match word {
            Plain::Name(name) => self.name_role(name.bytes()),
            _ => Role::Nothing,
        }
    }

    /// The role of a name.
    fn name_role(&self, name: &'a [u8]) -> Role<'a>
        ensures { role_view result ≡ roles.name_role (standing_view self.now) name.now }
    {
        match self.counted {
            CountedKind::NoNames => Role::Nothing,
            CountedKind::Classes => Role::Class(name),
            CountedKind::Owned => match self.owner {
                Some(class) => Role::Attribute(class),
                None => Role::Variable,
            },
            CountedKind::Sets => Role::Set(name),
            CountedKind::Variables => Role::Variable,
            CountedKind::Keys => Role::Key(self.keys),
        }
    }

    /// The `Standing` after a word that these words follow.
    fn behind(self, word: Plain<'a>, rest: &[PlainWord<'_>]) -> Self
        requires { self.keys < 2 ^ 63 }
        ensures exact { standing_view result
            ≡ roles.behind_word (standing_view self.entry) (plain_of word.entry)
            (plains_of rest.now) }
        ensures keys { result.keys ≤ self.entry.keys + 1 }
    {
        match word {
            Plain::Name(name) => self.behind_name(name.bytes()),
            Plain::Mark(Mark::Reserved(word)) => self.behind_reserved(word, rest),
            _ => self,
        }
    }

    /// The `Standing` after a name: a class is the owner of the names after HAS.
    fn behind_name(self, name: &'a [u8]) -> Self
        ensures exact { standing_view result
            ≡ roles.behind_name (standing_view self.entry) name.now }
        ensures keys { result.keys ≡ self.entry.keys }
    {
        match self.counted {
            CountedKind::Classes => Standing {
                owner: Some(name),
                ..self
            },
            _ => self,
        }
    }

    /// The `Standing` after a reserved word that these words follow.
    fn behind_reserved(self, word: Reserved, rest: &[PlainWord<'_>]) -> Self
        requires { self.keys < 2 ^ 63 }
        ensures exact { standing_view result
            ≡ roles.behind_reserved (standing_view self.entry) word (plains_of rest.now) }
        ensures keys { result.keys ≤ self.entry.keys + 1 }
    {
        match word {
            Reserved::Include | Reserved::Every => self.counting(CountedKind::Classes),
            Reserved::System => Standing {
                counted: CountedKind::NoNames,
                owner: None,
                ..self
            },
            Reserved::Has => self.counting(CountedKind::Owned),
            Reserved::Owns | Reserved::Belongs => self.counting(CountedKind::Sets),
            Reserved::Define => self.counting(kind_behind_define(rest)),
            Reserved::Priority | Reserved::Break | Reserved::External => {
                self.counting(CountedKind::NoNames)
            }
            Reserved::Ranked | Reserved::Ties => Standing {
                counted: CountedKind::Keys,
                keys: 0,
                ..self
            },
            Reserved::By => Standing {
                keys: self.keys + 1,
                ..self
            },
            _ => self,
        }
    }

    /// The `Standing` with this limit for names, and otherwise unchanged.
    fn counting(self, counted: CountedKind) -> Self
        ensures { result ≡ record self.entry { counted = counted } }
    {
        Standing { counted, ..self }
    }
}

/// The limit of the names of a DEFINE, by the words after it: the word after AS decides.
fn kind_behind_define(words: &[PlainWord<'_>]) -> CountedKind
    ensures { counted_view result ≡ roles.kind_behind_define (plains_of words.now) }
{
    let mut rest = words;
    while let [word, behind @ ..] = rest {
        match word.kind() {
            Plain::Name(_) | Plain::Mark(Mark::Sign(Sign::Comma)) => rest = behind,
            Plain::Mark(Mark::Reserved(Reserved::As)) => return kind_behind_as(behind),
            _ => return CountedKind::NoNames,
        }
    }
    CountedKind::NoNames
}

/// The limit of the names of a DEFINE, if these words are after AS.
fn kind_behind_as(words: &[PlainWord<'_>]) -> CountedKind
    ensures { counted_view result ≡ roles.kind_behind_as (plains_of words.now) }
{
    match words {
        [word, ..] => kind_by_word(word.kind()),
        [] => CountedKind::NoNames,
    }
}

/// The limit of the names of a DEFINE, if this word is after AS.
fn kind_by_word(word: Plain<'_>) -> CountedKind
    ensures { counted_view result ≡ roles.kind_by_word (plain_of word.entry) }
{
    match word {
        Plain::Mark(Mark::Reserved(Reserved::Integer)) => CountedKind::Variables,
        Plain::Mark(Mark::Reserved(Reserved::Fifo | Reserved::Lifo | Reserved::Sets)) => {
            CountedKind::Sets
        }
        _ => CountedKind::NoNames,
    }
}

impl<'a> Tally<'a> {
    fn new(alloc: Global) -> Self
        ensures { tally_view result ≡ tally_of [] }
    {
        Tally {
            classes: Vec::new(alloc),
            attributes: Vec::new(alloc),
            variables: 0,
            sets: Vec::new(alloc),
        }
    }

    /// Counts this too, and says whether it is within its limit.
    fn takes(&mut self, role: Role<'a>) -> Result<bool, AllocError>
        requires { self.now.variables ≤ MOST_VARIABLES }
        ensures exact { IfOk result
            (λ b. tally_view self.new ≡ with_role (tally_view self.old) (role_view role.entry)) }
        ensures fits { IfOk result
            (λ b. b ≡ is_in_room (tally_view self.new) (role_view role.entry)) }
    {
        Ok(match role {
            Role::Class(name) => {
                add(&mut self.classes, name)?;
                self.classes.len() <= MOST_CLASSES
            }
            Role::Attribute(class) => {
                self.attributes.push(class)?;
                count(&self.attributes, class) <= MOST_ATTRIBUTES
            }
            Role::Variable => {
                self.variables += 1;
                self.variables <= MOST_VARIABLES
            }
            Role::Set(name) => {
                add(&mut self.sets, name)?;
                self.sets.len() <= MOST_SETS
            }
            Role::Key(number) => number <= MOST_KEYS,
            Role::Nothing => true,
        })
    }
}

/// Pushes a name that is not among these.
#[tactic(auto, using(crate::proofs::Texts::added, crate::proofs::Texts::kept))]
fn add<'a>(names: &mut Vec<&'a [u8]>, name: &'a [u8]) -> Result<(), AllocError>
    ensures { IfOk result
        (λ _. texts names.new.items ≡ with_name (texts names.old.items) name.now) }
{
    if !is_among(names, name) {
        names.push(name)?;
    }
    Ok(())
}

/// Whether a name is among these.
fn is_among(names: &[&[u8]], name: &[u8]) -> bool
    ensures { result ≡ list_any (λ other. bytes_eq name.now other.now) names.now }
{
    names.iter().any(|other| name == *other)
}

/// How often a name is among these.
fn count(names: &[&[u8]], name: &[u8]) -> usize
    ensures { result ≡ count_by (bytes_eq name.now) (texts names.now) }
{
    names.iter().filter(|other| name == **other).count()
}
