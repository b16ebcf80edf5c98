//! The place of a word, by the words before it: whether names are declared there, and of which
//! item, head or statement it is.
ghost use Rattle.std.specs.Prelude.{◌≡◌, map};
ghost use Rattle.ss_words.specs.Plain.{plain_at, plain_of};
ghost use Rattle.ss_names.specs.Here as spec;

use crate::meaning::Meaning;
use ss_words::limits::MOST_PARENTHESES;
use ss_words::{Mark, Plain, PlainWord, Reserved, Sign};

/// The place of a word, by the words before it.
#[derive(Clone, Copy)]
pub struct Here {
    /// Whether the preamble is open.
    pub in_preamble: bool,
    /// The meaning that EVERY and INCLUDE declare.
    pub class: Meaning,
    /// The declared meaning of a name here, if it is declared.
    pub names: Option<Meaning>,
    /// The word that begins the item, head or statement; LET if a name begins it.
    pub begun: Option<Reserved>,
    /// The line on which it begins.
    pub line: usize,
    /// The reserved word or sign directly before, if that is one.
    pub before: Option<Mark>,
    /// The last reserved word.
    pub last: Option<Reserved>,
    /// How many parentheses are open, up to 50.
    pub depth: u32,
}

impl Here {
    /// At the start of a text.
    pub fn at_start() -> Self
        ensures { result ≡ spec.at_start }
    {
        Here {
            in_preamble: false,
            class: Meaning::Class,
            names: None,
            begun: None,
            line: 0,
            before: None,
            last: None,
            depth: 0,
        }
    }

    /// After a further word, which is on this line.
    pub fn behind(self, kind: Plain<'_>, line: usize, rest: &[PlainWord<'_>]) -> Self
        ensures { result ≡ spec.behind self (plain_of kind.entry) line (map plain_at rest.now) }
    {
        match kind {
            Plain::Name(_) => self.behind_name(),
            Plain::Number(_) | Plain::Picture(_) => Here {
                before: None,
                ..self
            },
            Plain::Mark(Mark::Sign(sign)) => self.behind_sign(sign),
            Plain::Mark(Mark::Reserved(word)) => {
                let sets = matches!(word, Reserved::Define) && defines_sets(rest);
                self.behind_reserved(word, line, sets)
            }
        }
    }

    /// At a name on this line: if it is an assignment's first word, that has begun.
    pub fn at_name(self, line: usize) -> Self
        ensures { result ≡ spec.at_name self line }
    {
        if !self.begins_assignment() {
            return self;
        }
        Here {
            names: None,
            begun: Some(Reserved::Let),
            line,
            before: Some(Mark::Reserved(Reserved::Let)),
            last: Some(Reserved::Let),
            ..self
        }
    }

    /// Whether a name here begins an assignment without LET.
    fn begins_assignment(self) -> bool
        ensures { result ≡ spec.begins_assignment self }
    {
        !self.in_preamble && self.depth == 0 && ends_statement(self.before)
    }

    fn behind_name(self) -> Self
        ensures { result ≡ spec.behind_name self }
    {
        Here {
            names: names_behind_name(self.names, self.last),
            before: None,
            ..self
        }
    }

    fn behind_sign(self, sign: Sign) -> Self
        ensures { result ≡ spec.behind_sign self sign }
    {
        Here {
            names: names_behind_sign(self.names, sign),
            before: Some(Mark::Sign(sign)),
            depth: depth_behind(self.depth, sign),
            ..self
        }
    }

    fn behind_reserved(self, word: Reserved, line: usize, sets: bool) -> Self
        ensures { result ≡ spec.behind_reserved self word line sets }
    {
        let begins = begins(word, self.in_preamble, self.before);
        let begun = if begins { Some(word) } else { self.begun };
        let class = class_behind(word, self.class);
        Here {
            in_preamble: opens_preamble(word, self.in_preamble),
            class,
            names: declared_behind(word, self.in_preamble, begun, class, sets),
            begun,
            line: if begins { line } else { self.line },
            before: Some(Mark::Reserved(word)),
            last: Some(word),
            depth: if begins { 0 } else { self.depth },
        }
    }
}

/// Whether a DEFINE before these words is of sets: SETS is among them before VARIABLES and a
/// further DEFINE.
#[tactic(auto, unfolding(crate::specs::Here::defines_sets))]
fn defines_sets(words: &[PlainWord<'_>]) -> bool
    ensures { result ≡ spec.defines_sets (map plain_at words.now) }
{
    let mut rest = words;
    while let [word, behind @ ..] = rest {
        if let Plain::Mark(Mark::Reserved(reserved)) = word.kind() {
            if let Some(sets) = tells_sets(reserved) {
                return sets;
            }
        }
        rest = behind;
    }
    false
}

fn tells_sets(word: Reserved) -> Option<bool>
    ensures { result ≡ spec.tells_sets word }
{
    match word {
        Reserved::Sets => Some(true),
        Reserved::Variables | Reserved::Define => Some(false),
        _ => None,
    }
}

/// Whether a statement, phrase or head can end with this word, so that a name after it begins an
/// assignment: with a name, number, picture or parenthesis, or one of the last words of a form.
fn ends_statement(before: Option<Mark>) -> bool
    ensures { result ≡ spec.ends_statement before }
{
    match before {
        None => true,
        Some(Mark::Sign(sign)) => matches!(sign, Sign::Close),
        Some(Mark::Reserved(word)) => ends_form(word),
    }
}

fn ends_form(word: Reserved) -> bool
    ensures { result ≡ spec.ends_form word }
{
    matches!(
        word,
        Reserved::Return
            | Reserved::Stop
            | Reserved::Always
            | Reserved::Else
            | Reserved::Loop
            | Reserved::Do
            | Reserved::Now
            | Reserved::Days
            | Reserved::Lines
            | Reserved::Case
            | Reserved::Empty
            | Reserved::Found
            | Reserved::NoneFound
            | Reserved::Main
            | Reserved::Simulation
            | Reserved::Notices
            | Reserved::Variables
            | Reserved::Order
    )
}

fn names_behind_name(names: Option<Meaning>, last: Option<Reserved>) -> Option<Meaning>
    ensures { result ≡ spec.names_behind_name names last }
{
    match last {
        Some(Reserved::Every | Reserved::Routine) => None,
        _ => names,
    }
}

fn names_behind_sign(names: Option<Meaning>, sign: Sign) -> Option<Meaning>
    ensures { result ≡ spec.names_behind_sign names sign }
{
    match sign {
        Sign::Comma => names,
        _ => None,
    }
}

pub fn depth_behind(depth: u32, sign: Sign) -> u32
    ensures { result ≡ spec.depth_behind depth sign }
{
    match sign {
        Sign::Open => {
            if depth < MOST_PARENTHESES {
                depth + 1
            } else {
                depth
            }
        }
        Sign::Close => depth.saturating_sub(1),
        _ => depth,
    }
}

/// Whether a word begins an item, a head, a statement or another place: EVENT after SAVING begins
/// none.
fn begins(word: Reserved, in_preamble: bool, before: Option<Mark>) -> bool
    ensures { result ≡ spec.begins word in_preamble before }
{
    if in_preamble {
        return begins_item(word);
    }
    begins_place(word) && !matches!(before, Some(Mark::Reserved(Reserved::Saving)))
}

fn begins_item(word: Reserved) -> bool
    ensures { result ≡ spec.begins_item word }
{
    matches!(
        word,
        Reserved::Normally
            | Reserved::Permanent
            | Reserved::Temporary
            | Reserved::Event
            | Reserved::Every
            | Reserved::System
            | Reserved::Define
            | Reserved::Priority
            | Reserved::Break
            | Reserved::External
            | Reserved::End
    )
}

fn begins_place(word: Reserved) -> bool
    ensures { result ≡ spec.begins_place word }
{
    begins_frame(word) || begins_simple(word) || begins_control(word)
}

/// Whether a word begins a preamble, the head of a section or a DEFINE, or is an END.
fn begins_frame(word: Reserved) -> bool
    ensures { result ≡ spec.begins_frame word }
{
    matches!(
        word,
        Reserved::Preamble
            | Reserved::End
            | Reserved::Main
            | Reserved::Routine
            | Reserved::Event
            | Reserved::Define
    )
}

/// Whether a word begins a statement that holds no other.
fn begins_simple(word: Reserved) -> bool
    ensures { result ≡ spec.begins_simple word }
{
    matches!(
        word,
        Reserved::Let
            | Reserved::Add
            | Reserved::Subtract
            | Reserved::Create
            | Reserved::Destroy
            | Reserved::File
            | Reserved::Remove
            | Reserved::Schedule
            | Reserved::Cancel
            | Reserved::Start
            | Reserved::Stop
            | Reserved::Call
            | Reserved::Return
            | Reserved::Read
            | Reserved::Print
            | Reserved::Skip
    )
}

/// Whether a word begins a place of an IF or a FOR.
fn begins_control(word: Reserved) -> bool
    ensures { result ≡ spec.begins_control word }
{
    matches!(
        word,
        Reserved::If
            | Reserved::Else
            | Reserved::Always
            | Reserved::For
            | Reserved::Loop
            | Reserved::Find
            | Reserved::Compute
    )
}

fn opens_preamble(word: Reserved, in_preamble: bool) -> bool
    ensures { result ≡ spec.opens_preamble word in_preamble }
{
    match word {
        Reserved::Preamble => true,
        Reserved::End => false,
        _ => in_preamble,
    }
}

fn class_behind(word: Reserved, class: Meaning) -> Meaning
    ensures { result ≡ spec.class_behind word class }
{
    match word {
        Reserved::Permanent => Meaning::Permanent,
        Reserved::Temporary => Meaning::Temporary,
        Reserved::Event => Meaning::Event,
        _ => class,
    }
}

/// The declared meaning of names after a word.
fn declared_behind(
    word: Reserved,
    in_preamble: bool,
    begun: Option<Reserved>,
    class: Meaning,
    sets: bool,
) -> Option<Meaning>
    ensures { result ≡ spec.declared_behind word in_preamble begun class sets }
{
    match word {
        Reserved::Routine if !in_preamble => Some(Meaning::Routine),
        _ if !in_preamble => None,
        Reserved::Include | Reserved::Every => Some(class),
        Reserved::Has if matches!(begun, Some(Reserved::System)) => Some(Meaning::Variable),
        Reserved::Has => Some(Meaning::Attribute),
        Reserved::Owns | Reserved::To => Some(Meaning::Set),
        Reserved::Define if sets => Some(Meaning::Set),
        Reserved::Define => Some(Meaning::Variable),
        _ => None,
    }
}
