//! The kind of a name, and the text that says it.
ghost use Rattle.std.specs.Prelude.{◌≡◌, ◌++◌, map, OnOk};
ghost use Rattle.ss_names.specs.Known as spec;
ghost use Rattle.ss_names.specs.Known.{known_at};

use crate::declarations::Declarations;
use crate::language::{CLOCK, COMPANIONS, FUNCTIONS};
use crate::meaning::Meaning;
use itoa::Buffer;
use ss_columns::is_among;
use std::alloc::AllocError;

/// The beginning of the name of the count of a permanent class. The definitions read it too.
pub const OF_CLASS: [&[u8]; 1] = [b"N."];

/// The kind of a name.
#[derive(Clone, Copy)]
pub enum What {
    /// No declaration gives it: in a section, a local variable.
    Undeclared,
    Declared(Meaning),
    /// Kept of the owners or members of a set.
    OfSet,
    /// The count of a permanent class, `N.class`.
    Count,
    Clock,
    Function,
}

/// The kind of a name, its class or set, and the line of its declaration: 0 if there is none.
#[derive(Clone, Copy)]
pub struct Known<'a> {
    pub what: What,
    pub of: &'a [u8],
    pub line: usize,
}

/// A kind without a class, a set or a line.
fn plainly<'a>(what: What) -> Known<'a>
    ensures { known_at result ≡ spec.plainly what }
{
    Known {
        what,
        of: b"",
        line: 0,
    }
}

/// The kind of a name that begins like the names that are kept of a set or class.
fn companion<'a>(declarations: &Declarations<'a>, name: &[u8]) -> Known<'a>
    ensures { known_at result ≡ spec.companion declarations.now name.now }
{
    if name.len() < 3 {
        return plainly(What::Undeclared);
    }
    match declarations.get(&name[2..]) {
        Some(row) => Known {
            what: companion_what(&name[..2], row.meaning),
            of: row.name,
            line: row.line,
        },
        None => plainly(What::Undeclared),
    }
}

/// The kind of a name that begins so, before a name of this meaning.
fn companion_what(front: &[u8], meaning: Meaning) -> What
    ensures { result ≡ spec.companion_what front.now meaning }
{
    match meaning {
        Meaning::Set if is_among(front, &COMPANIONS) => What::OfSet,
        Meaning::Permanent if is_among(front, &OF_CLASS) => What::Count,
        _ => What::Undeclared,
    }
}

/// The kind that the language, a set or a class gives a name, whatever else it is declared as.
pub fn given<'a>(declarations: &Declarations<'a>, name: &[u8]) -> Known<'a>
    ensures { known_at result ≡ spec.knowledge_given declarations.now name.now }
{
    if is_among(name, &CLOCK) {
        return plainly(What::Clock);
    }
    if is_among(name, &FUNCTIONS) {
        return plainly(What::Function);
    }
    companion(declarations, name)
}

/// The kind of a name: by its own declaration, if it has one, or else the given kind.
pub fn known_as<'a>(declarations: &Declarations<'a>, name: &[u8]) -> Known<'a>
    ensures { known_at result ≡ spec.knowledge_of declarations.now name.now }
{
    match declarations.get(name) {
        Some(row) => Known {
            what: What::Declared(row.meaning),
            of: row.of,
            line: row.line,
        },
        None => given(declarations, name),
    }
}

/// The text for a meaning.
fn meaning_text(meaning: Meaning) -> &'static [u8]
    ensures { result.now ≡ spec.meaning_text meaning }
{
    match meaning {
        Meaning::Class => b"a class under no heading",
        Meaning::Permanent => b"a class of permanent entities",
        Meaning::Temporary => b"a class of temporary entities",
        Meaning::Event => b"a class of event notices",
        Meaning::Attribute => b"an attribute of ",
        Meaning::Variable => b"a variable",
        Meaning::Set => b"a set",
        Meaning::Routine => b"a routine",
    }
}

/// The text for a kind, before its class or set.
fn what_text(what: What) -> &'static [u8]
    ensures { result.now ≡ spec.what_text what }
{
    match what {
        What::Undeclared => b"declared nowhere",
        What::Declared(meaning) => meaning_text(meaning),
        What::OfSet => b"kept of the set ",
        What::Count => b"the count of the class ",
        What::Clock => b"the clock",
        What::Function => b"a function of the language",
    }
}

/// Whether the text for a kind gives its class or set.
fn tells_of(what: What) -> bool
    ensures { result ≡ spec.tells_of what }
{
    matches!(
        what,
        What::Declared(Meaning::Attribute) | What::OfSet | What::Count
    )
}

/// Appends the kind of a name, its class or set, and the line of its declaration, if it has one.
pub fn push_known(text: &mut Vec<u8>, known: Known<'_>) -> Result<(), AllocError>
    ensures { OnOk result (text.new.items
        ≡ text.old.items ++ spec.known_text (known_at known.entry)) }
{
    text.extend_from_slice(what_text(known.what))?;
    if tells_of(known.what) {
        text.extend_from_slice(known.of)?;
    }
    push_declared_line(text, known.line)
}

/// Appends the line of a declaration, if there is one.
fn push_declared_line(text: &mut Vec<u8>, line: usize) -> Result<(), AllocError>
    ensures { OnOk result (text.new.items ≡ text.old.items ++ spec.line_text line) }
{
    if line == 0 {
        return Ok(());
    }
    let mut buffer = Buffer::new();
    text.extend_from_slice(b", line ")?;
    text.extend_from_slice(buffer.format(line).as_bytes())
}
