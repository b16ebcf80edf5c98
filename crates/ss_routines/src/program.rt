//! Reading the sections of a program.

ghost use Rattle.std.specs.Prelude.{IfOk, IfErr, List, [], length, map, ◌≡◌, ◌≤◌, ◌<◌, ◌-◌, ◌∷◌, ◌++◌, Ok};
ghost use Rattle.ss_words.specs.declared.mark.Mark.TheVariants as m;
ghost use Rattle.ss_words.specs.declared.reserved.Reserved.TheVariants as r;
ghost use Rattle.ss_words.specs.Marks.{expect};
ghost use Rattle.ss_words.specs.Plain.{plain_at, plains_of, word_lines};
ghost use Rattle.ss_words.specs.PlainRules.{plain_words_of};
ghost use Rattle.ss_words.specs.Noting.{here, line, repeat};
ghost use Rattle.ss_words.specs.Reading.{Fails, Gives, bind, pure, whole};
ghost use Rattle.ss_routines.specs.Places as p;
ghost use Rattle.ss_routines.specs.PlacesAtLines as places;
ghost use Rattle.ss_routines.specs.Refused.{AreSections, IsFault, words_from};
ghost use Rattle.ss_routines.specs.View.{local_view, section_view, spots};

use crate::reading::block::{Room, block};
use crate::reading::head::{SectionHead, begins, head, local_list};
use crate::reading::noted::end;
use crate::tree::place::Spot;
use crate::tree::section::{LocalNames, Section, Sections};
use ss_words::limits::{MOST_IFS, MOST_PARENTHESES, MOST_PHRASES, MOST_SECTIONS};
use ss_words::{Cursor, PlainWord, Refusal, TextFault, TextRule, Words, plain_words};
use std::alloc::Global;

/// A section's list has room for one place per this number of words that are left, from its start.
/// It is then not moved as it grows, which would take its size once more.
const WORDS_OF_A_PLACE: usize = 5;

/// The local DEFINEs and the places of a section, up to its END, after its head:
/// `{DEFINE names AS INTEGER VARIABLES} {statement} END`
#[tactic(auto, unfolding(crate::proofs::Notings::at_lines))]
fn body(
    cursor: &mut Cursor<'_>,
    text: &[PlainWord<'_>],
) -> Result<(Vec<LocalNames>, Vec<Spot>), Refusal>
    ensures exact { Gives {Y = List p.LocalNames × List p.Spot}
        (λ x. (map local_view x.0.items, spots x.1.items))
        result cursor.new (bind (repeat (places.noting_local (word_lines text.now)) []) (λ ls.
        bind (places.limited_statements (word_lines text.now) []) (λ ps.
        here (word_lines text.now) (λ j. bind (expect (m.Reserved r.End))
        (λ u. pure (ls, ps ++ places.noted_at j p.EndOfSection ∷ []))))) cursor.old) }
    ensures shorter { length cursor.new ≤ length cursor.old }
{
    let mut locals = Vec::new(cursor.alloc());
    local_list(cursor, text, &mut locals)?;
    let room = Room {
        parentheses: MOST_PARENTHESES,
        ifs: MOST_IFS,
        phrases: MOST_PHRASES,
    };
    let mut places = Vec::with_capacity(cursor.alloc(), cursor.len() / WORDS_OF_A_PLACE)?;
    block(cursor, text, room, &mut places)?;
    end(cursor, text, &mut places)?;
    places.shrink_to_fit();
    Ok((locals, places))
}

/// A section, up to its END: `head {DEFINE names AS INTEGER VARIABLES} {statement} END`
#[tactic(auto, unfolding(crate::proofs::Notings::at_lines, crate::specs::PlacesAtLines::noting_section))]
fn section(cursor: &mut Cursor<'_>, text: &[PlainWord<'_>]) -> Result<Section, Refusal>
    ensures exact { Gives section_view result cursor.new
        (places.limited_section (word_lines text.now) cursor.old) }
    ensures shorter { length cursor.new ≤ length cursor.old }
    ensures taken { IfOk result (λ _. length cursor.new < length cursor.old) }
{
    let line = cursor.line(text);
    let SectionHead { kind, name } = head(cursor)?;
    let (locals, places) = body(cursor, text)?;
    Ok(Section {
        line,
        kind,
        name,
        locals,
        places,
    })
}

/// Reads sections, as long as one begins.
fn section_list(cursor: &mut Cursor<'_>, text: &[PlainWord<'_>]) -> Result<Vec<Section>, Refusal>
    ensures exact { Gives (λ v. map section_view v.items) result cursor.new
        (places.limited_sections (word_lines text.now) cursor.old) }
    ensures shorter { length cursor.new ≤ length cursor.old }
{
    let mut list = Vec::new(cursor.alloc());
    while begins(cursor) {
        if list.len() == MOST_SECTIONS {
            return Err(Refusal::PastLimit);
        }
        list.push(section(cursor, text)?)?;
    }
    Ok(list)
}

/// The sections that the text is made of, and nothing else.
#[tactic(auto, unfolding(crate::proofs::Unfoldings::whole_text))]
fn whole_text(cursor: &mut Cursor<'_>, text: &[PlainWord<'_>]) -> Result<Vec<Section>, Refusal>
    ensures exact { Gives (λ v. map section_view v.items) result cursor.new
        (whole (places.limited_sections (word_lines text.now)) cursor.old) }
    ensures shorter { length cursor.new ≤ length cursor.old }
{
    let list = section_list(cursor, text)?;
    if !cursor.is_empty() {
        return Err(Refusal::Unexpected);
    }
    Ok(list)
}

/// The fault of a text, by the refusal of its reading at the word that the cursor has reached. A
/// refusal of the text's end is reported at the last word. A limit that the last word passes is
/// reported there too, since no program ends with that word.
fn fault(refusal: Refusal, cursor: &Cursor<'_>, text: &[PlainWord<'_>]) -> TextFault
    requires { Fails refusal cursor.now
        (whole (places.limited_sections (word_lines text.now)) (plains_of text.now)) }
    ensures { IsFault result (map plain_at text.now) }
{
    let left = cursor.len();
    let (rule, line) = match refusal {
        Refusal::Memory => return TextFault::Memory,
        Refusal::Unexpected if left > 0 => (TextRule::UnexpectedWord, cursor.line(text)),
        Refusal::PastLimit if left > 1 => (TextRule::PastLimit, cursor.line(text)),
        _ => (TextRule::UnexpectedEnd, last_line(text)),
    };
    TextFault::Refused { rule, line }
}

/// The line of the last word; 0 if there is none.
fn last_line(text: &[PlainWord<'_>]) -> usize
    ensures { result ≡ line (word_lines text.now) (length text.now - 1) }
{
    match text.last() {
        Some(word) => word.line(),
        None => 0,
    }
}

/// The sections that these plain words spell.
fn read(alloc: Global, text: &[PlainWord<'_>]) -> Result<Sections, TextFault>
    ensures sections { IfOk result (λ s. AreSections s (map plain_at text.now)) }
    ensures refused { IfErr result (λ f. IsFault f (map plain_at text.now)) }
{
    let mut cursor = Cursor::new(alloc, text);
    match whole_text(&mut cursor, text) {
        Ok(list) => Ok(Sections::new(list)),
        Err(refusal) => Err(fault(refusal, &cursor, text)),
    }
}

/// The sections of a program (docs/LANGUAGE.md, "Sections"), from its plain words: those that come
/// from the words with number `from` and above, counted from 0. The words are left as they are. If
/// no plain word comes from word `from` or a later one, the answer is `Ok` without sections.
///
/// # Errors
///
/// - P1 at the word with which no program goes on, P2 at the last word if the text ends and no
///   program ends there, P3 at the word that passes a limit of [`ss_words::limits`]: on the
///   parentheses, IFs and FOR phrases open at once, a section's parameters or the sections. If
///   several of them hold, the earliest word counts, then the lowest number (docs/LANGUAGE.md,
///   "Refusals of the grammar").
/// - `Memory` if memory was refused.
pub fn sections(alloc: Global, words: &Words, from: usize) -> Result<Sections, TextFault>
    // The words spell one program within the limits, and these are its sections.
    ensures sections { IfOk result
        (λ s. AreSections s (words_from from (plain_words_of words.now))) }
    // Otherwise the words are refused by this rule at this line.
    ensures refused { IfErr result (λ f. IsFault f (words_from from (plain_words_of words.now))) }
{
    let mut plain = plain_words(alloc, words)?;
    plain.retain(|word| word.index as usize >= from);
    read(alloc, &plain)
}
