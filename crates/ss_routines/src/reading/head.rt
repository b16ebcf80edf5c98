//! Reading heads and local DEFINEs.

ghost use Rattle.std.specs.Prelude.{IfOk, IsTrue, length, map, ◌≡◌, ◌≤◌, ◌<◌};
ghost use Rattle.ss_words.specs.declared.limits.TheConstants.{MOST_PARAMETERS};
ghost use Rattle.ss_words.specs.Lists.{several_view};
ghost use Rattle.ss_words.specs.Plain.{first, word_lines};
ghost use Rattle.ss_words.specs.Noting.{repeat};
ghost use Rattle.ss_words.specs.Reading.{Gives};
ghost use Rattle.ss_routines.specs.PlacesAtLines as places;
ghost use Rattle.ss_routines.specs.SectionReading as reading;
ghost use Rattle.ss_routines.specs.Tree.{is_head};
ghost use Rattle.ss_routines.specs.View.{head_view, local_view};

use crate::reading::names::{count, given, yielded};
use crate::tree::section::{LocalNames, SectionKind};
use ss_words::limits::MOST_PARAMETERS;
use ss_words::{Cursor, Mark, Name, Plain, PlainWord, Refusal, Reserved, Several};

/// The kind of a section, and its name in upper case; that of the main section is `MAIN`.
#[derive(Drop)]
pub struct SectionHead {
    pub kind: SectionKind,
    pub name: Name,
}

/// Whether a section begins with the next word.
pub fn begins(cursor: &Cursor<'_>) -> bool
    ensures { result ≡ is_head (first cursor.now) }
{
    matches!(
        cursor.peek(),
        Some(Plain::Mark(Mark::Reserved(Reserved::Main | Reserved::Routine | Reserved::Event)))
    )
}

/// The head of a section: `MAIN`, `ROUTINE name [GIVEN names | "(" names ")"] [YIELDING names]`,
/// or `EVENT name [GIVEN names | "(" names ")"] [SAVING EVENT NOTICES]`.
#[tactic(auto, using(ss_words::proofs::Marks::taken), unfolding(crate::proofs::Unfoldings::heads))]
pub fn head(cursor: &mut Cursor<'_>) -> Result<SectionHead, Refusal>
    ensures exact { Gives (λ h. head_view h.name h.kind) result cursor.new
        (reading.head_at MOST_PARAMETERS cursor.old) }
    ensures shorter { length cursor.new ≤ length cursor.old }
    ensures taken { IfOk result (λ _. length cursor.new < length cursor.old) }
{
    match cursor.peek() {
        Some(Plain::Mark(Mark::Reserved(Reserved::Main))) => {
            cursor.pass();
            let name = Vec::from_slice(cursor.alloc(), b"MAIN")?;
            let name = Name::new(cursor.alloc(), name)?;
            Ok(SectionHead {
                kind: SectionKind::Main,
                name,
            })
        }
        Some(Plain::Mark(Mark::Reserved(Reserved::Routine))) => {
            cursor.pass();
            routine(cursor)
        }
        Some(Plain::Mark(Mark::Reserved(Reserved::Event))) => {
            cursor.pass();
            event(cursor)
        }
        _ => Err(Refusal::Unexpected),
    }
}

/// `name [GIVEN names | "(" names ")"] [YIELDING names]`, after ROUTINE.
#[tactic(auto, unfolding(crate::proofs::Unfoldings::steps, crate::specs::SectionReading::routine_at))]
fn routine(cursor: &mut Cursor<'_>) -> Result<SectionHead, Refusal>
    ensures exact { Gives (λ h. head_view h.name h.kind) result cursor.new
        (reading.routine_at MOST_PARAMETERS cursor.old) }
    ensures shorter { length cursor.new ≤ length cursor.old }
{
    let name = cursor.name()?;
    let given = given(cursor, MOST_PARAMETERS)?;
    let yielded = yielded(cursor, MOST_PARAMETERS.saturating_sub(count(&given)))?;
    let kind = SectionKind::Routine { given, yielded };
    Ok(SectionHead { kind, name })
}

/// `name [GIVEN names | "(" names ")"] [SAVING EVENT NOTICES]`, after EVENT.
#[tactic(auto, unfolding(crate::proofs::Unfoldings::steps, crate::specs::SectionReading::event_at))]
fn event(cursor: &mut Cursor<'_>) -> Result<SectionHead, Refusal>
    ensures exact { Gives (λ h. head_view h.name h.kind) result cursor.new
        (reading.event_at MOST_PARAMETERS cursor.old) }
    ensures shorter { length cursor.new ≤ length cursor.old }
{
    let name = cursor.name()?;
    let given = given(cursor, MOST_PARAMETERS)?;
    let saving = saving(cursor)?;
    let kind = SectionKind::Event { given, saving };
    Ok(SectionHead { kind, name })
}

/// `[SAVING EVENT NOTICES]`, and whether it is written.
#[tactic(auto, unfolding(crate::proofs::Unfoldings::steps, crate::specs::SectionReading::saving))]
fn saving(cursor: &mut Cursor<'_>) -> Result<bool, Refusal>
    ensures exact { Gives (λ b. b) result cursor.new (reading.saving cursor.old) }
    ensures shorter { length cursor.new ≤ length cursor.old }
{
    if !cursor.eat(Mark::Reserved(Reserved::Saving)) {
        return Ok(false);
    }
    cursor.expect(Mark::Reserved(Reserved::Event))?;
    cursor.expect(Mark::Reserved(Reserved::Notices))?;
    Ok(true)
}

/// `names AS INTEGER VARIABLES`, after DEFINE.
#[tactic(auto, unfolding(crate::proofs::Unfoldings::local_names))]
fn define(cursor: &mut Cursor<'_>) -> Result<Several<Name>, Refusal>
    ensures exact { Gives (several_view (λ n. n)) result cursor.new (reading.a_define cursor.old) }
    ensures shorter { length cursor.new ≤ length cursor.old }
{
    let names = cursor.names()?;
    cursor.expect(Mark::Reserved(Reserved::As))?;
    cursor.expect(Mark::Reserved(Reserved::Integer))?;
    cursor.expect(Mark::Reserved(Reserved::Variables))?;
    Ok(names)
}

/// Pushes the names of a local DEFINE and its line, if one is here.
#[tactic(auto, using(crate::proofs::PushedPlaces::pushed_local), unfolding(crate::proofs::Unfoldings::notes))]
fn next_local(
    cursor: &mut Cursor<'_>,
    text: &[PlainWord<'_>],
    out: &mut Vec<LocalNames>,
) -> Result<bool, Refusal>
    ensures exact { Gives (λ b. (b, map local_view out.new.items)) result cursor.new
        (places.noting_local (word_lines text.now) (map local_view out.old.items) cursor.old) }
    ensures shorter { length cursor.new ≤ length cursor.old }
    ensures taken { IfOk result (λ b. IsTrue b → length cursor.new < length cursor.old) }
{
    let line = cursor.line(text);
    if !cursor.eat(Mark::Reserved(Reserved::Define)) {
        return Ok(false);
    }
    let names = define(cursor)?;
    out.push(LocalNames { line, names })?;
    Ok(true)
}

/// `{DEFINE names AS INTEGER VARIABLES}`: pushes the local DEFINEs, as long as one is here.
pub fn local_list(
    cursor: &mut Cursor<'_>,
    text: &[PlainWord<'_>],
    out: &mut Vec<LocalNames>,
) -> Result<(), Refusal>
    ensures exact { Gives (λ u. map local_view out.new.items) result cursor.new
        (repeat (places.noting_local (word_lines text.now))
        (map local_view out.old.items) cursor.old) }
    ensures shorter { length cursor.new ≤ length cursor.old }
{
    while next_local(cursor, text, out)? {}
    Ok(())
}
