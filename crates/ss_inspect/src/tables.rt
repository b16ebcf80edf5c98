//! The answers to SHOW CLASSES, SHOW SETS and SHOW SECTIONS.
ghost use Rattle.std.specs.Prelude.{◌≡◌, ◌++◌, ◌<◌, length, OnOk};
ghost use Rattle.ss_program.specs.Program.{class_of, set_of};
ghost use Rattle.ss_machine.specs.Moment.{position};
ghost use Rattle.ss_inspect.specs.Tables.{kind_word, class_line, classes_text, owner_name};
ghost use Rattle.ss_inspect.specs.Tables.{rank_word, key_words, further_keys, keys_words, discipline_words};
ghost use Rattle.ss_inspect.specs.Tables.{set_line, sets_text, section_word, section_line, sections_text};
ghost use Rattle.ss_inspect.specs.Texts.{texts_below};

use crate::entities::count_living;
use ss_debug::push_number;
use ss_links::SetBoard;
use ss_machine::Machine;
use ss_program::{ClassKind, Discipline, Key, Name, Owner, Program, Rank, SectionKind, name_at};
use std::alloc::AllocError;

/// The word of the kind of the class with this number.
#[tactic(auto, using(ss_debug::proofs::Tables::row_at))]
fn kind_word(program: &Program, class: usize) -> &'static [u8]
    requires { class < length program.now.classes }
    ensures { result.now ≡ kind_word (class_of program.now class).kind }
{
    match &program.classes[class].kind {
        ClassKind::Permanent { count: _ } => b"PERMANENT",
        ClassKind::Temporary => b"TEMPORARY",
        ClassKind::Event(_) => b"EVENT",
    }
}

/// Appends the line of a class.
fn push_class<S: SetBoard>(
    text: &mut Vec<u8>,
    machine: &Machine<S>,
    class: usize,
) -> Result<(), AllocError>
    requires { class < length machine.now.input.program.classes }
    ensures { OnOk result (text.new.items ≡ text.old.items
        ++ class_line machine.now.input.program machine.now.state.store class) }
{
    let program = machine.program();
    text.extend_from_slice(program.class_name(class))?;
    text.extend_from_slice(b" ")?;
    text.extend_from_slice(kind_word(program, class))?;
    text.extend_from_slice(b": ")?;
    push_number(text, u64::from(count_living(machine, class)))?;
    text.extend_from_slice(b"\n")
}

/// Appends a line for each class.
fn push_all_classes<S: SetBoard>(text: &mut Vec<u8>, machine: &Machine<S>) -> Result<(), AllocError>
    ensures { OnOk result (text.new.items ≡ text.old.items
        ++ texts_below (class_line machine.now.input.program machine.now.state.store)
        (length machine.now.input.program.classes)) }
{
    for class in 0..machine.program().classes.len() {
        push_class(text, machine, class)?;
    }
    Ok(())
}

/// Appends the answer to SHOW CLASSES: a line for each class in order of declaration, with its kind
/// and how many of its entities live, or `NO CLASSES`.
#[tactic(auto, unfolding(crate::specs::Tables::classes_text))]
pub(crate) fn push_classes<S: SetBoard>(
    text: &mut Vec<u8>,
    machine: &Machine<S>,
) -> Result<(), AllocError>
    ensures { OnOk result (text.new.items
        ≡ text.old.items ++ classes_text machine.now.input (position machine.now)) }
{
    machine.known();
    if machine.program().classes.len() == 0 {
        return text.extend_from_slice(b"NO CLASSES\n");
    }
    push_all_classes(text, machine)
}

/// The word of a rank.
fn rank_word(rank: Rank) -> &'static [u8]
    ensures { result.now ≡ rank_word rank }
{
    match rank {
        Rank::High => b"HIGH",
        Rank::Low => b"LOW",
    }
}

/// Appends a key as it is declared: BY, its rank, and the name of its attribute.
fn push_key(text: &mut Vec<u8>, attributes: &[Name], key: Key) -> Result<(), AllocError>
    ensures { OnOk result (text.new.items ≡ text.old.items ++ key_words attributes.now key) }
{
    text.extend_from_slice(b" BY ")?;
    text.extend_from_slice(rank_word(key.rank))?;
    text.extend_from_slice(b" ")?;
    text.extend_from_slice(name_at(attributes, key.attribute))
}

/// Appends keys, each after THEN.
fn push_further_keys(
    text: &mut Vec<u8>,
    attributes: &[Name],
    keys: &[Key],
) -> Result<(), AllocError>
    ensures { OnOk result (text.new.items
        ≡ text.old.items ++ further_keys attributes.now keys.now) }
{
    for key in keys {
        text.extend_from_slice(b" THEN")?;
        push_key(text, attributes, *key)?;
    }
    Ok(())
}

/// Appends the keys of a ranking as they are declared, the one that decides first at the front.
fn push_keys(text: &mut Vec<u8>, attributes: &[Name], keys: &[Key]) -> Result<(), AllocError>
    ensures { OnOk result (text.new.items
        ≡ text.old.items ++ keys_words attributes.now keys.now) }
{
    let Some(first) = keys.first() else {
        return Ok(());
    };
    push_key(text, attributes, *first)?;
    push_further_keys(text, attributes, &keys[1..])
}

/// Appends a discipline as it is declared, of a set whose members have these attributes.
fn push_discipline(
    text: &mut Vec<u8>,
    attributes: &[Name],
    discipline: &Discipline,
) -> Result<(), AllocError>
    ensures { OnOk result (text.new.items
        ≡ text.old.items ++ discipline_words attributes.now discipline.now) }
{
    match discipline {
        Discipline::Fifo => text.extend_from_slice(b"FIFO"),
        Discipline::Lifo => text.extend_from_slice(b"LIFO"),
        Discipline::Ranked(keys) => {
            text.extend_from_slice(b"RANKED")?;
            push_keys(text, attributes, &keys.list)
        }
    }
}

/// The discipline of the set with this number.
#[tactic(auto, using(ss_debug::proofs::Tables::row_at))]
fn discipline_of(program: &Program, set: usize) -> &Discipline
    requires { set < length program.now.sets }
    ensures { result.now ≡ (set_of program.now set).discipline }
{
    &program.sets[set].discipline
}

/// The name of the owner of the set with this number.
fn owner_name(program: &Program, set: usize) -> &[u8]
    ensures { result.now ≡ owner_name program.now (set_of program.now set).owner }
{
    match program.set_owner(set) {
        Owner::System => b"SYSTEM",
        Owner::OwnedBy(class) => program.class_name(class),
    }
}

/// Appends the line of a set.
fn push_set(text: &mut Vec<u8>, program: &Program, set: usize) -> Result<(), AllocError>
    requires { set < length program.now.sets }
    ensures { OnOk result (text.new.items ≡ text.old.items ++ set_line program.now set) }
{
    text.extend_from_slice(program.set_name(set))?;
    text.extend_from_slice(b" ")?;
    let attributes = program.attributes(program.member_class(set));
    push_discipline(text, attributes, discipline_of(program, set))?;
    text.extend_from_slice(b" OWNER ")?;
    text.extend_from_slice(owner_name(program, set))?;
    text.extend_from_slice(b" MEMBER ")?;
    text.extend_from_slice(program.class_name(program.member_class(set)))?;
    text.extend_from_slice(b"\n")
}

/// Appends a line for each set.
fn push_all_sets(text: &mut Vec<u8>, program: &Program) -> Result<(), AllocError>
    ensures { OnOk result (text.new.items ≡ text.old.items
        ++ texts_below (set_line program.now) (length program.now.sets)) }
{
    for set in 0..program.sets.len() {
        push_set(text, program, set)?;
    }
    Ok(())
}

/// Appends the answer to SHOW SETS: a line for each set in order of declaration, with its
/// discipline as it is declared, its owner's class or SYSTEM, and the class of its members, or
/// `NO SETS`.
#[tactic(auto, unfolding(crate::specs::Tables::sets_text))]
pub(crate) fn push_sets<S: SetBoard>(
    text: &mut Vec<u8>,
    machine: &Machine<S>,
) -> Result<(), AllocError>
    ensures { OnOk result (text.new.items ≡ text.old.items ++ sets_text machine.now.input) }
{
    let program = machine.program();
    if program.sets.len() == 0 {
        return text.extend_from_slice(b"NO SETS\n");
    }
    push_all_sets(text, program)
}

/// The word of a section's kind, after a blank.
fn section_word(kind: SectionKind) -> &'static [u8]
    ensures { result.now ≡ section_word kind }
{
    match kind {
        SectionKind::Main => b"",
        SectionKind::Routine => b" ROUTINE",
        SectionKind::Event => b" EVENT",
    }
}

/// Appends the line of a section.
#[tactic(auto, using(ss_debug::proofs::Tables::row_at))]
fn push_section(text: &mut Vec<u8>, program: &Program, number: usize) -> Result<(), AllocError>
    requires { number < length program.now.sections }
    ensures { OnOk result (text.new.items ≡ text.old.items ++ section_line program.now number) }
{
    let section = program.section(number);
    text.extend_from_slice(&section.name.bytes)?;
    text.extend_from_slice(section_word(section.kind))?;
    text.extend_from_slice(b" LINE ")?;
    push_number(text, section.line as u64)?;
    text.extend_from_slice(b"\n")
}

/// Appends a line for each section.
fn push_all_sections(text: &mut Vec<u8>, program: &Program) -> Result<(), AllocError>
    ensures { OnOk result (text.new.items ≡ text.old.items
        ++ texts_below (section_line program.now) (length program.now.sections)) }
{
    for number in 0..program.sections.len() {
        push_section(text, program, number)?;
    }
    Ok(())
}

/// Appends the answer to SHOW SECTIONS: a line for each section in the text's order, with its kind
/// and the line of its head; MAIN's has no kind.
#[tactic(auto, unfolding(crate::specs::Tables::sections_text))]
pub(crate) fn push_sections<S: SetBoard>(
    text: &mut Vec<u8>,
    machine: &Machine<S>,
) -> Result<(), AllocError>
    ensures { OnOk result (text.new.items ≡ text.old.items ++ sections_text machine.now.input) }
{
    push_all_sections(text, machine.program())
}
