//! The search for the first breach, statement by statement in the order of the text.

ghost use Rattle.std.specs.Prelude.{◌≡◌, false, [], map, None, IfErr, IfOk, OnOk};
ghost use Rattle.ss_preamble.specs.View as preamble;
ghost use Rattle.ss_routines.specs.View as view;
ghost use Rattle.ss_check.specs.Increments as later;
ghost use Rattle.ss_check.specs.Increments.{IsOnce};
ghost use Rattle.ss_check.specs.Breach as rules;
ghost use Rattle.ss_check.specs.Declarations as declared;
ghost use Rattle.ss_check.specs.Declarations.{declared_by, declared_by_program};
ghost use Rattle.ss_check.specs.Statements.{IsBreach, IsRefusal};

use crate::declared::tables::Tables;
use crate::fault::{CheckFault, CheckRule};
use crate::rules::heads::{head_rule, is_main};
use crate::rules::items::item_rule;
use crate::rules::named::first_of_names;
use crate::rules::places::{is_find, place_rule};
use crate::rules::wrong_heads::head_wrong;
use crate::rules::wrong_items::item_wrong;
use crate::rules::wrong_uses::place_wrong;
use crate::wrong::{Reason, about};
use ss_preamble::{Decls, Heading, Item, ItemAt};
use ss_routines::{LocalNames, Section, Spot};
use std::alloc::{AllocError, Global};

/// The declarations of a program that breaks no rule (docs/LANGUAGE.md, "Rules of the checker").
///
/// `Broken` gives the first statement that breaks a rule, by its line, the lowest of the rules that
/// it breaks, and what is wrong by that rule. `Memory` says that a growth was refused.
pub fn check_rules(alloc: Global, decls: &Decls, sections: &[Section]) -> Result<Tables, CheckFault>
    ensures sound { IfOk result
        (λ _. rules.breach (preamble.decls_view decls.now) (map view.section_view sections.now)
        ≡ None) }
    ensures ok { IfOk result (λ tables. tables
        ≡ declared_by_program (preamble.decls_view decls.now).items
        (map view.section_view sections.now)) }
    ensures err { IfErr result (λ f. IsBreach f
        (rules.breach (preamble.decls_view decls.now) (map view.section_view sections.now))) }
    ensures wrong { IfErr result (λ f. IsRefusal f
        (rules.refusal (preamble.decls_view decls.now) (map view.section_view sections.now))) }
{
    let whole = tables(alloc, &decls.items, sections)?;
    match check_whole(alloc, &whole, decls, sections) {
        Ok(()) => Ok(whole),
        Err(fault) => {
            drop(whole);
            Err(fault)
        }
    }
}

/// Looks at each statement of a program with the declarations `whole`, and reports the first
/// breach.
fn check_whole(
    alloc: Global,
    whole: &Tables,
    decls: &Decls,
    sections: &[Section],
) -> Result<(), CheckFault>
    requires { whole.now
        ≡ declared_by_program (preamble.decls_view decls.now).items
        (map view.section_view sections.now) }
    ensures sound { IfOk result
        (λ _. rules.refusal (preamble.decls_view decls.now) (map view.section_view sections.now)
        ≡ None) }
    ensures err { IfErr result (λ f. IsRefusal f
        (rules.refusal (preamble.decls_view decls.now) (map view.section_view sections.now))) }
{
    let mut before = Tables::new(alloc)?;
    let checked = check_statements(alloc, whole, &mut before, decls, sections);
    drop(before);
    checked
}

/// Looks at each statement of a program with the declarations `whole`, after the declarations of
/// the language, and reports the first breach.
fn check_statements(
    alloc: Global,
    whole: &Tables,
    before: &mut Tables,
    decls: &Decls,
    sections: &[Section],
) -> Result<(), CheckFault>
    requires whole { whole.now
        ≡ declared_by_program (preamble.decls_view decls.now).items
        (map view.section_view sections.now) }
    requires start { before.old ≡ declared_by [] [] }
    ensures sound { IfOk result
        (λ _. rules.refusal (preamble.decls_view decls.now) (map view.section_view sections.now)
        ≡ None) }
    ensures err { IfErr result (λ f. IsRefusal f
        (rules.refusal (preamble.decls_view decls.now) (map view.section_view sections.now))) }
{
    check_items(alloc, whole, before, &decls.items)?;
    check_sections(alloc, whole, before, sections)?;
    if !whole.has_main {
        let line = last_end(decls.end.unwrap_or(FIRST_LINE), sections);
        let rule = CheckRule::WrongMain;
        let wrong = about(alloc, Reason::NoMain, None)?;
        return Err(CheckFault::Broken { rule, line, wrong });
    }
    Ok(())
}

/// The line of a text's first statement.
const FIRST_LINE: usize = 1;

/// The declarations of items and of the heads of sections.
pub(crate) fn tables(
    alloc: Global,
    items: &[ItemAt],
    sections: &[Section],
) -> Result<Tables, AllocError>
    ensures { IfOk result (λ tables. tables
        ≡ declared_by_program (preamble.items_view items.now)
        (map view.section_view sections.now)) }
{
    let mut tables = Tables::new(alloc)?;
    match add_all(alloc, &mut tables, items, sections) {
        Ok(()) => Ok(tables),
        Err(fault) => {
            drop(tables);
            Err(fault)
        }
    }
}

/// Adds the declarations of items and of the heads of sections.
fn add_all(
    alloc: Global,
    tables: &mut Tables,
    items: &[ItemAt],
    sections: &[Section],
) -> Result<(), AllocError>
    ensures { OnOk result (tables.new ≡ later.with_sections
        (later.with_items tables.old (declared.headed_items (preamble.items_view items.now)))
        (map view.section_view sections.now)) }
{
    add_items(alloc, tables, items)?;
    for section in sections {
        tables.add_head(section)?;
    }
    Ok(())
}

/// Adds the declarations of items, each under the heading over it.
fn add_items(alloc: Global, tables: &mut Tables, items: &[ItemAt]) -> Result<(), AllocError>
    ensures { OnOk result (tables.new
        ≡ later.with_items tables.old (declared.headed_items (preamble.items_view items.now))) }
{
    let mut heading = None;
    for one in items {
        heading = heading_at(heading, &one.item);
        tables.add_item(alloc, heading, one)?;
    }
    Ok(())
}

/// The heading over an item after others under this heading: its own, if it is one.
fn heading_at(heading: Option<Heading>, item: &Item) -> Option<Heading>
    ensures { result ≡ declared.heading_at heading (preamble.item_view item.now) }
{
    match item {
        Item::Headed { heading, .. } => Some(*heading),
        _ => heading,
    }
}

/// Looks at each item after the declarations `before`, to which the items are added, and reports
/// the first breach.
fn check_items(
    alloc: Global,
    whole: &Tables,
    before: &mut Tables,
    items: &[ItemAt],
) -> Result<(), CheckFault>
    requires { IsOnce before.old }
    ensures sound { IfOk result (λ _. later.items_refusal whole.now before.old
        (declared.headed_items (preamble.items_view items.now)) ≡ None) }
    ensures once { OnOk result (IsOnce before.new) }
    ensures tables { OnOk result (before.new
        ≡ later.with_items before.old (declared.headed_items (preamble.items_view items.now))) }
    ensures err { IfErr result (λ f. IsRefusal f (later.items_refusal whole.now before.old
        (declared.headed_items (preamble.items_view items.now)))) }
{
    let mut heading = None;
    for one in items {
        heading = heading_at(heading, &one.item);
        if let Some(rule) = item_rule(alloc, whole, before, heading, one)? {
            let line = one.line;
            let wrong = item_wrong(alloc, whole, before, &one.item, rule)?;
            return Err(CheckFault::Broken { rule, line, wrong });
        }
    }
    Ok(())
}

/// Looks at each section after the declarations `before`, to which their heads are added, and
/// reports the first breach.
fn check_sections(
    alloc: Global,
    whole: &Tables,
    before: &mut Tables,
    sections: &[Section],
) -> Result<(), CheckFault>
    requires { IsOnce before.old }
    ensures sound { IfOk result (λ _. later.sections_refusal whole.now before.old
        (map view.section_view sections.now) ≡ None) }
    ensures err { IfErr result (λ f. IsRefusal f (later.sections_refusal whole.now before.old
        (map view.section_view sections.now))) }
{
    for section in sections {
        check_section(alloc, whole, before, section)?;
    }
    Ok(())
}

/// Looks at a section after the declarations `before`, to which its head is added, and reports the
/// first breach.
fn check_section(
    alloc: Global,
    whole: &Tables,
    before: &mut Tables,
    section: &Section,
) -> Result<(), CheckFault>
    requires { IsOnce before.old }
    ensures sound { IfOk result (λ _. later.section_refusal whole.now before.old
        (view.section_view section.now) ≡ None) }
    ensures once { OnOk result (IsOnce before.new) }
    ensures tables { OnOk result (before.new
        ≡ later.with_head before.old (view.section_view section.now).head) }
    ensures err { IfErr result (λ f. IsRefusal f (later.section_refusal whole.now before.old
        (view.section_view section.now))) }
{
    if let Some(rule) = head_rule(alloc, whole, before, section)? {
        let line = section.line;
        let wrong = head_wrong(alloc, whole, before, section, rule)?;
        return Err(CheckFault::Broken { rule, line, wrong });
    }
    check_locals(alloc, whole, &section.locals)?;
    check_places(alloc, whole, is_main(section), &section.places)
}

/// Looks at each local DEFINE, and reports the first breach.
fn check_locals(alloc: Global, whole: &Tables, locals: &[LocalNames]) -> Result<(), CheckFault>
    ensures sound { IfOk result
        (λ _. later.locals_refusal whole.now (map view.local_view locals.now) ≡ None) }
    ensures err { IfErr result
        (λ f. IsRefusal f (later.locals_refusal whole.now (map view.local_view locals.now))) }
{
    for local in locals {
        if let Some(name) = first_of_names(whole, CheckRule::DeclaredTwice, &local.names) {
            let rule = CheckRule::DeclaredTwice;
            let line = local.line;
            let wrong = about(alloc, Reason::DeclaredTwice, Some(name))?;
            return Err(CheckFault::Broken { rule, line, wrong });
        }
    }
    Ok(())
}

/// Looks at each place of a section, and reports the first breach.
fn check_places(
    alloc: Global,
    whole: &Tables,
    in_main: bool,
    places: &[Spot],
) -> Result<(), CheckFault>
    ensures sound { IfOk result
        (λ _. later.places_refusal whole.now in_main false (view.spots places.now) ≡ None) }
    ensures err { IfErr result
        (λ f. IsRefusal f (later.places_refusal whole.now in_main false (view.spots places.now))) }
{
    let mut behind_find = false;
    let mut rest = places;
    while let Some((spot, behind)) = rest.split_first() {
        if let Some(rule) = place_rule(alloc, whole, in_main, behind_find, spot, behind)? {
            let line = spot.line;
            let wrong = place_wrong(alloc, whole, rule, &spot.place, behind)?;
            return Err(CheckFault::Broken { rule, line, wrong });
        }
        behind_find = is_find(&spot.place);
        rest = behind;
    }
    Ok(())
}

/// The line of the last END of sections, or this line if there is none.
fn last_end(line: usize, sections: &[Section]) -> usize
    ensures { result ≡ rules.last_end line (map view.section_view sections.now) }
{
    let mut last = line;
    for section in sections {
        last = last_line(last, &section.places);
    }
    last
}

/// The line of the last place, or this line if there is none.
#[tactic(auto, using(crate::proofs::Turns::last_line_last, crate::proofs::Turns::last_line_none))]
fn last_line(line: usize, places: &[Spot]) -> usize
    ensures { result ≡ rules.last_line line (view.spots places.now) }
{
    match places.last() {
        Some(spot) => spot.line,
        None => line,
    }
}
