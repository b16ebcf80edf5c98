//! The whole check: the rules first, then the program with its numbers.

ghost use Rattle.std.specs.Prelude.{◌≡◌, false, map, None, IfErr, IfOk};
ghost use Rattle.std.specs.List.{list_any};
ghost use Rattle.ss_preamble.specs.Limits.{IsWithin};
ghost use Rattle.ss_preamble.specs.Tree.{items_of};
ghost use Rattle.ss_preamble.specs.View as preamble;
ghost use Rattle.ss_routines.specs.View as view;
ghost use Rattle.ss_program.specs.ProgramSound.{IsSound};
ghost use Rattle.ss_check.specs.Breach as rules;
ghost use Rattle.ss_check.specs.Declarations as declared;
ghost use Rattle.ss_check.specs.Declarations.{declared_by_program};
ghost use Rattle.ss_check.specs.PlaceRules.{has_wrong_picture};
ghost use Rattle.ss_check.specs.Resolved as resolved;
ghost use Rattle.ss_check.specs.ResolvedNames.{names as names_of, number};
ghost use Rattle.ss_check.specs.Statements.{IsBreach, IsRefusal};

use crate::declared::name_tables::NameTables;
use crate::declared::tables::Tables;
use crate::fault::CheckFault;
use crate::resolved::class_tables::{class_tables, priority};
use crate::resolved::rankings::Rankings;
use crate::resolved::sections::resolve_section;
use crate::resolved::set_tables::set_tables;
use crate::rules::breach::check_rules;
use ss_preamble::Decls;
use ss_program::{Class, Program, Set};
use ss_routines::{Section, Sections};
use std::alloc::{AllocError, Global};

/// The checked program of a text's declarations and of its sections: each name is a number in its
/// table, and each picture has its fields (docs/LANGUAGE.md, "Rules of the checker"). The
/// declarations are within the limits, as `preamble` ensures.
///
/// `Broken` gives the first statement that breaks a rule, by its line, the lowest of the rules that
/// it breaks, and what is wrong by that rule. `Memory` says that a growth was refused.
pub fn check(alloc: Global, decls: Decls, sections: Sections) -> Result<Program, CheckFault>
    requires { IsWithin (items_of (preamble.decls_view decls)) }
    ensures sound { IfOk result (λ _. rules.breach (preamble.decls_view decls) sections ≡ None) }
    ensures ok { IfOk result
        (λ program. program ≡ resolved.program_resolved (preamble.decls_view decls) sections) }
    ensures err { IfErr result
        (λ f. IsBreach f (rules.breach (preamble.decls_view decls) sections)) }
    ensures wrong { IfErr result
        (λ f. IsRefusal f (rules.refusal (preamble.decls_view decls) sections)) }
{
    let sections = sections.into_list();
    match check_rules(alloc, &decls, &sections) {
        Ok(whole) => {
            let program = resolve_program(alloc, &whole, &decls, sections);
            drop(whole);
            drop(decls);
            Ok(program?)
        }
        Err(fault) => {
            drop(sections);
            drop(decls);
            Err(fault)
        }
    }
}

/// The program of these items and sections, whose declarations are `whole`, without a breach.
fn resolve_program(
    alloc: Global,
    whole: &Tables,
    decls: &Decls,
    sections: Vec<Section>,
) -> Result<Program, AllocError>
    requires whole { whole.now
        ≡ declared_by_program (preamble.decls_view decls.now).items
        (map view.section_view sections.items) }
    requires pictures { list_any (λ q. list_any (λ s. has_wrong_picture s.place) q.places)
        (map view.section_view sections.items) ≡ false }
    requires sound { IsSound (resolved.program_resolved (preamble.decls_view decls.now)
        (map view.section_view sections.items)) }
    ensures { IfOk result (λ program. program
        ≡ resolved.program_resolved (preamble.decls_view decls.now)
        (map view.section_view sections.items)) }
{
    match NameTables::new(alloc, whole, &sections) {
        Ok(names) => resolve_named(alloc, whole, decls, names, sections),
        Err(fault) => {
            drop(sections);
            Err(fault)
        }
    }
}

/// The program of these items and sections, whose names these are. If it ends early, it lets go by
/// calls: the proof of each end writes out the parts that are still held there.
fn resolve_named(
    alloc: Global,
    whole: &Tables,
    decls: &Decls,
    names: NameTables,
    sections: Vec<Section>,
) -> Result<Program, AllocError>
    requires whole { whole.now
        ≡ declared_by_program (preamble.decls_view decls.now).items
        (map view.section_view sections.items) }
    requires names { names
        ≡ names_of whole.now (declared.heads (map view.section_view sections.items)) }
    requires pictures { list_any (λ q. list_any (λ s. has_wrong_picture s.place) q.places)
        (map view.section_view sections.items) ≡ false }
    requires sound { IsSound (resolved.program_resolved (preamble.decls_view decls.now)
        (map view.section_view sections.items)) }
    ensures { IfOk result (λ program. program
        ≡ resolved.program_resolved (preamble.decls_view decls.now)
        (map view.section_view sections.items)) }
{
    match classes_and_sets(alloc, whole, decls, &names) {
        Ok(made) => match resolve_sections(alloc, whole, &names, sections) {
            Ok(list) => {
                let globals = names.into_globals();
                Ok(Program::new(globals, made.classes, made.sets, made.priority, list))
            }
            Err(fault) => {
                drop(made);
                drop(names);
                Err(fault)
            }
        },
        Err(fault) => {
            drop(sections);
            drop(names);
            Err(fault)
        }
    }
}

/// The tables of a program's classes and of its sets, and the order of its event classes.
#[derive(Drop)]
struct ClassesAndSets {
    classes: Vec<Class>,
    sets: Vec<Set>,
    priority: Vec<usize>,
}

/// The classes and sets of these names, made from these items, whose declarations are in `whole`.
fn classes_and_sets(
    alloc: Global,
    whole: &Tables,
    decls: &Decls,
    names: &NameTables,
) -> Result<ClassesAndSets, AllocError>
    ensures classes { IfOk result
        (λ made. made.classes.items ≡ map (resolved.class_table whole.now names.now
        (resolved.rankings (preamble.decls_view decls.now).items)) names.now.classes) }
    ensures sets { IfOk result
        (λ made. made.sets.items ≡ map (resolved.set_table whole.now names.now
        (resolved.rankings (preamble.decls_view decls.now).items)) names.now.sets) }
    ensures priority { IfOk result (λ made. made.priority.items
        ≡ map (λ c. number c names.now.classes) whole.now.priority) }
{
    let rankings = Rankings::new(alloc, &decls.items)?;
    let made = ranked_classes_and_sets(alloc, whole, names, &rankings);
    drop(rankings);
    made
}

/// The classes and sets of these names, made from the declarations in `whole` and these rankings.
fn ranked_classes_and_sets(
    alloc: Global,
    whole: &Tables,
    names: &NameTables,
    rankings: &Rankings<'_>,
) -> Result<ClassesAndSets, AllocError>
    ensures classes { IfOk result (λ made. made.classes.items
        ≡ map (resolved.class_table whole.now names.now rankings.now) names.now.classes) }
    ensures sets { IfOk result
        (λ made. made.sets.items
        ≡ map (resolved.set_table whole.now names.now rankings.now) names.now.sets) }
    ensures priority { IfOk result (λ made. made.priority.items
        ≡ map (λ c. number c names.now.classes) whole.now.priority) }
{
    let classes = class_tables(alloc, whole, names, rankings)?;
    match sets_and_priority(alloc, whole, names, rankings) {
        Ok((sets, priority)) => Ok(ClassesAndSets {
            classes,
            sets,
            priority,
        }),
        Err(fault) => {
            drop(classes);
            Err(fault)
        }
    }
}

/// The sets, and the order of the event classes, by the declarations `whole` and these rankings.
fn sets_and_priority(
    alloc: Global,
    whole: &Tables,
    names: &NameTables,
    rankings: &Rankings<'_>,
) -> Result<(Vec<Set>, Vec<usize>), AllocError>
    ensures sets { IfOk result
        (λ x. x.0.items
        ≡ map (resolved.set_table whole.now names.now rankings.now) names.now.sets) }
    ensures priority { IfOk result
        (λ x. x.1.items ≡ map (λ c. number c names.now.classes) whole.now.priority) }
{
    let sets = set_tables(alloc, whole, names, rankings)?;
    match priority(alloc, whole, names) {
        Ok(priority) => Ok((sets, priority)),
        Err(fault) => {
            drop(sets);
            Err(fault)
        }
    }
}

/// The sections of a program, with the numbers of their names. The text of a section is let go as
/// soon as the section is made.
fn resolve_sections(
    alloc: Global,
    whole: &Tables,
    names: &NameTables,
    sections: Vec<Section>,
) -> Result<Vec<ss_program::Section>, AllocError>
    requires { list_any (λ q. list_any (λ s. has_wrong_picture s.place) q.places)
        (map view.section_view sections.items) ≡ false }
    ensures { IfOk result (λ list. list.items
        ≡ map (resolved.resolved_section whole.now names.now)
        (map view.section_view sections.items)) }
{
    let mut list = Vec::with_capacity(alloc, sections.len())?;
    for section in sections {
        list.push(resolve_section(alloc, whole, names, section)?)?;
    }
    Ok(list)
}
