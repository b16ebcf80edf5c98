//! The local variables of a section, in the order in which they are first named.

ghost use Rattle.std.specs.Prelude.{◌≡◌, map, IfOk, OnOk};
ghost use Rattle.std.specs.List.{flat_map, fold};
ghost use Rattle.ss_routines.specs.Tree.{listing_names};
ghost use Rattle.ss_routines.specs.View as view;
ghost use Rattle.ss_program.specs.NameIndex.{with_name};
ghost use Rattle.ss_check.specs.Declarations.{parameters};
ghost use Rattle.ss_check.specs.ResolvedNames as resolved;
ghost use Rattle.ss_check.specs.UseView.{use_view};
ghost use Rattle.ss_check.specs.Uses as uses_of;

use crate::declared::tables::Tables;
use crate::uses::places::add_place;
use crate::uses::use_list::{Use, UseList};
use ss_program::NameTable;
use ss_routines::{Listing, Place, Section, SectionKind};
use ss_words::Name;
use std::alloc::{AllocError, Global};

/// The local variables of a section: its parameters, then the other names that its places take for
/// variables and that are not declared, in their order.
pub(crate) fn section_locals(
    alloc: Global,
    whole: &Tables,
    section: &Section,
) -> Result<NameTable, AllocError>
    ensures { IfOk result
        (λ locals. locals ≡ resolved.locals_of whole.now (view.section_view section.now)) }
{
    let mut locals = NameTable::new(alloc);
    add_parameters(&mut locals, section)?;
    for spot in &section.places {
        add_variables(alloc, whole, &mut locals, &spot.place)?;
    }
    Ok(locals)
}

/// Adds the parameters of a section.
fn add_parameters(locals: &mut NameTable, section: &Section) -> Result<(), AllocError>
    ensures { OnOk result
        (locals.new ≡ fold with_name locals.old (parameters (view.section_view section.now).head)) }
{
    match &section.kind {
        SectionKind::Main => Ok(()),
        SectionKind::Routine { given, yielded } => {
            add_listed(locals, given)?;
            add_names(locals, yielded)
        }
        SectionKind::Event { given, .. } => add_listed(locals, given),
    }
}

/// Adds names that may be listed.
fn add_listed(locals: &mut NameTable, names: &Listing<Name>) -> Result<(), AllocError>
    ensures { OnOk result (locals.new
        ≡ fold with_name locals.old (listing_names (view.listing_view (λ n. n) names.now))) }
{
    match names {
        Listing::Unwritten => Ok(()),
        Listing::BehindGiven(names) | Listing::InParentheses(names) => {
            locals.add(names.first.bytes())?;
            add_names(locals, &names.others)
        }
    }
}

/// Adds names.
fn add_names(locals: &mut NameTable, names: &[Name]) -> Result<(), AllocError>
    ensures { OnOk result
        (locals.new ≡ fold with_name locals.old names.now) }
{
    for name in names {
        locals.add(name.bytes())?;
    }
    Ok(())
}

/// Adds the names that a place takes for variables and that are not declared.
fn add_variables(
    alloc: Global,
    whole: &Tables,
    locals: &mut NameTable,
    place: &Place,
) -> Result<(), AllocError>
    ensures { OnOk result
        (locals.new ≡ fold with_name locals.old (flat_map (resolved.undeclared_name whole.now)
        (flat_map resolved.variable_used (uses_of.uses (view.place_view place.now))))) }
{
    let mut uses = UseList::new(alloc);
    add_place(&mut uses, place)?;
    add_used(whole, locals, uses.as_slice())
}

/// Adds the names that these take for variables and that are not declared.
fn add_used(whole: &Tables, locals: &mut NameTable, uses: &[Use<'_>]) -> Result<(), AllocError>
    ensures { OnOk result
        (locals.new ≡ fold with_name locals.old (flat_map (resolved.undeclared_name whole.now)
        (flat_map resolved.variable_used (map use_view uses.now)))) }
{
    for one in uses {
        add_variable(whole, locals, one)?;
    }
    Ok(())
}

/// Adds the name that this takes for a variable, if it does and it is not declared.
fn add_variable(
    whole: &Tables,
    locals: &mut NameTable,
    name_use: &Use<'_>,
) -> Result<(), AllocError>
    ensures { OnOk result
        (locals.new ≡ fold with_name locals.old (flat_map (resolved.undeclared_name whole.now)
        (resolved.variable_used (use_view name_use.now)))) }
{
    match name_use {
        Use::Value {
            name,
            arguments: None,
        }
        | Use::Target {
            name,
            subscripted: false,
        }
        | Use::LoopVariable(name) => add_undeclared(whole, locals, name),
        _ => Ok(()),
    }
}

/// Adds a name that is not declared.
fn add_undeclared(whole: &Tables, locals: &mut NameTable, name: &[u8]) -> Result<(), AllocError>
    ensures { OnOk result
        (locals.new ≡ fold with_name locals.old (resolved.undeclared_name whole.now name.now)) }
{
    if whole.kinds.has(name) {
        return Ok(());
    }
    locals.add(name)
}
