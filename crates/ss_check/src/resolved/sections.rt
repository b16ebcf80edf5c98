//! Making sections with the numbers of their names.

ghost use Rattle.std.specs.Prelude.{◌≡◌, ◌++◌, false, length, map, IfOk, OnOk};
ghost use Rattle.std.specs.List.{list_any};
ghost use Rattle.ss_routines.specs.View as view;
ghost use Rattle.ss_check.specs.Declarations.{given_of, yielded_of};
ghost use Rattle.ss_check.specs.PlaceRules.{has_wrong_picture};
ghost use Rattle.ss_check.specs.Resolved as resolved;
ghost use Rattle.ss_check.specs.ResolvedNames.{locals_of};

use crate::declared::name_tables::NameTables;
use crate::declared::tables::{Tables, name_count};
use crate::resolved::declarations::copied;
use crate::resolved::expressions::written_listing;
use crate::resolved::places::resolve_places;
use crate::resolved::scope::Scope;
use crate::resolved::section_locals::section_locals;
use ss_program::{Head, LocalDefine, Name, NameTable, Section, SectionKind};
use std::alloc::{AllocError, Global};

/// A section of a program with these tables, with the numbers of its names.
pub(crate) fn resolve_section(
    alloc: Global,
    whole: &Tables,
    names: &NameTables,
    section: ss_routines::Section,
) -> Result<Section, AllocError>
    requires { list_any (λ s. has_wrong_picture s.place) (view.section_view section).places
        ≡ false }
    ensures { IfOk result
        (λ s. s ≡ resolved.resolved_section whole.now names.now (view.section_view section)) }
{
    match begin_section(alloc, whole, &section) {
        Ok(begun) => with_places(alloc, whole, names, begun, section.places),
        Err(fault) => {
            drop(section);
            Err(fault)
        }
    }
}

/// The parts of a section, apart from its places.
#[derive(Drop)]
struct Begun {
    head: Head,
    /// The names of its local variables.
    locals: NameTable,
    defines: Vec<LocalDefine>,
}

/// The beginning of a section.
fn begin_section(
    alloc: Global,
    whole: &Tables,
    section: &ss_routines::Section,
) -> Result<Begun, AllocError>
    ensures head { IfOk result (λ begun. begun.head ≡ record {
      name = resolved.section_name (view.section_view section.now).head;
      kind = resolved.section_kind (view.section_view section.now).head;
      line = section.now.line;
      given = length (given_of (view.section_view section.now).head);
      yielded = length (yielded_of (view.section_view section.now).head);
      saving = resolved.says_saving (view.section_view section.now).head;
      listing = resolved.head_listing (view.section_view section.now).head;
    }) }
    ensures locals { IfOk result
        (λ begun. begun.locals ≡ locals_of whole.now (view.section_view section.now)) }
    ensures defines { IfOk result (λ begun. begun.defines.items
        ≡ map resolved.define_table (view.section_view section.now).locals) }
{
    let defines = resolve_defines(alloc, &section.locals)?;
    match head_and_locals(alloc, whole, section) {
        Ok((head, locals)) => Ok(Begun {
            head,
            locals,
            defines,
        }),
        Err(fault) => {
            drop(defines);
            Err(fault)
        }
    }
}

/// The head of a section, and its local variables.
fn head_and_locals(
    alloc: Global,
    whole: &Tables,
    section: &ss_routines::Section,
) -> Result<(Head, NameTable), AllocError>
    ensures head { IfOk result (λ both. both.0 ≡ record {
      name = resolved.section_name (view.section_view section.now).head;
      kind = resolved.section_kind (view.section_view section.now).head;
      line = section.now.line;
      given = length (given_of (view.section_view section.now).head);
      yielded = length (yielded_of (view.section_view section.now).head);
      saving = resolved.says_saving (view.section_view section.now).head;
      listing = resolved.head_listing (view.section_view section.now).head;
    }) }
    ensures locals { IfOk result
        (λ both. both.1 ≡ locals_of whole.now (view.section_view section.now)) }
{
    let locals = section_locals(alloc, whole, section)?;
    match resolve_head(alloc, section) {
        Ok(head) => Ok((head, locals)),
        Err(fault) => {
            drop(locals);
            Err(fault)
        }
    }
}

/// The section that begins so and has these places. The text of a place is let go as soon as the
/// place is made.
fn with_places(
    alloc: Global,
    whole: &Tables,
    names: &NameTables,
    begun: Begun,
    places: Vec<ss_routines::Spot>,
) -> Result<Section, AllocError>
    requires { list_any (λ s. has_wrong_picture s.place) (view.spots places.items) ≡ false }
    ensures { IfOk result (λ s. s ≡ record {
      name = begun.head.name;
      kind = begun.head.kind;
      line = begun.head.line;
      given = begun.head.given;
      yielded = begun.head.yielded;
      saving = begun.head.saving;
      locals = begun.locals;
      places = map (resolved.resolved_spot whole.now names.now begun.locals)
          (view.spots places.items);
      listing = begun.head.listing;
      defines = begun.defines.items;
    }) }
{
    let scope = Scope {
        alloc,
        whole,
        names,
        locals: &begun.locals,
    };
    match resolve_places(scope, places) {
        Ok(places) => {
            let Begun {
                head,
                locals,
                defines,
            } = begun;
            Section::new(alloc, head, locals.into_names(), places, defines)
        }
        Err(fault) => {
            drop(begun);
            Err(fault)
        }
    }
}

/// The parts of a section, apart from its locals, its places and its local DEFINEs.
fn resolve_head(alloc: Global, section: &ss_routines::Section) -> Result<Head, AllocError>
    ensures { IfOk result (λ head. head ≡ record {
      name = resolved.section_name (view.section_view section.now).head;
      kind = resolved.section_kind (view.section_view section.now).head;
      line = section.now.line;
      given = length (given_of (view.section_view section.now).head);
      yielded = length (yielded_of (view.section_view section.now).head);
      saving = resolved.says_saving (view.section_view section.now).head;
      listing = resolved.head_listing (view.section_view section.now).head;
    }) }
{
    let line = section.line;
    match &section.kind {
        ss_routines::SectionKind::Main => Ok(Head {
            name: copied(alloc, b"MAIN")?,
            kind: SectionKind::Main,
            line,
            given: 0,
            yielded: 0,
            saving: false,
            listing: ss_program::Listing::Given,
        }),
        ss_routines::SectionKind::Routine { given, yielded } => Ok(Head {
            name: copied(alloc, section.name.bytes())?,
            kind: SectionKind::Routine,
            line,
            given: name_count(given),
            yielded: yielded.len(),
            saving: false,
            listing: written_listing(given),
        }),
        ss_routines::SectionKind::Event { given, saving } => Ok(Head {
            name: copied(alloc, section.name.bytes())?,
            kind: SectionKind::Event,
            line,
            given: name_count(given),
            yielded: 0,
            saving: *saving,
            listing: written_listing(given),
        }),
    }
}

/// The local DEFINEs of a section.
fn resolve_defines(
    alloc: Global,
    defines: &[ss_routines::LocalNames],
) -> Result<Vec<LocalDefine>, AllocError>
    ensures { IfOk result
        (λ list. list.items ≡ map resolved.define_table (map view.local_view defines.now)) }
{
    let mut list = Vec::with_capacity(alloc, defines.len())?;
    for define in defines {
        list.push(resolve_define(alloc, define)?)?;
    }
    Ok(list)
}

/// A local DEFINE, with copies of its names.
fn resolve_define(
    alloc: Global,
    define: &ss_routines::LocalNames,
) -> Result<LocalDefine, AllocError>
    ensures { IfOk result (λ one. one ≡ resolved.define_table (view.local_view define.now)) }
{
    let mut names = Vec::with_capacity(alloc, 1 + define.names.others.len())?;
    names.push(copied(alloc, define.names.first.bytes())?)?;
    add_copies(alloc, &mut names, &define.names.others)?;
    Ok(LocalDefine {
        line: define.line,
        names,
    })
}

/// Puts copies of names at the end of a list.
fn add_copies(
    alloc: Global,
    list: &mut Vec<Name>,
    names: &[ss_words::Name],
) -> Result<(), AllocError>
    ensures { OnOk result (list.new.items ≡ list.old.items ++ names.now) }
{
    for name in names {
        list.push(copied(alloc, name.bytes())?)?;
    }
    Ok(())
}
