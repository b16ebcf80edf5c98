//! The symbol table of a text, which is kept to judge and resolve what is asked for later.

ghost use Rattle.std.specs.Prelude.{◌≡◌, map, IfOk};
ghost use Rattle.ss_preamble.specs.View as preamble;
ghost use Rattle.ss_routines.specs.View as view;
ghost use Rattle.ss_check.specs.Declarations.{heads};
ghost use Rattle.ss_check.specs.ResolvedNames.{locals_of, names as names_of};
ghost use Rattle.ss_check.specs.Symbols.{symbols_of};

use crate::declared::name_tables::NameTables;
use crate::declared::tables::Tables;
use crate::resolved::section_locals::section_locals;
use crate::rules::breach::tables;
use ss_preamble::Decls;
use ss_program::NameTable;
use ss_routines::{Section, Sections};
use std::alloc::{AllocError, Global};
use std::marker::Model;

/// The meaning of each name in each section of a text: its declarations, the numbers of its names,
/// and the local variables of its sections (docs/LANGUAGE.md, "Rules of the checker").
#[derive(Drop)]
pub struct SymbolTable {
    pub(crate) alloc: Global,
    /// The declarations of the whole text.
    pub(crate) whole: Tables,
    /// The tables of its names.
    pub(crate) names: NameTables,
    /// The names of the local variables of each section.
    pub(crate) locals: Vec<NameTable>,
}

impl Model for SymbolTable {
    ghost use Rattle.ss_check.specs.Symbols.{Symbols};

    ghost Value = { Symbols };

    ghost view = { λ a. record {
      declared = a.whole;
      names = a.names;
      locals = a.locals.items;
    } };
}

impl SymbolTable {
    /// The symbols of a text with these declarations and these sections. The only error is that
    /// memory was refused.
    pub fn new(alloc: Global, decls: &Decls, sections: &Sections) -> Result<SymbolTable, AllocError>
        ensures { IfOk result
            (λ table. table ≡ symbols_of (preamble.decls_view decls.now) sections.now) }
    {
        let sections = sections.list();
        let whole = tables(alloc, &decls.items, sections)?;
        match names_and_locals(alloc, &whole, sections) {
            Ok((names, locals)) => Ok(SymbolTable {
                alloc,
                whole,
                names,
                locals,
            }),
            Err(fault) => {
                drop(whole);
                Err(fault)
            }
        }
    }
}

/// The names of the program of these sections, whose text declares this, and the local variables of
/// each section.
fn names_and_locals(
    alloc: Global,
    whole: &Tables,
    sections: &[Section],
) -> Result<(NameTables, Vec<NameTable>), AllocError>
    ensures names { IfOk result (λ both. both.0
        ≡ names_of whole.now (heads (map view.section_view sections.now))) }
    ensures locals { IfOk result (λ both. both.1.items
        ≡ map (locals_of whole.now) (map view.section_view sections.now)) }
{
    let names = NameTables::new(alloc, whole, sections)?;
    match locals_of_sections(alloc, whole, sections) {
        Ok(locals) => Ok((names, locals)),
        Err(fault) => {
            drop(names);
            Err(fault)
        }
    }
}

/// The local variables of each of these sections, whose text declares this.
fn locals_of_sections(
    alloc: Global,
    whole: &Tables,
    sections: &[Section],
) -> Result<Vec<NameTable>, AllocError>
    ensures { IfOk result (λ locals. locals.items
        ≡ map (locals_of whole.now) (map view.section_view sections.now)) }
{
    let mut locals = Vec::with_capacity(alloc, sections.len())?;
    for section in sections {
        locals.push(section_locals(alloc, whole, section)?)?;
    }
    Ok(locals)
}
