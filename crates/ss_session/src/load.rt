//! Reads a model into a program, or gives the rule and the line by which the model is refused.
ghost use Rattle.std.specs.Prelude.{IfOk, IfErr};
ghost use Rattle.ss_check.specs.Asked.{IsSymbolsOf};
ghost use Rattle.ss_preamble.specs.Limits.{IsWithin};
ghost use Rattle.ss_preamble.specs.Tree.{items_of};
ghost use Rattle.ss_preamble.specs.View.{decls_view};
ghost use Rattle.ss_session.specs.Model.{accepted, IsOfModel, IsOutcome, Spells};
ghost use Rattle.ss_session.specs.Load.{IsLoadFault};

use crate::letting_go::{drop_decls, drop_symbols};
use ss_check::{CheckFault, CheckRule, Program, SymbolTable, Wrong, check};
use ss_preamble::{Decls, preamble};
use ss_routines::{Sections, sections};
use ss_words::{TextFault, TextRule, words};
use std::alloc::Global;

/// Why a model is no program, or that memory for reading it was refused.
#[derive(Debug, Drop)]
pub enum LoadFault {
    /// The model's text is refused, by this rule L or P at this line.
    Text {
        rule: TextRule,
        line: usize,
    },
    /// The spelled model is refused, by this rule C at this line; `wrong` says why and by which
    /// name.
    Check {
        rule: CheckRule,
        line: usize,
        wrong: Wrong,
    },
    /// Memory was refused.
    Memory,
}

impl From<TextFault> for LoadFault {
    ghost use Rattle.std.specs.Prelude.{◌≡◌};
    ghost use Rattle.ss_session.specs.Load.{load_fault_of_text};

    ghost from_gives = { λ refusal fault. fault ≡ load_fault_of_text refusal };

    fn from(refusal: TextFault) -> LoadFault {
        match refusal {
            TextFault::Refused { rule, line } => LoadFault::Text { rule, line },
            TextFault::Memory => LoadFault::Memory,
        }
    }
}

impl From<CheckFault> for LoadFault {
    ghost use Rattle.std.specs.Prelude.{◌≡◌};
    ghost use Rattle.ss_session.specs.Load.{load_fault_of_check};

    ghost from_gives = { λ refusal fault. fault ≡ load_fault_of_check refusal };

    fn from(refusal: CheckFault) -> LoadFault {
        match refusal {
            CheckFault::Broken { rule, line, wrong } => LoadFault::Check { rule, line, wrong },
            CheckFault::Memory => LoadFault::Memory,
        }
    }
}

/// The declarations and the sections that a model spells (docs/LANGUAGE.md), or the one rule and
/// line by which its text is refused.
#[tactic(auto, using(crate::proofs::Loads::loads))]
fn spelled(alloc: Global, model: &[u8]) -> Result<(Decls, Sections), LoadFault>
    ensures ok { IfOk result (λ text. Spells model.now (decls_view text.0) text.1) }
    ensures within { IfOk result (λ text. IsWithin (items_of (decls_view text.0))) }
    ensures err { IfErr result (λ fault. IsLoadFault fault model.now) }
{
    let words = words(alloc, model)?;
    let (decls, from) = preamble(alloc, &words)?;
    let sections = sections(alloc, &words, from)?;
    // The checker reads no words, and its program takes as much memory as they did.
    drop(words);
    Ok((decls, sections))
}

/// The program that a model is (docs/LANGUAGE.md), or the one rule and line by which it is refused.
#[tactic(auto, using(crate::proofs::Loads::loads))]
pub fn load_program(alloc: Global, model: &[u8]) -> Result<Program, LoadFault>
    ensures ok { IfOk result (λ program. IsOutcome model.now (accepted program)) }
    ensures err { IfErr result (λ fault. IsLoadFault fault model.now) }
{
    let (decls, sections) = spelled(alloc, model)?;
    Ok(check(alloc, decls, sections)?)
}

/// The program that a model is, and the symbol table of its text.
#[derive(Drop)]
pub struct Loaded {
    pub program: Program,
    pub symbols: SymbolTable,
}

/// The program that a model is, with the symbol table by which expressions and conditions are asked
/// for in its sections; or the one rule and line by which the model is refused.
#[tactic(auto, using(crate::proofs::Loads::loads))]
pub fn load_with_symbols(alloc: Global, model: &[u8]) -> Result<Loaded, LoadFault>
    ensures ok { IfOk result (λ loaded. IsOutcome model.now (accepted loaded.program)) }
    ensures symbols { IfOk result (λ loaded. IsOfModel model.now loaded.program loaded.symbols) }
    ensures sound { IfOk result (λ loaded. IsSymbolsOf loaded.program loaded.symbols) }
    ensures err { IfErr result (λ fault. IsLoadFault fault model.now) }
{
    let (decls, sections) = spelled(alloc, model)?;
    match SymbolTable::new(alloc, &decls, &sections) {
        Ok(symbols) => match check(alloc, decls, sections) {
            Ok(program) => Ok(Loaded { program, symbols }),
            Err(fault) => {
                drop_symbols(symbols);
                Err(LoadFault::from(fault))
            }
        },
        Err(_) => {
            drop(sections);
            drop_decls(decls);
            Err(LoadFault::Memory)
        }
    }
}
