//! The meaning of a text in a section: what it reads in the states of a run.
ghost use Rattle.std.specs.Prelude.{◌≡◌, ◌++◌, OnOk, OnSome, IfOk, Some, option_and_then};
ghost use Rattle.ss_words.specs.Reading.{option_view};
ghost use Rattle.ss_program.specs.ProgramSound.{IsSoundCondition, scope_in};
ghost use Rattle.ss_check.specs.Asked.{IsSymbolsOf};
ghost use Rattle.ss_state.specs.Frames.{frame_at};
ghost use Rattle.ss_state.specs.Readings.{IsSoundIn};
ghost use Rattle.ss_readings.specs.ValueView.{value_if};
ghost use Rattle.ss_expressions.specs.AskedView.{asked_view};
ghost use Rattle.ss_expressions.specs.Displayed.{with_value, sense_displayed, displayed};
ghost use Rattle.ss_expressions.specs.Meanings as spec;
ghost use Rattle.ss_expressions.specs.Senses as senses;
ghost use Rattle.ss_expressions.specs.MeaningsView.{meant_view};
ghost use Rattle.ss_expressions.specs.Senses.{judged_sense, set_in, IsSoundSense};
ghost use Rattle.ss_expressions.specs.SensesView.{sense_view};
ghost use Rattle.ss_expressions.specs.Wanted.{wanted_of};
ghost use Rattle.ss_expressions.specs.WantedView.{wanted_view};

use crate::answer::{push_list_of, push_refused};
use crate::asked::{Asked, asked_in};
use crate::listed::{list_value, push_class};
use crate::sense::{Sense, judged, set_in};
use crate::wanted::{Wanted, wanted_of};
use ss_check::SymbolTable;
use ss_inspect::living_numbers;
use ss_links::SetBoard;
use ss_machine::Machine;
use ss_program::Condition;
use ss_readings::{Reading, Value, push_value};
use ss_words::RunFault;
use std::alloc::{AllocError, Global};
use std::marker::Model;

/// What a text means in the section in which it was asked: an expression, a condition, a list, or
/// the entities of a class. It has no value in a frame of another section, if it names a local
/// variable; nor in a state in which its evaluation faults.
#[derive(Drop)]
pub struct Meaning {
    section: usize,
    sense: Sense,
    is_local: bool,
    alloc: Global,
}

impl Model for Meaning {
    ghost use Rattle.std.specs.Prelude.{◌≡◌};
    ghost use Rattle.std.specs.Coded.{codes};
    ghost use Rattle.ss_program.specs.ProgramExprCode.{expr_code};
    ghost use Rattle.ss_program.specs.ProgramConditionCode.{condition_code};
    ghost use Rattle.ss_expressions.specs.Meanings.{Meaning as Meant};
    ghost use Rattle.ss_expressions.specs.Senses.{sense_names_local};
    ghost use Rattle.ss_expressions.specs.SensesView.{sense_view};

    ghost Value = { Meant };

    ghost coded = { Prim.hlevel (codes, expr_code, condition_code) };

    ghost view = { λ m. record { section = m.section; sense = sense_view m.sense } };

    ghost invariant = { λ m. m.is_local ≡ sense_names_local (sense_view m.sense) };
}

/// The members of the list of which a condition says that it IS EMPTY, read in a frame.
#[tactic(auto, using(crate::proofs::Frames::owner_in, crate::proofs::Frames::set_there))]
fn value_of_list<S: SetBoard>(
    alloc: Global,
    machine: &Machine<S>,
    depth: usize,
    condition: &Condition,
) -> Result<Option<Value>, AllocError>
    requires { IsSoundIn IsSoundCondition machine.now.input.program
        (frame_at machine.now.state depth) condition.now }
    ensures { IfOk result (λ value. value_if value ≡ option_and_then
        (spec.list_value machine.now.input.program machine.now.state depth)
        (set_in condition.now)) }
{
    let Some(set) = set_in(condition) else {
        return Ok(None);
    };
    match machine.subscript_in(depth, &set.owner) {
        Some(Ok(owner)) => list_value(alloc, machine, set.set, owner),
        _ => Ok(None),
    }
}

/// A number, if there is one and no fault.
fn number_if(value: Option<Result<i64, RunFault>>) -> Option<Value>
    ensures { value_if result ≡ spec.number_if value }
{
    match value {
        Some(Ok(x)) => Some(Value::Number(x)),
        _ => None,
    }
}

/// A truth, if there is one and no fault.
fn truth_if(truth: Option<Result<bool, RunFault>>) -> Option<Value>
    ensures { value_if result ≡ spec.truth_if truth }
{
    match truth {
        Some(Ok(holds)) => Some(Value::Truth(holds)),
        _ => None,
    }
}

impl Meaning {
    /// What is asked in the section with this number.
    fn new(alloc: Global, section: usize, sense: Sense) -> Meaning
        ensures { result ≡ record { section = section; sense = sense_view sense } }
    {
        let is_local = sense.names_local();
        Meaning {
            section,
            sense,
            is_local,
            alloc,
        }
    }

    /// Whether it can be read in the frame with `depth` others above it.
    fn is_read_in<S: SetBoard>(&self, machine: &Machine<S>, depth: usize) -> bool
        ensures { result
            ≡ spec.is_read_in self.now (frame_at machine.now.state depth) }
    {
        match machine.frame_place(depth) {
            None => false,
            Some((section, _)) => !(self.is_local && section != self.section),
        }
    }

    /// Its value, read in the frame with `depth` others above it, of a section in which what it
    /// names is there.
    #[tactic(auto, using(crate::proofs::Frames::expression_in, crate::proofs::Frames::condition_in, crate::proofs::Frames::list_in))]
    fn value_there<S: SetBoard>(
        &self,
        machine: &Machine<S>,
        depth: usize,
    ) -> Result<Option<Value>, AllocError>
        requires { IsSoundIn IsSoundSense machine.now.input.program
            (frame_at machine.now.state depth) self.now.sense }
        ensures { IfOk result (λ value. value_if value
            ≡ spec.sense_value machine.now.input.program machine.now.state depth self.now.sense) }
    {
        match &self.sense {
            Sense::Expression(e) => Ok(number_if(machine.value_in(depth, e))),
            Sense::Condition(c) => Ok(truth_if(machine.truth_in(depth, c))),
            Sense::List(c) => value_of_list(self.alloc, machine, depth, c),
            Sense::Living(class) => {
                let members = living_numbers(self.alloc, machine, *class)?;
                Ok(Some(Value::Members(members)))
            }
        }
    }

    /// Its value, read in the frame with `depth` others above it.
    #[tactic(auto, unfolding(crate::specs::Meanings::meaning_value), using(crate::proofs::Frames::sound_there))]
    fn value_in<S: SetBoard>(
        &self,
        machine: &Machine<S>,
        depth: usize,
    ) -> Result<Option<Value>, AllocError>
        requires { spec.IsSoundMeaning machine.now.input.program self.now }
        ensures { IfOk result (λ value. value_if value
            ≡ spec.meaning_value machine.now.input.program self.now machine.now.state depth) }
    {
        if !self.is_read_in(machine, depth) {
            return Ok(None);
        }
        self.value_there(machine, depth)
    }
}

/// Appends a text and a mark, and a value, or that there is none.
fn push_with_value(
    answer: &mut Vec<u8>,
    text: &[u8],
    mark: &[u8],
    value: &Option<Value>,
) -> Result<(), AllocError>
    ensures { OnOk result (answer.new.items
        ≡ answer.old.items ++ with_value text.now mark.now (value_if value.now)) }
{
    answer.extend_from_slice(text)?;
    answer.extend_from_slice(mark)?;
    push_value(answer, value)?;
    answer.extend_from_slice(b"\n")
}

/// Appends a list as SHOW prints it, or that there is none.
fn push_list_or_none<S: SetBoard>(
    answer: &mut Vec<u8>,
    machine: &Machine<S>,
    text: &[u8],
    condition: &Condition,
    value: &Option<Value>,
) -> Result<(), AllocError>
    requires { OnSome value.now (IsSoundCondition (scope_in machine.now.input.program
        machine.now.state.frame.section) condition.now) }
    ensures { OnOk result (answer.new.items ≡ answer.old.items
        ++ sense_displayed machine.now.input.program machine.now.state text.now
        (senses.list condition.now) (value_if value.now)) }
{
    match value {
        Some(_) => push_list_of(answer, machine, condition),
        None => push_with_value(answer, text, b": ", &None),
    }
}

/// Appends the entities of a class as SHOW prints them, or that there is no value.
fn push_class_or_none<S: SetBoard>(
    answer: &mut Vec<u8>,
    machine: &Machine<S>,
    text: &[u8],
    class: usize,
    value: &Option<Value>,
) -> Result<(), AllocError>
    ensures { OnOk result (answer.new.items ≡ answer.old.items
        ++ sense_displayed machine.now.input.program machine.now.state text.now
        (senses.living class) (value_if value.now)) }
{
    match value {
        Some(_) => push_class(answer, machine, class),
        None => push_with_value(answer, text, b": ", &None),
    }
}

impl Meaning {
    /// Appends the text that means this, and its value in the machine's present state, or that it
    /// has none; a list and the entities of a class as SHOW prints them. `AllocError` if memory was
    /// refused; then the appended bytes do not count.
    #[tactic(auto, using(crate::proofs::Frames::displayed_sound))]
    pub fn push_displayed<S: SetBoard>(
        &self,
        answer: &mut Vec<u8>,
        machine: &Machine<S>,
        text: &[u8],
    ) -> Result<(), AllocError>
        requires { spec.IsSoundMeaning machine.now.input.program self.now }
        ensures { OnOk result (answer.new.items ≡ answer.old.items
            ++ displayed machine.now.input.program machine.now.state text.now self.now) }
    {
        let value = self.value_in(machine, 0)?;
        match &self.sense {
            Sense::Expression(_) => push_with_value(answer, text, b" = ", &value),
            Sense::Condition(_) => push_with_value(answer, text, b": ", &value),
            Sense::List(c) => push_list_or_none(answer, machine, text, c, &value),
            Sense::Living(class) => push_class_or_none(answer, machine, text, *class, &value),
        }
    }
}

impl Reading for Meaning {
    ghost use Rattle.ss_expressions.specs.Meanings.{IsSoundMeaning, subject_of};

    ghost suits = { λ meaning program. IsSoundMeaning program meaning };

    ghost subject = { λ meaning program. subject_of meaning program };

    fn is_local(&self) -> bool {
        self.is_local
    }

    fn value<S: SetBoard>(
        &self,
        machine: &Machine<S>,
        depth: usize,
    ) -> Result<Option<Value>, AllocError> {
        self.value_in(machine, depth)
    }
}

/// What a text means.
#[derive(Drop)]
pub enum Meant {
    /// The meaning.
    As(Meaning),
    /// No meaning: the answer that says why.
    Refused(Vec<u8>),
}

/// The meaning of what is wanted in the section with this number, or the answer that says why it has
/// none.
fn meaning_wanted(
    alloc: Global,
    symbols: &SymbolTable,
    section: usize,
    wanted: &Wanted,
) -> Result<Meant, AllocError>
    ensures { IfOk result (λ m. meant_view m ≡ spec.meant_judged section
        (judged_sense symbols.now section (wanted_view wanted.now))) }
{
    match judged(symbols, section, wanted)? {
        Ok(sense) => Ok(Meant::As(Meaning::new(alloc, section, sense))),
        Err(fault) => {
            let mut answer = Vec::new(alloc);
            push_refused(&mut answer, fault)?;
            Ok(Meant::Refused(answer))
        }
    }
}

/// The meaning of what is asked in the section with this number, or the answer that says why it has
/// none.
#[tactic(auto, using(crate::proofs::Scopes::sense_sound))]
fn meaning_judged<S: SetBoard>(
    alloc: Global,
    machine: &Machine<S>,
    symbols: &SymbolTable,
    section: usize,
    asked: Asked,
) -> Result<Meant, AllocError>
    requires { IsSymbolsOf machine.now.input.program symbols.now }
    ensures meaning { IfOk result (λ m. meant_view m ≡ spec.meant_judged section
        (judged_sense symbols.now section
        (wanted_of machine.now.input.program (asked_view asked)))) }
    ensures sound { IfOk result
        (λ m. spec.IsSoundMeant machine.now.input.program (meant_view m)) }
{
    let wanted = wanted_of(alloc, machine.program(), asked);
    meaning_wanted(alloc, symbols, section, &wanted)
}

/// The meaning of a text that is an expression, a condition, a list or the name of a class
/// (docs/PROMPT.md), asked in the section with this number; or the answer that says why it has none
/// there. `None` if the text is nothing of these.
///
/// `AllocError` if memory was refused.
#[tactic(auto, unfolding(crate::specs::Meanings::meaning_asked))]
pub fn meaning_of<S: SetBoard>(
    alloc: Global,
    machine: &Machine<S>,
    symbols: &SymbolTable,
    section: usize,
    text: &[u8],
) -> Result<Option<Meant>, AllocError>
    requires { IsSymbolsOf machine.now.input.program symbols.now }
    ensures meaning { IfOk result (λ o. option_view meant_view o
        ≡ spec.meaning_asked symbols.now machine.now.input.program section text.now) }
    ensures sound { IfOk result
        (λ o. spec.IsMeaningOf machine.now.input.program (option_view meant_view o)) }
{
    match asked_in(alloc, text)? {
        None => Ok(None),
        Some(asked) => Ok(Some(meaning_judged(alloc, machine, symbols, section, asked)?)),
    }
}
