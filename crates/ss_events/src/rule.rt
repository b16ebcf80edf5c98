//! The parts of a program's classes that the order of notices needs.
ghost use Rattle.std.specs.Prelude.{◌≡◌, ◌<◌, ◌≤◌, ◌==◌, IfOk, length, map, position};
ghost use Rattle.ss_words.specs.declared.limits.TheConstants.{MOST_CLASSES};
ghost use Rattle.ss_program.specs.Program.{priority_of};
ghost use Rattle.ss_events.specs.Rules.{program_rule, rules_of, event_number};
ghost use Rattle.ss_events.specs.Views.{rule_of};

use ss_program::{ClassKind, Key, Program};
use std::alloc::{AllocError, Global};

/// The rule of a class, which the order of notices needs.
#[derive(Drop)]
pub struct ClassRule {
    /// Whether notices may be of it: it is an event class.
    pub for_events: bool,
    /// Its place in the order of priority, which no other class has.
    pub priority: usize,
    /// The keys of its BREAK ties.
    pub ties: Vec<Key>,
}

/// The rules of a program's classes, class by class.
pub(crate) fn class_rules(alloc: Global, program: &Program) -> Result<Vec<ClassRule>, AllocError>
    ensures { IfOk result (λ rules. map rule_of rules.items ≡ rules_of program.now) }
{
    let mut rules = Vec::new(alloc);
    for class in 0..program.classes.len() {
        let rule = class_rule(alloc, program, class)?;
        rules.push(rule)?;
    }
    Ok(rules)
}

/// The rule of a class, which the order of notices needs.
fn class_rule(alloc: Global, program: &Program, class: usize) -> Result<ClassRule, AllocError>
    requires { class < length program.now.classes }
    ensures { IfOk result (λ rule. rule_of rule ≡ program_rule program.now class) }
{
    let ties = class_ties(alloc, program, class)?;
    Ok(ClassRule {
        for_events: class_is_event(program, class),
        priority: class_priority(program, class),
        ties,
    })
}

/// Whether a class is an event class.
fn class_is_event(program: &Program, class: usize) -> bool
    requires { class < length program.now.classes }
    ensures { result ≡ (program_rule program.now class).for_events }
{
    match &program.classes[class].kind {
        ClassKind::Event(_) => true,
        _ => false,
    }
}

/// The keys of a class's BREAK ties; none if it is no event class.
fn class_ties(alloc: Global, program: &Program, class: usize) -> Result<Vec<Key>, AllocError>
    requires { class < length program.now.classes }
    ensures { IfOk result (λ ties. ties.items ≡ (program_rule program.now class).ties) }
{
    match &program.classes[class].kind {
        ClassKind::Event(event) => event.ties.list.to_vec(alloc),
        _ => Ok(Vec::new(alloc)),
    }
}

/// The place of a class among those that are named.
fn named_place(named: &[usize], class: usize) -> Option<usize>
    ensures { result ≡ position (λ other. class == other) named.now }
{
    named.iter().position(|other| class == *other)
}

/// The class's place in the order of priority: that among those that are named, or after them.
fn class_priority(program: &Program, class: usize) -> usize
    requires { class < length program.now.classes }
    ensures { result ≡ priority_of program.now class }
{
    program.known();
    match named_place(&program.priority, class) {
        Some(place) => place,
        None => program.priority.len() + class,
    }
}

/// The number of a class among the event classes: how many are declared before it.
pub(crate) fn event_number(rules: &[ClassRule], class: usize) -> u32
    requires class { class ≤ length rules.now }
    requires few { length rules.now ≤ MOST_CLASSES }
    ensures { result ≡ event_number (map rule_of rules.now) class }
{
    let mut number = 0;
    for other in 0..class {
        if rules[other].for_events {
            number += 1;
        }
    }
    number
}
