//! Agendas of four classes.
ghost use Rattle.std.specs.Prelude.{◌≡◌, ◌≤◌, length, map, IfOk};
ghost use Rattle.ss_events.specs.State.{AreRanked};
ghost use Rattle.ss_events.specs.Views.{rule_of};
ghost use Rattle.ss_links.specs.Board.{empty_board};

use ss_events::{Agenda, ClassRule};
use ss_links::{LinkedSets, SetBoard};
use ss_program::{Key, Rank};
use std::alloc::{AllocError, Global};
use std::process::Abort;

// The rule of a class without keys.
fn keyless(alloc: Global, for_events: bool, priority: usize) -> ClassRule
    ensures { result.priority ≡ priority }
{
    ClassRule {
        for_events,
        priority,
        ties: Vec::new(alloc),
    }
}

// The rule of an event class with these keys.
fn keyed(alloc: Global, priority: usize, keys: &[Key]) -> Result<ClassRule, AllocError>
    ensures { IfOk result (λ rule. rule.priority ≡ priority) }
{
    let ties = Vec::from_slice(alloc, keys)?;
    Ok(ClassRule {
        for_events: true,
        priority,
        ties,
    })
}

const HIGH: Key = Key {
    rank: Rank::High,
    attribute: 0,
};

const LOW: Key = Key {
    rank: Rank::Low,
    attribute: 1,
};

// The classes have no keys, one of HIGH, one of LOW, one of HIGH and then one of LOW.
fn four_rules(alloc: Global) -> Result<Vec<ClassRule>, AllocError>
    ensures { IfOk result (λ rules. AreRanked (map rule_of rules.items) × (length rules.items ≤ 64)) }
{
    let high = keyed(alloc, 2, &[HIGH]);
    let low = keyed(alloc, 1, &[LOW]);
    let both = keyed(alloc, 0, &[HIGH, LOW]);
    match (high, low, both) {
        (Ok(high), Ok(low), Ok(both)) => {
            Ok(vec![in alloc; keyless(alloc, true, 3), high, low, both]?)
        }
        _ => Err(AllocError),
    }
}

/// An agenda of four classes.
pub fn started<S: SetBoard>(alloc: Global, board: S) -> Result<Agenda<S>, AllocError>
    requires { S.board board ≡ empty_board }
{
    let rules = four_rules(alloc)?;
    Agenda::with_rules(alloc, rules, board)
}

// The same on linked sets.
fn linked(alloc: Global) -> Result<Agenda<LinkedSets>, AllocError> {
    started(alloc, LinkedSets::new(alloc))
}

/// An agenda of four classes on linked sets, made again if memory was refused.
pub fn linked_again(rt: &impl Abort, alloc: Global) -> Agenda<LinkedSets> {
    match linked(alloc) {
        Ok(agenda) => agenda,
        Err(_) => linked(alloc).expect(rt, "an agenda"),
    }
}

// Four classes, of which the second and the last are event classes.
fn two_event_classes(alloc: Global) -> Result<Vec<ClassRule>, AllocError>
    ensures { IfOk result (λ rules. AreRanked (map rule_of rules.items) × (length rules.items ≤ 64)) }
{
    let first = keyless(alloc, false, 0);
    let second = keyless(alloc, true, 3);
    let third = keyless(alloc, false, 2);
    let last = keyless(alloc, true, 1);
    Ok(vec![in alloc; first, second, third, last]?)
}

/// An agenda of these classes.
pub fn of_two_event_classes(alloc: Global) -> Result<Agenda<LinkedSets>, AllocError> {
    let rules = two_event_classes(alloc)?;
    Agenda::with_rules(alloc, rules, LinkedSets::new(alloc))
}
