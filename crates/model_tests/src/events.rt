//! Calls on an agenda that are refused memory, and facts that no answer shows: filing numbers and
//! heads. Calls as by chance are cases: tests/answers/chance.tsv.
mod agree;
mod plain;
mod rules;
mod steps;

ghost use Rattle.std.specs.Prelude.{◌≡◌, ◌<◌, []};
ghost use Rattle.ss_journal.specs.Undoing.{FitsSteps};
ghost use Rattle.ss_events.specs.Changes.{Fits, unapply};

use crate::compare::same;
use crate::events::agree::{behind_seat, first_seat, stand_so};
use crate::events::plain::with_key;
use crate::events::rules::{linked_again, of_two_event_classes};
use crate::events::steps::{back, schedule, schedule_all, schedules};
use ss_events::{Agenda, AgendaChange};
use ss_journal::Journal;
use ss_links::SetBoard;
use std::alloc::Global;
use std::process::Abort;

// Notices with their times, classes and keys, in the order of their scheduling.
const ROWS: [(u32, i64, usize, i64); 5] = [
    (3, 5, 0, 0),
    (1, 5, 1, 2),
    (2, 4, 3, 1),
    (4, 5, 1, 7),
    (900_000, 5, 0, 0),
];

// The order after each number of these schedulings, as many long.
const ORDERS: [[u32; 5]; 6] = [
    [0, 0, 0, 0, 0],
    [3, 0, 0, 0, 0],
    [1, 3, 0, 0, 0],
    [2, 1, 3, 0, 0],
    [2, 4, 1, 3, 0],
    [2, 4, 1, 3, 900_000],
];

// Compares the order with that after this number of the rows.
fn stand_behind<S: SetBoard>(rt: &impl Abort, agenda: &Agenda<S>, count: usize)
    requires { count < 6 }
{
    stand_so(rt, agenda, &ORDERS[count][..count]);
}

// Schedules the notice of a row. A scheduling that is refused memory changes nothing, and is made
// again.
fn schedule_row<S: SetBoard>(
    rt: &impl Abort,
    agenda: &mut Agenda<S>,
    journal: &mut Journal<AgendaChange>,
    number: usize,
)
    requires number { number < 5 }
    requires closed { journal.old.current ≡ [] }
    requires fits { FitsSteps Fits unapply journal.old.steps agenda.old }
    ensures closed { journal.new.current ≡ [] }
    ensures fits { FitsSteps Fits unapply journal.new.steps agenda.new }
{
    let (notice, time, class, key) = ROWS[number];
    let notice = with_key(notice, time, class, key);
    if schedule(rt, agenda, journal, &notice, 0).is_err() {
        stand_behind(rt, agenda, number);
        schedules(rt, agenda, journal, &notice, 0);
    }
    stand_behind(rt, agenda, number + 1);
}

// Takes all five schedulings back.
fn all_back<S: SetBoard>(
    rt: &impl Abort,
    agenda: &mut Agenda<S>,
    journal: &mut Journal<AgendaChange>,
)
    requires closed { journal.old.current ≡ [] }
    requires fits { FitsSteps Fits unapply journal.old.steps agenda.old }
    ensures closed { journal.new.current ≡ [] }
    ensures fits { FitsSteps Fits unapply journal.new.steps agenda.new }
{
    for number in 0..5 {
        same(rt, back(agenda, journal), true);
        stand_behind(rt, agenda, 4 - number);
    }
}

// Schedules five notices and takes all back.
fn there_and_back<S: SetBoard>(
    rt: &impl Abort,
    agenda: &mut Agenda<S>,
    journal: &mut Journal<AgendaChange>,
)
    requires closed { journal.old.current ≡ [] }
    requires fits { FitsSteps Fits unapply journal.old.steps agenda.old }
    ensures closed { journal.new.current ≡ [] }
    ensures fits { FitsSteps Fits unapply journal.new.steps agenda.new }
{
    for number in 0..5 {
        schedule_row(rt, agenda, journal, number);
    }
    all_back(rt, agenda, journal);
}

// Compares a change with one that took off notice 9, after notice 7 and of the second filing.
fn took_second_filing(rt: &impl Abort, change: &AgendaChange) {
    match change {
        AgendaChange::TakenOff {
            notice,
            entry,
            predecessor,
        } => {
            same(rt, *notice, 9);
            same(rt, *predecessor, Some(7));
            same(rt, entry.filing, 2);
        }
        AgendaChange::Scheduled { .. } => panic!(rt; "a notice that was taken off"),
    }
}

// Takes that notice off.
fn takes_second_filing<S: SetBoard>(rt: &impl Abort, agenda: &mut Agenda<S>) {
    assert!(rt; agenda.slot(9).is_some());
    let change = agenda.take(9);
    took_second_filing(rt, &change);
    drop(change);
}

// Schedules notices 7 and 8, one step back, and schedules notice 9.
fn gives_a_filing_number_again<S: SetBoard>(
    rt: &impl Abort,
    agenda: &mut Agenda<S>,
    journal: &mut Journal<AgendaChange>,
)
    requires closed { journal.old.current ≡ [] }
    requires fits { FitsSteps Fits unapply journal.old.steps agenda.old }
{
    schedule_all(rt, agenda, journal, &[(7, 0, 0), (8, 0, 0)]);
    same(rt, back(agenda, journal), true);
    schedule_all(rt, agenda, journal, &[(9, 0, 0)]);
    takes_second_filing(rt, agenda);
}

// Only an event class counts keys.
fn counts_keys<S: SetBoard>(rt: &impl Abort, agenda: &Agenda<S>) {
    same(rt, agenda.key_count(0), None);
    same(rt, agenda.key_count(3), Some(0));
    same(rt, agenda.key_count(4), None);
}

// Schedules a notice of each event class, which is at its head.
fn stand_at_heads<S: SetBoard>(
    rt: &impl Abort,
    agenda: &mut Agenda<S>,
    journal: &mut Journal<AgendaChange>,
)
    requires closed { journal.old.current ≡ [] }
    requires fits { FitsSteps Fits unapply journal.old.steps agenda.old }
{
    counts_keys(rt, agenda);
    schedule_all(rt, agenda, journal, &[(1, 1, 0), (2, 3, 0)]);
    stand_so(rt, agenda, &[2, 1]);
    same(rt, agenda.board().heads(), 2);
    behind_seat(rt, agenda, first_seat(rt, agenda, 0), 1);
    behind_seat(rt, agenda, first_seat(rt, agenda, 1), 2);
}

// The actions of a test on an agenda at its start.
#[derive(Clone, Copy)]
enum Scene {
    ThereAndBack,
    FilingNumber,
    Heads,
}

// Plays a scene on an agenda at its start, with an empty journal.
fn acts<S: SetBoard>(
    rt: &impl Abort,
    agenda: &mut Agenda<S>,
    journal: &mut Journal<AgendaChange>,
    scene: Scene,
)
    requires closed { journal.old.current ≡ [] }
    requires fits { FitsSteps Fits unapply journal.old.steps agenda.old }
{
    match scene {
        Scene::ThereAndBack => {
            there_and_back(rt, agenda, journal);
            there_and_back(rt, agenda, journal);
        }
        Scene::FilingNumber => gives_a_filing_number_again(rt, agenda, journal),
        Scene::Heads => stand_at_heads(rt, agenda, journal),
    }
}

// The same with a new journal; the agenda goes with it.
fn plays<S: SetBoard>(rt: &impl Abort, alloc: Global, agenda: Agenda<S>, scene: Scene) {
    let mut agenda = agenda;
    let mut journal = Journal::new(alloc);
    acts(rt, &mut agenda, &mut journal, scene);
    drop(journal);
    drop(agenda);
}

// Plays the scene on linked sets, made again if memory was refused.
fn plays_again(rt: &impl Abort, alloc: Global, scene: Scene) {
    plays(rt, alloc, linked_again(rt, alloc), scene);
}

#[test]
fn a_refused_growth_changes_nothing(rt: HostRuntime) {
    plays_again(&rt, rt.alloc(), Scene::ThereAndBack);
}

#[test]
fn a_filing_number_comes_back(rt: HostRuntime) {
    plays_again(&rt, rt.alloc(), Scene::FilingNumber);
}

#[test]
fn each_event_class_has_a_head(rt: HostRuntime) {
    let alloc = rt.alloc();
    let agenda = of_two_event_classes(alloc).expect(&rt, "an agenda");
    plays(&rt, alloc, agenda, Scene::Heads);
}
