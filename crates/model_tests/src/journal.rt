//! Steps of a journal over a small state, forward and back, also if memory is refused.
ghost use Rattle.std.specs.Prelude.{◌≡◌, ◌≤◌, []};
ghost use Rattle.ss_journal.specs.Undoing.{FitsSteps};

use crate::compare::same;
use ss_journal::{Journal, Undo, roll_back};
use std::alloc::AllocError;
use std::process::Abort;

// A dial with a value, and one turn of it.
#[derive(Drop)]
struct Dial {
    value: u64,
}

#[derive(Drop)]
struct Turn {
    from: u64,
    to: u64,
}

impl Undo for Dial {
    type Change = Turn;

    ghost fits = { λ turn dial. turn.to ≡ dial.value };

    ghost unapply = { λ turn dial. record { value = turn.from } };

    fn undo(&mut self, turn: Turn) {
        self.value = turn.from;
    }
}

impl Dial {
    fn turn(&mut self, to: u64) -> Turn
        ensures fits { ⟦<Dial as Undo>⟧.fits result self.new }
        ensures back { ⟦<Dial as Undo>⟧.unapply result self.new ≡ self.old }
    {
        let from = self.value;
        self.value = to;
        Turn { from, to }
    }
}

// One step, a turn for each value; nothing if memory was refused.
fn forward(dial: &mut Dial, journal: &mut Journal<Turn>, values: &[u64]) -> Result<(), AllocError>
    requires closed { journal.old.current ≡ [] }
    requires fits { FitsSteps ⟦<Dial as Undo>⟧.fits ⟦<Dial as Undo>⟧.unapply journal.old.steps dial.old }
    ensures closed { journal.new.current ≡ [] }
    ensures fits { FitsSteps ⟦<Dial as Undo>⟧.fits ⟦<Dial as Undo>⟧.unapply journal.new.steps dial.new }
{
    journal.reserve(values.len())?;
    for value in values {
        let turn = dial.turn(*value);
        journal.note(turn);
    }
    journal.close();
    Ok(())
}

// The same; a step that is refused memory is tried again.
fn forward_again(rt: &impl Abort, dial: &mut Dial, journal: &mut Journal<Turn>, values: &[u64])
    requires closed { journal.old.current ≡ [] }
    requires fits { FitsSteps ⟦<Dial as Undo>⟧.fits ⟦<Dial as Undo>⟧.unapply journal.old.steps dial.old }
    ensures closed { journal.new.current ≡ [] }
    ensures fits { FitsSteps ⟦<Dial as Undo>⟧.fits ⟦<Dial as Undo>⟧.unapply journal.new.steps dial.new }
{
    if forward(dial, journal, values).is_err() {
        forward(dial, journal, values).expect(rt, "a step");
    }
}

// One step back; false if there is none.
fn back(dial: &mut Dial, journal: &mut Journal<Turn>) -> bool
    requires closed { journal.old.current ≡ [] }
    requires fits { FitsSteps ⟦<Dial as Undo>⟧.fits ⟦<Dial as Undo>⟧.unapply journal.old.steps dial.old }
    ensures closed { journal.new.current ≡ [] }
    ensures fits { FitsSteps ⟦<Dial as Undo>⟧.fits ⟦<Dial as Undo>⟧.unapply journal.new.steps dial.new }
{
    if !journal.reopen_last() {
        return false;
    }
    roll_back(dial, journal);
    true
}

// Goes one step back, to this value.
fn goes_back(rt: &impl Abort, dial: &mut Dial, journal: &mut Journal<Turn>, value: u64)
    requires closed { journal.old.current ≡ [] }
    requires fits { FitsSteps ⟦<Dial as Undo>⟧.fits ⟦<Dial as Undo>⟧.unapply journal.old.steps dial.old }
    ensures closed { journal.new.current ≡ [] }
    ensures fits { FitsSteps ⟦<Dial as Undo>⟧.fits ⟦<Dial as Undo>⟧.unapply journal.new.steps dial.new }
{
    same(rt, (back(dial, journal), dial.value), (true, value));
}

// Has no step to go back; the dial stays at this value.
fn stays(rt: &impl Abort, dial: &mut Dial, journal: &mut Journal<Turn>, value: u64)
    requires closed { journal.old.current ≡ [] }
    requires fits { FitsSteps ⟦<Dial as Undo>⟧.fits ⟦<Dial as Undo>⟧.unapply journal.old.steps dial.old }
    ensures closed { journal.new.current ≡ [] }
    ensures fits { FitsSteps ⟦<Dial as Undo>⟧.fits ⟦<Dial as Undo>⟧.unapply journal.new.steps dial.new }
{
    same(rt, (back(dial, journal), dial.value), (false, value));
}

// Forgets all steps but the newest.
fn forget(dial: &Dial, journal: &mut Journal<Turn>, kept: usize)
    requires closed { journal.old.current ≡ [] }
    requires fits { FitsSteps ⟦<Dial as Undo>⟧.fits ⟦<Dial as Undo>⟧.unapply journal.old.steps dial.now }
    ensures closed { journal.new.current ≡ [] }
    ensures fits { FitsSteps ⟦<Dial as Undo>⟧.fits ⟦<Dial as Undo>⟧.unapply journal.new.steps dial.now }
{
    journal.keep_last(kept);
}

// Prints that memory was refused for a step, whose number counts from 0.
fn tell(rt: &(impl Abort + Print), step: usize) {
    println!(rt; "memory was refused at step {step}").expect(rt, "a line");
}

// One step forward from a value. One that is refused memory is tried again, with nothing changed.
fn step(
    rt: &(impl Abort + Print),
    dial: &mut Dial,
    journal: &mut Journal<Turn>,
    before: u64,
    values: &[u64],
)
    requires closed { journal.old.current ≡ [] }
    requires fits { FitsSteps ⟦<Dial as Undo>⟧.fits ⟦<Dial as Undo>⟧.unapply journal.old.steps dial.old }
    ensures closed { journal.new.current ≡ [] }
    ensures fits { FitsSteps ⟦<Dial as Undo>⟧.fits ⟦<Dial as Undo>⟧.unapply journal.new.steps dial.new }
{
    let kept = journal.steps();
    same(rt, dial.value, before);
    if forward(dial, journal, values).is_err() {
        same(rt, dial.value, before);
        same(rt, journal.steps(), kept);
        tell(rt, kept);
        forward(dial, journal, values).expect(rt, "a step");
    }
}

// The turns of six steps, one step after the other.
const TURNS: [u64; 12] = [3, 5, 7, 11, 13, 17, 2, 19, 23, 29, 31, 37];

// For each step: the value before it, and the bounds of its turns; the third step has none.
const STEPS: [(u64, usize, usize); 6] = [
    (0, 0, 1),
    (3, 1, 3),
    (7, 3, 3),
    (7, 3, 6),
    (17, 6, 7),
    (2, 7, 12),
];

// Six steps forward, each state compared.
fn there(rt: &(impl Abort + Print), dial: &mut Dial, journal: &mut Journal<Turn>)
    requires closed { journal.old.current ≡ [] }
    requires fits { FitsSteps ⟦<Dial as Undo>⟧.fits ⟦<Dial as Undo>⟧.unapply journal.old.steps dial.old }
    ensures closed { journal.new.current ≡ [] }
    ensures fits { FitsSteps ⟦<Dial as Undo>⟧.fits ⟦<Dial as Undo>⟧.unapply journal.new.steps dial.new }
{
    for (before, begin, end) in STEPS {
        let values = TURNS.get(begin..end).expect(rt, "turns");
        step(rt, dial, journal, before, values);
    }
}

// Six steps back, each state compared, and no more.
fn all_back(rt: &impl Abort, dial: &mut Dial, journal: &mut Journal<Turn>)
    requires closed { journal.old.current ≡ [] }
    requires fits { FitsSteps ⟦<Dial as Undo>⟧.fits ⟦<Dial as Undo>⟧.unapply journal.old.steps dial.old }
    ensures closed { journal.new.current ≡ [] }
    ensures fits { FitsSteps ⟦<Dial as Undo>⟧.fits ⟦<Dial as Undo>⟧.unapply journal.new.steps dial.new }
{
    same(rt, dial.value, 37);
    for (kept, before) in [(5, 2), (4, 17), (3, 7), (2, 7), (1, 3), (0, 0)] {
        goes_back(rt, dial, journal, before);
        same(rt, journal.steps(), kept);
    }
    stays(rt, dial, journal, 0);
}

// Six steps forward and all back.
fn there_and_back(rt: &(impl Abort + Print), dial: &mut Dial, journal: &mut Journal<Turn>)
    requires closed { journal.old.current ≡ [] }
    requires fits { FitsSteps ⟦<Dial as Undo>⟧.fits ⟦<Dial as Undo>⟧.unapply journal.old.steps dial.old }
    ensures closed { journal.new.current ≡ [] }
    ensures fits { FitsSteps ⟦<Dial as Undo>⟧.fits ⟦<Dial as Undo>⟧.unapply journal.new.steps dial.new }
{
    there(rt, dial, journal);
    all_back(rt, dial, journal);
}

#[test]
fn each_earlier_state_comes_back(rt: HostRuntime) {
    let mut dial = Dial { value: 0 };
    let mut journal = Journal::new(rt.alloc());
    there_and_back(&rt, &mut dial, &mut journal);
    there_and_back(&rt, &mut dial, &mut journal);
    drop(journal);
}

// Makes room for two turns. If memory is refused, nothing has changed, and room is made again.
fn make_room(rt: &(impl Abort + Print), journal: &mut Journal<Turn>)
    ensures current { journal.new.current ≡ journal.old.current }
    ensures notes { 2 ≤ journal.new.notes }
{
    if journal.reserve(2).is_err() {
        same(rt, journal.steps(), 0);
        tell(rt, 0);
        journal.reserve(2).expect(rt, "room");
    }
}

// Turns twice in a step that stays open, and takes both turns back.
fn turn_twice(dial: &mut Dial, journal: &mut Journal<Turn>)
    requires closed { journal.old.current ≡ [] }
    requires notes { 2 ≤ journal.old.notes }
    ensures closed { journal.new.current ≡ [] }
{
    let first = dial.turn(5);
    journal.note(first);
    let second = dial.turn(7);
    journal.note(second);
    roll_back(dial, journal);
}

// The journal has no step, and nothing in the open one.
fn is_empty(rt: &impl Abort, journal: &mut Journal<Turn>)
    requires closed { journal.old.current ≡ [] }
{
    same(rt, journal.steps(), 0);
    same(rt, journal.pop_open().is_none(), true);
    same(rt, journal.reopen_last(), false);
}

#[test]
fn work_that_was_not_closed_is_taken_back(rt: HostRuntime) {
    let mut dial = Dial { value: 3 };
    let mut journal = Journal::new(rt.alloc());
    make_room(&rt, &mut journal);
    turn_twice(&mut dial, &mut journal);
    same(&rt, dial.value, 3);
    is_empty(&rt, &mut journal);
    drop(journal);
}

// Three steps forward, of which two are kept; then these two back.
fn two_of_three_are_kept(rt: &impl Abort, dial: &mut Dial, journal: &mut Journal<Turn>)
    requires closed { journal.old.current ≡ [] }
    requires fits { FitsSteps ⟦<Dial as Undo>⟧.fits ⟦<Dial as Undo>⟧.unapply journal.old.steps dial.old }
    ensures closed { journal.new.current ≡ [] }
    ensures fits { FitsSteps ⟦<Dial as Undo>⟧.fits ⟦<Dial as Undo>⟧.unapply journal.new.steps dial.new }
{
    forward_again(rt, dial, journal, &[3]);
    forward_again(rt, dial, journal, &[5, 7]);
    forward_again(rt, dial, journal, &[11]);
    forget(dial, journal, 5);
    same(rt, journal.steps(), 3);
    forget(dial, journal, 2);
    same(rt, journal.steps(), 2);
    goes_back(rt, dial, journal, 7);
    goes_back(rt, dial, journal, 3);
    stays(rt, dial, journal, 3);
}

// One step forward, which is not kept.
fn none_is_kept(rt: &impl Abort, dial: &mut Dial, journal: &mut Journal<Turn>)
    requires closed { journal.old.current ≡ [] }
    requires fits { FitsSteps ⟦<Dial as Undo>⟧.fits ⟦<Dial as Undo>⟧.unapply journal.old.steps dial.old }
    ensures closed { journal.new.current ≡ [] }
    ensures fits { FitsSteps ⟦<Dial as Undo>⟧.fits ⟦<Dial as Undo>⟧.unapply journal.new.steps dial.new }
{
    forward_again(rt, dial, journal, &[13]);
    forget(dial, journal, 0);
    same(rt, journal.steps(), 0);
    stays(rt, dial, journal, 13);
}

#[test]
fn what_is_kept_comes_back(rt: HostRuntime) {
    let mut dial = Dial { value: 0 };
    let mut journal = Journal::new(rt.alloc());
    two_of_three_are_kept(&rt, &mut dial, &mut journal);
    none_is_kept(&rt, &mut dial, &mut journal);
    drop(journal);
}

// Thirty steps forward, after each of which the newest two are kept; then these two back.
fn two_are_kept(rt: &impl Abort, dial: &mut Dial, journal: &mut Journal<Turn>)
    requires closed { journal.old.current ≡ [] }
    requires fits { FitsSteps ⟦<Dial as Undo>⟧.fits ⟦<Dial as Undo>⟧.unapply journal.old.steps dial.old }
    ensures closed { journal.new.current ≡ [] }
    ensures fits { FitsSteps ⟦<Dial as Undo>⟧.fits ⟦<Dial as Undo>⟧.unapply journal.new.steps dial.new }
{
    for value in 0..30 {
        forward_again(rt, dial, journal, &[value, value + 1]);
        forget(dial, journal, 2);
    }
    for before in [29, 28] {
        goes_back(rt, dial, journal, before);
    }
    stays(rt, dial, journal, 28);
}

#[test]
fn room_goes_round(rt: HostRuntime) {
    let mut dial = Dial { value: 0 };
    let mut journal = Journal::new(rt.alloc());
    two_are_kept(&rt, &mut dial, &mut journal);
    two_are_kept(&rt, &mut dial, &mut journal);
    drop(journal);
}
