//! FOR, LOOP, FIND and COMPUTE.
pub mod candidates;
pub mod verdict;

ghost use Rattle.std.specs.Prelude.{◌≡◌, ◌+◌, ◌<◌, ◌≤◌, ◌∷◌, [], length, drop, true, OnOk};
ghost use Rattle.ss_words.specs.declared.limits.TheConstants.{MOST_PHRASES};
ghost use Rattle.ss_program.specs.ProgramSound.{IsSoundPhrase, AreSoundQualifiers, AreSoundTellings, IsSoundLooping};
ghost use Rattle.ss_machine.specs.Executor.{state, tables};
ghost use Rattle.ss_machine.specs.Noting.{Notes};
ghost use Rattle.ss_machine.specs.Outcome.{LeadsTo, Gives};
ghost use Rattle.ss_state.specs.ChangeCounts as changes;
ghost use Rattle.ss_machine.specs.Seen.{InHeld};
ghost use Rattle.ss_state.specs.Loops.{loops_with_candidate, IsSoundWalk, AreSoundWalks};
ghost use Rattle.ss_state.specs.Statements.{state_after_result, state_at_place};
ghost use Rattle.ss_state.specs.Statements.Looping.{step_looping, step_phrase, state_with_loops, state_with_found};
ghost use Rattle.ss_state.specs.Statements.Looping.{state_with_statistics, state_after_reset, state_after_entry};
ghost use Rattle.ss_state.specs.Statements.Looping.{state_after_closing, candidate_tried, state_after_turn};
ghost use Rattle.ss_state.specs.Statements.Looping.{state_after_telling, statistics_after};
ghost use Rattle.ss_machine.specs.View.{as_verdict};

use crate::executor::Executor;
use crate::state::loops::OpenLoop;
use crate::state::statistics::{Statistics, no_statistics, statistic_value, statistics_with};
use crate::statements::looping::candidates::{
    loop_at_entry, loop_variable, next_candidate, verdict,
};
use crate::statements::looping::verdict::Verdict;
use ss_links::SetBoard;
use ss_program::{ForPhrase, Looping, Resets, Tellings, Ways};
use ss_state::{MOST_STEP_CHANGES, Status};
use ss_values::value;
use ss_words::RunFault;
use std::alloc::AllocError;

impl<S: SetBoard> Executor<S> {
    fn open_loop(&mut self, open_loop: OpenLoop) -> Result<(), AllocError>
        requires room { 0 < self.old.journal.notes }
        ensures state { OnOk result (state self.new
            ≡ state_with_loops (state self.old) (open_loop ∷ (state self.old).frame.loops)) }
        ensures notes { Notes 1 self.old self.new }
    {
        let change = self.held.open_loop(self.alloc, open_loop)?;
        self.journal.note(change);
        Ok(())
    }

    fn move_loop(&mut self, candidate: Option<i64>)
        requires there { 0 < length (state self.old).frame.loops }
        requires room { 0 < self.old.journal.notes }
        ensures state { state self.new
            ≡ state_with_loops (state self.old)
            (loops_with_candidate candidate (state self.old).frame.loops) }
        ensures beside { self.new.held.beside ≡ self.old.held.beside }
        ensures notes { Notes 1 self.old self.new }
    {
        let change = self.held.move_loop(candidate);
        self.journal.note(change);
    }

    fn close_loop(&mut self)
        requires room { 0 < self.old.journal.notes }
        ensures state { state self.new
            ≡ state_with_loops (state self.old) (drop 1 (state self.old).frame.loops) }
        ensures notes { Notes 1 self.old self.new }
    {
        if let Some(change) = self.held.close_loop() {
            self.journal.note(change);
        }
    }

    fn close_to(&mut self, place: usize)
        requires room { 1 < self.old.journal.notes }
        ensures state { state self.new ≡ state_after_closing place (state self.old) }
        ensures notes { Notes 2 self.old self.new }
    {
        self.close_loop();
        self.go_to(place);
    }

    fn set_found(&mut self, found: bool)
        requires room { 0 < self.old.journal.notes }
        ensures state { state self.new ≡ state_with_found (state self.old) found }
        ensures notes { Notes 1 self.old self.new }
    {
        let change = self.held.set_found(found);
        self.journal.note(change);
    }

    fn set_statistics(&mut self, statistics: Statistics)
        requires room { 0 < self.old.journal.notes }
        ensures state { state self.new ≡ state_with_statistics (state self.old) statistics }
        ensures notes { Notes 1 self.old self.new }
    {
        let change = self.held.set_statistics(statistics);
        self.journal.note(change);
    }

    fn reset(&mut self, resets: Resets)
        requires room { 0 < self.old.journal.notes }
        ensures state { state self.new ≡ state_after_reset (state self.old) resets }
        ensures notes { Notes 1 self.old self.new }
    {
        match resets {
            Resets::Nothing => {}
            Resets::Found => self.set_found(false),
            Resets::Statistics => self.set_statistics(no_statistics()),
        }
    }

    /// The entry of a FOR phrase.
    fn enter(&mut self, ways: Ways, phrase: &ForPhrase) -> Result<(), AllocError>
        requires sound { InHeld self.old.held IsSoundPhrase phrase.now.phrase }
        requires room { 1 < self.old.journal.notes }
        ensures state { OnOk result (state self.new
            ≡ state_after_entry (tables self.old) (state self.old) ways phrase.now) }
        ensures notes { Notes 2 self.old self.new }
    {
        let (_, place) = self.held.place();
        match loop_at_entry(self.held.view(), place, &phrase.phrase) {
            Ok(open_loop) => {
                self.open_loop(open_loop)?;
                self.reset(ways.resets);
            }
            Err(fault) => self.mark(Status::Faulted(fault)),
        }
        Ok(())
    }

    /// Moves the innermost loop past its candidate, which goes to its variable, and gives the
    /// verdict of the qualifiers then.
    fn try_candidate(
        &mut self,
        phrase: &ForPhrase,
        open_loop: OpenLoop,
        x: i64,
    ) -> Result<Verdict, RunFault>
        requires sound { InHeld self.old.held IsSoundPhrase phrase.now.phrase }
        requires qualifiers { InHeld self.old.held AreSoundQualifiers phrase.now.qualifiers }
        requires walk { IsSoundWalk (length (tables self.old).sets) open_loop.walk }
        requires there { 0 < length (state self.old).frame.loops }
        requires room { 1 < self.old.journal.notes }
        ensures outcome { Gives result
            (candidate_tried (tables self.old) (state self.old) phrase.now open_loop x)
            (λ verdict. (state self.new, as_verdict verdict)) }
        ensures there { 0 < length (state self.new).frame.loops }
        ensures notes { Notes 2 self.old self.new }
    {
        let next = next_candidate(self.held.view(), open_loop.walk, x)?;
        self.move_loop(next);
        self.assign(loop_variable(&phrase.phrase), x);
        verdict(self.held.view(), &phrase.qualifiers)
    }

    /// A turn of the innermost loop. The candidate is in its variable when the qualifiers are
    /// tested, so that a fault of theirs takes back the changes of the step.
    fn turn(&mut self, ways: Ways, phrase: &ForPhrase, open_loop: OpenLoop)
        requires sound { InHeld self.old.held IsSoundPhrase phrase.now.phrase }
        requires qualifiers { InHeld self.old.held AreSoundQualifiers phrase.now.qualifiers }
        requires walk { IsSoundWalk (length (tables self.old).sets) open_loop.walk }
        requires there { 0 < length (state self.old).frame.loops }
        requires none { self.old.journal.current ≡ [] }
        requires room { 3 < self.old.journal.notes }
        ensures state { state self.new
            ≡ state_after_turn (tables self.old) (state self.old) ways phrase.now open_loop
            open_loop.candidate }
        ensures notes { Notes 4 self.old self.new }
    {
        let Some(x) = open_loop.candidate else {
            self.close_to(ways.exit);
            return;
        };
        match self.try_candidate(phrase, open_loop, x) {
            Ok(Verdict::Runs) => self.go_to(ways.next),
            Ok(Verdict::Passes) => {}
            Ok(Verdict::Closes) => self.close_to(ways.exit),
            Err(fault) => {
                self.roll_back();
                self.mark(Status::Faulted(fault));
            }
        }
    }

    fn run_phrase(&mut self, ways: Ways, phrase: &ForPhrase) -> Result<(), AllocError>
        requires sound { InHeld self.old.held IsSoundPhrase phrase.now.phrase }
        requires qualifiers { InHeld self.old.held AreSoundQualifiers phrase.now.qualifiers }
        requires walks { AreSoundWalks
            (length (tables self.old).sets) (state self.old).frame.loops }
        requires none { self.old.journal.current ≡ [] }
        requires room { 3 < self.old.journal.notes }
        ensures state { OnOk result
            (state self.new ≡ step_phrase (tables self.old) (state self.old) ways phrase.now) }
        ensures notes { Notes 4 self.old self.new }
    {
        match self.held.loop_here() {
            None => self.enter(ways, phrase),
            Some(open_loop) => {
                self.turn(ways, phrase, open_loop);
                Ok(())
            }
        }
    }

    #[tactic(auto, using(ss_state::proofs::Parts::drop_one_more))]
    fn find(&mut self, ways: Ways)
        requires few { ways.chain ≤ MOST_PHRASES }
        requires room { 1 + ways.chain < self.old.journal.notes }
        ensures state { state self.new
            ≡ state_at_place ways.next
            (state_with_loops (state_with_found (state self.old) true)
            (drop ways.chain (state self.old).frame.loops)) }
        ensures notes { Notes (2 + ways.chain) self.old self.new }
    {
        self.set_found(true);
        for _ in 0..ways.chain {
            self.close_loop();
        }
        self.go_to(ways.next);
    }

    /// Assigns the statistics to the targets, in order.
    fn tell(&mut self, tellings: &Tellings, statistics: Statistics) -> Result<(), RunFault>
        requires sound { InHeld self.old.held AreSoundTellings tellings.now }
        requires room { length tellings.now < self.old.journal.notes }
        ensures outcome { LeadsTo result
            (state_after_telling (tables self.old) statistics (state self.old) tellings.now)
            (state self.new) }
        ensures notes { Notes (length tellings.now) self.old self.new }
    {
        for telling in &tellings.list {
            self.assign_target(
                &telling.target,
                statistic_value(statistics, telling.statistic),
            )?;
        }
        Ok(())
    }

    fn gather(&mut self, next: usize, got: Result<i64, RunFault>)
        requires room { 1 < self.old.journal.notes }
        ensures state { state self.new
            ≡ state_after_result (state self.old)
            (statistics_after (state self.old).frame.statistics got)
            (λ g. state_at_place next (state_with_statistics (state self.old) g)) }
        ensures notes { Notes 2 self.old self.new }
    {
        let more = match got {
            Ok(x) => statistics_with(self.held.statistics(), x),
            Err(fault) => Err(fault),
        };
        match more {
            Ok(statistics) => {
                self.set_statistics(statistics);
                self.go_to(next);
            }
            Err(fault) => self.mark(Status::Faulted(fault)),
        }
    }

    #[inline(never)]
    pub fn run_looping(&mut self, ways: Ways, looping: &Looping) -> Result<(), AllocError>
        requires sound { InHeld self.old.held IsSoundLooping looping.now }
        requires walks { AreSoundWalks
            (length (tables self.old).sets) (state self.old).frame.loops }
        requires few { ways.chain ≤ MOST_PHRASES }
        requires none { self.old.journal.current ≡ [] }
        requires room { changes.most_looping_changes ways looping.now ≤ self.old.journal.notes }
        ensures state { OnOk result
            (state self.new ≡ step_looping (tables self.old) (state self.old) ways looping.now) }
        ensures notes { Notes (changes.most_looping_changes ways looping.now) self.old self.new }
    {
        match looping {
            Looping::For(phrase) => self.run_phrase(ways, phrase.value()),
            Looping::Loop => {
                self.go_to(ways.next);
                Ok(())
            }
            Looping::Find => {
                self.find(ways);
                Ok(())
            }
            Looping::Gather(e) => {
                let got = value(self.held.view(), e.value());
                self.gather(ways.next, got);
                Ok(())
            }
            Looping::Tell(tellings) => {
                let statistics = self.held.statistics();
                let done = self.tell(tellings, statistics);
                self.settle(ways.next, done);
                Ok(())
            }
        }
    }
}

/// For how many changes LOOP, FIND, COMPUTE and a FOR phrase ask for room: they note no more.
#[inline(always)]
pub fn looping_room(ways: Ways, looping: &Looping) -> usize
    requires { ways.chain ≤ MOST_PHRASES }
    ensures { changes.most_looping_changes ways looping.now ≤ result }
{
    match looping {
        Looping::For(_) | Looping::Loop | Looping::Find | Looping::Gather(_) => MOST_STEP_CHANGES,
        Looping::Tell(tellings) => 1 + tellings.list.len(),
    }
}
