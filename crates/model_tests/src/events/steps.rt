//! Steps on an agenda, each noted so that it can be taken back.
ghost use Rattle.std.specs.Prelude.{◌≡◌, []};
ghost use Rattle.ss_journal.specs.Undoing.{FitsSteps};
ghost use Rattle.ss_events.specs.Changes.{Fits, unapply};

use crate::events::plain::{Plain, with_key};
use ss_events::{Agenda, AgendaChange};
use ss_journal::{Journal, roll_back};
use ss_links::SetBoard;
use ss_words::{RunFault, StepFault};
use std::alloc::AllocError;
use std::process::Abort;

/// One step that schedules a notice, or the fault if that is refused.
pub fn schedule<S: SetBoard>(
    rt: &impl Abort,
    agenda: &mut Agenda<S>,
    journal: &mut Journal<AgendaChange>,
    notice: &Plain,
    clock: i64,
) -> Result<Option<RunFault>, AllocError>
    requires closed { journal.old.current ≡ [] }
    requires fits { FitsSteps Fits unapply journal.old.steps agenda.old }
    ensures closed { journal.new.current ≡ [] }
    ensures fits { FitsSteps Fits unapply journal.new.steps agenda.new }
{
    journal.reserve(1)?;
    assert!(rt; 0 < notice.notice && notice.notice <= 1_000_000);
    let count = agenda.key_count(notice.class).expect(rt, "an event class");
    assert!(rt; count <= notice.keys.len());
    let keys = &notice.keys[..count];
    match agenda.schedule(notice.notice, notice.class, notice.time, clock, keys) {
        Ok(change) => {
            journal.note(change);
            journal.close();
            Ok(None)
        }
        Err(StepFault::Fault(fault)) => Ok(Some(fault)),
        Err(StepFault::Memory) => Err(AllocError),
    }
}

/// One step that schedules a notice, for which no memory is refused.
pub fn schedules<S: SetBoard>(
    rt: &impl Abort,
    agenda: &mut Agenda<S>,
    journal: &mut Journal<AgendaChange>,
    notice: &Plain,
    clock: i64,
) -> Option<RunFault>
    requires closed { journal.old.current ≡ [] }
    requires fits { FitsSteps Fits unapply journal.old.steps agenda.old }
    ensures closed { journal.new.current ≡ [] }
    ensures fits { FitsSteps Fits unapply journal.new.steps agenda.new }
{
    schedule(rt, agenda, journal, notice, clock).expect(rt, "a step")
}

/// One step back; false if there is none.
pub fn back<S: SetBoard>(agenda: &mut Agenda<S>, journal: &mut Journal<AgendaChange>) -> bool
    requires closed { journal.old.current ≡ [] }
    requires fits { FitsSteps Fits unapply journal.old.steps agenda.old }
    ensures closed { journal.new.current ≡ [] }
    ensures fits { FitsSteps Fits unapply journal.new.steps agenda.new }
{
    if !journal.reopen_last() {
        return false;
    }
    roll_back(agenda, journal);
    true
}

/// Schedules notices at one time, each of a class and with a key.
pub fn schedule_all<S: SetBoard>(
    rt: &impl Abort,
    agenda: &mut Agenda<S>,
    journal: &mut Journal<AgendaChange>,
    rows: &[(u32, usize, i64)],
)
    requires closed { journal.old.current ≡ [] }
    requires fits { FitsSteps Fits unapply journal.old.steps agenda.old }
    ensures closed { journal.new.current ≡ [] }
    ensures fits { FitsSteps Fits unapply journal.new.steps agenda.new }
{
    for &(notice, class, key) in rows {
        schedules(rt, agenda, journal, &with_key(notice, 5, class, key), 0);
    }
}
