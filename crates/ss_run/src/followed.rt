//! The glance and the answer that are kept of a traced question, from state to state. Definitions
//! name the type only for proofs.
ghost use Rattle.std.specs.Prelude.{◌≡◌, ◌+◌, ◌&&◌, ◌||◌, IfOk, OnOk, not, bytes_eq};
ghost use Rattle.ss_machine.specs.Moment.{position};
ghost use Rattle.ss_trace.specs.Question.{changes_at};
ghost use Rattle.ss_run.specs.Followed.{is_report, answer_kept, kept_in, kept_at};
ghost use Rattle.ss_run.specs.Glance.{is_same, is_quiet};
ghost use Rattle.ss_run.specs.Tracing.{IsHere};

use crate::glance::{Glance, glance_of, is_quiet, is_same};
use crate::here::Here;
use ss_debug::{Debugger, Question as Shown};
use ss_links::SetBoard;
use ss_program::Place;
use ss_trace::{Question, push_answer};
use std::alloc::{AllocError, Global};
use std::mem::replace;

/// The glance and the answer that are kept of a question.
#[derive(Drop)]
pub struct Followed {
    /// The glance at the state.
    pub glance: Glance,
    /// The answer; empty for the report, whose length is in the glance.
    pub answer: Vec<u8>,
}

/// Whether a question asks for the report.
fn is_report(question: &Question) -> bool
    ensures { result ≡ is_report question.now }
{
    matches!(question, Question::Shown(Shown::Report))
}

/// The answer that is kept at the debugger's position.
fn answer_kept<S: SetBoard>(
    alloc: Global,
    debugger: &Debugger<S>,
    question: &Question,
) -> Result<Vec<u8>, AllocError>
    ensures { IfOk result (λ answer. answer.items
        ≡ answer_kept debugger.now.machine.input question.now (position debugger.now.machine)) }
{
    let mut answer = Vec::new(alloc);
    if is_report(question) {
        return Ok(answer);
    }
    push_answer(debugger, question, &mut answer)?;
    Ok(answer)
}

/// Whether the step of a place leaves the answer to a question as it is, by the glances before and
/// after it.
fn is_left(question: &Question, place: &Place, before: Glance, seen: Glance) -> bool
    ensures { result ≡ (is_same before seen && is_quiet question.now place.now) }
{
    is_same(before, seen) && is_quiet(question, place)
}

/// Whether a question whose answer is not left as it is changed, by the two answers that are kept.
fn has_changed(question: &Question, before: &[u8], now: &[u8]) -> bool
    ensures { result ≡ (is_report question.now || not (bytes_eq before.now now.now)) }
{
    is_report(question) || before != now
}

impl Followed {
    /// The glance and the answer at the debugger's position.
    pub fn new<S: SetBoard>(
        alloc: Global,
        debugger: &Debugger<S>,
        question: &Question,
    ) -> Result<Self, AllocError>
        ensures { IfOk result (λ followed. kept_in followed
            ≡ kept_at debugger.now.machine.input question.now (position debugger.now.machine)) }
    {
        let answer = answer_kept(alloc, debugger, question)?;
        Ok(Followed {
            glance: glance_of(debugger, question),
            answer,
        })
    }

    /// Keeps the glance and the answer at the debugger's position, after a step from `here`, and
    /// returns whether the question changed there. An answer is made only if the step may have
    /// changed it.
    pub fn follow<S: SetBoard>(
        &mut self,
        alloc: Global,
        debugger: &Debugger<S>,
        question: &Question,
        here: Here,
    ) -> Result<bool, AllocError>
        requires here { IsHere debugger.now.machine.input here.position here }
        requires step { position debugger.now.machine ≡ here.position + 1 }
        requires kept { kept_in self.old
            ≡ kept_at debugger.now.machine.input question.now here.position }
        ensures kept { OnOk result (kept_in self.new
            ≡ kept_at debugger.now.machine.input question.now (here.position + 1)) }
        ensures changed { IfOk result (λ changed. changed
            ≡ changes_at debugger.now.machine.input question.now here.position) }
    {
        let seen = glance_of(debugger, question);
        let before = replace(&mut self.glance, seen);
        let place = &debugger
            .machine()
            .program()
            .spot(here.section, here.place)
            .place;
        if is_left(question, place, before, seen) {
            return Ok(false);
        }
        let now = answer_kept(alloc, debugger, question)?;
        let before = replace(&mut self.answer, now);
        Ok(has_changed(question, &before, &self.answer))
    }
}
