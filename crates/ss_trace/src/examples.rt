//! Searches and histories of small runs: each function is a law, proved by computing.
#![tactic(auto, unfolding(crate::proofs::Unfoldings::answers_together))]

ghost use Rattle.std.specs.Prelude.{◌≡◌, ◌∷◌, [], codes, false, true, Some, None, pos};
ghost use Rattle.ss_debug.specs.declared.commands.Question.TheVariants as shown;
ghost use Rattle.ss_trace.specs.declared.question.Question.TheVariants.{Shown, Count};
ghost use Rattle.ss_trace.specs.Question.{attribute_text, count_text, changes_at};
ghost use Rattle.ss_trace.specs.History.{history, history_text};
ghost use Rattle.ss_trace.specs.declared.touches.Part.TheVariants as parts;
ghost use Rattle.ss_trace.specs.declared.touches.Touch.TheVariants.{Nothing, Attribute, Attributes, Set, Entities};
ghost use Rattle.ss_trace.specs.EntityNumbers.{numbers_at};
ghost use Rattle.ss_trace.specs.Told.{is_told_at};
ghost use Rattle.ss_trace.specs.Touches.{touched_at};
ghost use Rattle.ss_trace.specs.Examples as e;

/// A set changes when a member is filed and when it is removed. An entity changes also when it is
/// made, set and ended. It does not when another one is made, or when it is set to the value that
/// it has.
fn lists_and_entities_change()
    ensures list { history e.jobs_run e.row 0 11 ≡ 7 ∷ 2 ∷ [] }
    ensures count { history e.jobs_run (Count (codes "ROW") None) 0 11 ≡ 7 ∷ 2 ∷ [] }
    ensures membership { history e.jobs_run e.membership 0 11 ≡ 8 ∷ 7 ∷ 2 ∷ 0 ∷ [] }
    ensures attribute { history e.jobs_run e.size 0 11 ≡ 8 ∷ 1 ∷ 0 ∷ [] }
    ensures entity { history e.jobs_run (e.job_shown 1) 0 11 ≡ 8 ∷ 7 ∷ 2 ∷ 1 ∷ 0 ∷ [] }
    ensures another { history e.jobs_run (e.job_shown 2) 0 11 ≡ 9 ∷ [] }
{}

/// One attribute, a kept one too, and how many members a list has.
fn attributes_and_counts_are_told()
    ensures attribute { attribute_text (codes "DESK") (pos 2) (codes "OPEN") e.desks_run 5
        ≡ codes "OPEN = 7\n" }
    ensures kept { attribute_text (codes "DESK") (pos 2) (codes "N.ROW") e.desks_run 5
        ≡ codes "N.ROW = 1\n" }
    ensures no_attribute { attribute_text (codes "DESK") (pos 2) (codes "SIZE") e.desks_run 5
        ≡ codes "NO ATTRIBUTE SIZE\n" }
    ensures no_entity { attribute_text (codes "DESK") (pos 4) (codes "OPEN") e.desks_run 5
        ≡ codes "NO ENTITY DESK 4\n" }
    ensures count { count_text (codes "ROW") None e.jobs_run 3 ≡ codes "COUNT ROW: 1\n" }
    ensures owned { count_text (codes "ROW") (Some (pos 2)) e.desks_run 4
        ≡ codes "COUNT ROW 2: 1\n" }
    ensures no_owner { count_text (codes "ROW") None e.desks_run 4 ≡ codes "NO ENTITY DESK 0\n" }
    ensures no_set { count_text (codes "LINE") None e.desks_run 4 ≡ codes "NO SET LINE\n" }
{}

/// A set that is filed into and removed from in neighbouring steps changes at both.
fn neighbouring_steps_change_a_list()
    ensures list { history e.brief_run e.row 0 3 ≡ 2 ∷ 1 ∷ [] }
    ensures membership { history e.brief_run e.membership 0 3 ≡ 2 ∷ 1 ∷ 0 ∷ [] }
    ensures entity { history e.brief_run (e.job_shown 1) 0 3 ≡ 2 ∷ 1 ∷ 0 ∷ [] }
    ensures back { e.back_from e.brief_run e.row 0 3 ≡ 2 }
    ensures further { e.back_from e.brief_run e.row 0 2 ≡ 1 }
    ensures forward { e.run_from e.brief_run e.row 0 ≡ 2 }
    ensures behind { e.run_from e.brief_run e.row 2 ≡ 3 }
{}

/// The numbers of an entity are those of its lines, and there are none if it does not exist. How
/// much a step may change depends on its statement.
fn numbers_of_an_entity()
    ensures before { numbers_at e.jobs_run (e.job_shown 1) 0 ≡ [] }
    ensures filed { numbers_at e.jobs_run (e.job_shown 1) 3
        ≡ pos 1 ∷ pos 5 ∷ pos 0 ∷ pos 0 ∷ pos 0 ∷ pos 0 ∷ pos 0 ∷ pos 1 ∷ [] }
    ensures ended { numbers_at e.jobs_run (e.job_shown 1) 9 ≡ [] }
    ensures makes { touched_at e.jobs_run parts.Entities 0 ≡ Entities }
    ensures set { touched_at e.jobs_run parts.Entities 1 ≡ Attribute 0 0 }
    ensures files { touched_at e.jobs_run parts.Entities 2 ≡ Set 0 }
    ensures call { touched_at e.jobs_run parts.Entities 3 ≡ Nothing }
    ensures local { touched_at e.jobs_run parts.Entities 4 ≡ Nothing }
    ensures yielded { touched_at e.jobs_run parts.Entities 5 ≡ Attributes }
{}

/// The numbers on the other side of a step agree with the parts that it may have changed, unless it
/// changed them.
fn numbers_tell_what_stayed()
    ensures set { is_told_at e.jobs_run (e.job_shown 1) (numbers_at e.jobs_run (e.job_shown 1) 2)
        (Attribute 0 0) 1 ≡ false }
    ensures files { is_told_at e.jobs_run (e.job_shown 1) (numbers_at e.jobs_run (e.job_shown 1) 3)
        (Set 0) 2 ≡ false }
    ensures stays { is_told_at e.jobs_run (e.job_shown 1) (numbers_at e.jobs_run (e.job_shown 1) 3)
        (Set 0) 3 ≡ true }
    ensures ends { is_told_at e.jobs_run (e.job_shown 1) (numbers_at e.jobs_run (e.job_shown 1) 9)
        Entities 8 ≡ false }
    ensures another { is_told_at e.jobs_run (e.job_shown 2)
        (numbers_at e.jobs_run (e.job_shown 2) 9) Entities 8 ≡ true }
{}

/// A local changes when its frame is entered and left; a variable when another value is assigned;
/// each target of a READ, and the number of values taken, once.
fn variables_change()
    ensures local { history e.jobs_run (e.var (codes "Q")) 0 11 ≡ 5 ∷ 4 ∷ 3 ∷ [] }
    ensures hidden { history e.jobs_run (e.var (codes "X")) 0 11 ≡ 5 ∷ 3 ∷ [] }
    ensures read { history e.readings_run (e.var (codes "A")) 0 3 ≡ 0 ∷ [] }
    ensures other { history e.readings_run (e.var (codes "B")) 0 3 ≡ 0 ∷ [] }
    ensures taken { history e.readings_run (Shown shown.Taken) 0 3 ≡ 0 ∷ [] }
{}

/// A notice is pending until its start; SKIP 0 leaves the report; a fault changes nothing but the
/// status.
fn notices_and_reports_change()
    ensures pending { history e.ticks_run (Shown shown.Events) 0 7 ≡ 1 ∷ 0 ∷ [] }
    ensures clock { history e.ticks_run (Shown shown.Clock) 0 7 ≡ 1 ∷ [] }
    ensures report { history e.ticks_run (Shown shown.Report) 0 7 ≡ 3 ∷ [] }
    ensures fault { history e.walk_run e.walked_set 0 10 ≡ 8 ∷ 5 ∷ 2 ∷ [] }
{}

/// BACK CHANGE stops before the step of the change, at position 0 too, and else at the earliest
/// kept position. RUN CHANGE stops after that step, and else at the last state.
fn searches_end()
    ensures back { e.back_from e.jobs_run e.row 0 11 ≡ 7 }
    ensures further { e.back_from e.jobs_run e.row 0 7 ≡ 2 }
    ensures start { e.back_from e.jobs_run e.size 0 1 ≡ 0 }
    ensures kept { e.back_from e.jobs_run e.row 3 7 ≡ 3 }
    ensures at_kept { e.back_from e.jobs_run e.row 2 7 ≡ 2 }
    ensures forward { e.run_from e.jobs_run e.row 0 ≡ 3 }
    ensures behind { e.run_from e.jobs_run e.row 3 ≡ 8 }
    ensures last { e.run_from e.jobs_run e.row 8 ≡ 11 }
    ensures at_last { changes_at e.jobs_run e.row 11 ≡ false }
    ensures forgotten { history e.jobs_run e.row 3 11 ≡ 7 ∷ [] }
    ensures kept_too { history e.jobs_run e.row 2 11 ≡ 7 ∷ 2 ∷ [] }
    ensures none { history_text e.jobs_run e.row 10 8 11 ≡ codes "NO CHANGE SINCE STATE 8\n" }
{}
