//! The changes of steps of small runs: each function is a law, proved by computing.
#![tactic(auto, unfolding(crate::proofs::Unfoldings::answers_together))]

ghost use Rattle.std.specs.Prelude.{◌≡◌, ◌++◌, [], codes, replicate};
ghost use Rattle.ss_inspect.specs.Examples as seen;
ghost use Rattle.ss_changes.specs.declared.value.PartValue.TheVariants.{Listed};
ghost use Rattle.ss_changes.specs.Texts.{changed_text, stop_changes, stop_changes_ahead};
ghost use Rattle.ss_changes.specs.Texts.{stop_changes_since, all_changes_since};
ghost use Rattle.ss_changes.specs.Texts.{brief_text, cut_text};
ghost use Rattle.ss_changes.specs.Examples as e;

/// Variables: READ of three targets; a variable that is given its own value; locals when a frame is
/// entered and left.
fn variables_are_told_where_they_differ()
    ensures start { changed_text e.jobs_run 0 0 ≡ codes "START\n" }
    ensures kept { changed_text e.jobs_run 4 4 ≡ codes "NOTHING KEPT\n" }
    ensures read { changed_text e.jobs_run 0 1
        ≡ codes "CHANGED VAR N: 0 -> 3\nCHANGED VAR M: 0 -> 4\nCHANGED VAR X: 0 -> 9\n"
        ++ codes "CHANGED TAKEN: 0 -> 3\n" }
    ensures own_value { changed_text e.jobs_run 0 2 ≡ codes "NOTHING CHANGED\n" }
    ensures call { changed_text e.jobs_run 0 6 ≡ codes "NOTHING CHANGED\n" }
    ensures local { changed_text e.jobs_run 0 7 ≡ codes "CHANGED VAR Q: 0 -> 5\n" }
    ensures yielded { changed_text e.jobs_run 0 8 ≡ codes "CHANGED VAR X: 9 -> 5\n" }
{}

/// Entities and lists: one that ends and one that is made, an entity that is filed and removed, an
/// attribute; SKIP 0 and F14 change none of them.
fn entities_and_lists_are_told_where_they_differ()
    ensures skip { changed_text e.jobs_run 0 3 ≡ codes "NOTHING CHANGED\n" }
    ensures made { changed_text e.jobs_run 0 4
        ≡ codes "CHANGED VAR JOB: 0 -> 1\nCHANGED JOB 1: NONE -> LIVES\n" }
    ensures filed { changed_text e.jobs_run 0 5 ≡ codes "CHANGED SET ROW: EMPTY -> 1\n" }
    ensures attribute { changed_text e.jobs_run 0 9 ≡ codes "CHANGED JOB 1 SIZE: 0 -> 5\n" }
    ensures removed { changed_text e.jobs_run 0 10 ≡ codes "CHANGED SET ROW: 1 -> EMPTY\n" }
    ensures ended { changed_text e.jobs_run 0 11 ≡ codes "CHANGED JOB 1: LIVES -> NONE\n" }
    ensures made_again { changed_text e.jobs_run 0 12
        ≡ codes "CHANGED VAR JOB: 1 -> 2\nCHANGED JOB 2: NONE -> LIVES\n" }
    ensures owned { changed_text e.desks_run 0 4 ≡ codes "CHANGED SET ROW 2: EMPTY -> 1\n" }
    ensures fault { changed_text e.removed_run 0 10 ≡ codes "NOTHING CHANGED\n" }
{}

/// Notices: one is scheduled, and taken off by its start.
fn notices_are_told_where_they_come_and_go()
    ensures scheduled { changed_text seen.ticks_run 0 1
        ≡ codes "CHANGED VAR TICK: 0 -> 1\nCHANGED TICK 1: NONE -> LIVES\n"
        ++ codes "CHANGED TICK 1 AT: NONE -> 3\n" }
    ensures started { changed_text seen.ticks_run 0 2
        ≡ codes "CHANGED TICK 1: LIVES -> NONE\nCHANGED TICK 1 AT: 3 -> NONE\n"
        ++ codes "CHANGED CLOCK: 0 -> 3\n" }
    ensures report { changed_text seen.ticks_run 0 3
        ≡ codes "CHANGED REPORT: 0 BYTES -> 2 BYTES\n" }
{}

/// Stops: going forward the last step, going back the next one; at most five changes.
fn stops_tell_the_first_changes()
    ensures forward { stop_changes e.jobs_run 0 5 ≡ codes "CHANGED SET ROW: EMPTY -> 1\n" }
    ensures nothing { stop_changes e.jobs_run 0 2 ≡ [] }
    ensures start { stop_changes e.jobs_run 0 0 ≡ [] }
    ensures kept { stop_changes e.jobs_run 5 5 ≡ [] }
    ensures five { stop_changes e.desks_run 0 2
        ≡ codes "CHANGED DESK 1: NONE -> LIVES\nCHANGED DESK 2: NONE -> LIVES\n"
        ++ codes "CHANGED DESK 3: NONE -> LIVES\nCHANGED DESK 4: NONE -> LIVES\n"
        ++ codes "CHANGED DESK 5: NONE -> LIVES\nAND 2 MORE\n" }
    ensures back { stop_changes_ahead e.jobs_run 4 ≡ codes "WILL CHANGE SET ROW: EMPTY -> 1\n" }
    ensures end { stop_changes_ahead e.jobs_run 13 ≡ [] }
    ensures listed { brief_text e.jobs (Listed (replicate 21 3)) ≡ codes "21 MEMBERS" }
    ensures cut { cut_text (replicate 121 65) ≡ replicate 117 65 ++ codes " .." }
    ensures whole { cut_text (replicate 120 65) ≡ replicate 120 65 }
{}

/// One step after the earliest kept position, after a FORGET, the step is shown although those
/// before it are forgotten. At the last step of a run, which ends MAIN, nothing is shown.
fn edges_of_what_is_kept_are_told()
    ensures behind_kept { changed_text e.jobs_run 4 5 ≡ codes "CHANGED SET ROW: EMPTY -> 1\n" }
    ensures behind_kept_at_stop { stop_changes e.jobs_run 11 12
        ≡ codes "CHANGED VAR JOB: 1 -> 2\nCHANGED JOB 2: NONE -> LIVES\n" }
    ensures before_last { stop_changes_ahead e.jobs_run 11
        ≡ codes "WILL CHANGE VAR JOB: 1 -> 2\nWILL CHANGE JOB 2: NONE -> LIVES\n" }
    ensures last_ahead { stop_changes_ahead e.jobs_run 12 ≡ [] }
    ensures last { changed_text e.jobs_run 0 13 ≡ codes "NOTHING CHANGED\n" }
    ensures last_alone_kept { changed_text e.jobs_run 12 13 ≡ codes "NOTHING CHANGED\n" }
    ensures last_at_stop { stop_changes e.jobs_run 12 13 ≡ [] }
{}

/// Movements forward over several steps: what differs, and not what changed on the way; locals of
/// the last frame that both states have.
fn movements_tell_what_differs()
    ensures far { stop_changes_since e.jobs_run 0 5
        ≡ codes "CHANGED VAR JOB: 0 -> 1\nCHANGED VAR N: 0 -> 3\nCHANGED VAR M: 0 -> 4\n"
        ++ codes "CHANGED VAR X: 0 -> 9\nCHANGED JOB 1: NONE -> LIVES\nAND 2 MORE\n" }
    ensures filed { stop_changes_since e.jobs_run 5 10
        ≡ codes "CHANGED VAR X: 9 -> 5\nCHANGED JOB 1 SIZE: 0 -> 5\nCHANGED SET ROW: 1 -> EMPTY\n" }
    ensures out { stop_changes_since e.jobs_run 6 8 ≡ codes "CHANGED VAR X: 9 -> 5\n" }
    ensures call { stop_changes_since e.jobs_run 5 7 ≡ [] }
    ensures nothing { stop_changes_since e.jobs_run 4 4 ≡ [] }
    ensures passed { stop_changes_since seen.ticks_run 0 2
        ≡ codes "CHANGED VAR TICK: 0 -> 1\nCHANGED CLOCK: 0 -> 3\n" }
    ensures notices { stop_changes_since seen.ticks_run 1 3
        ≡ codes "CHANGED TICK 1: LIVES -> NONE\nCHANGED TICK 1 AT: 3 -> NONE\n"
        ++ codes "CHANGED CLOCK: 0 -> 3\nCHANGED REPORT: 0 BYTES -> 2 BYTES\n" }
{}

/// Movements back over several steps: the values in the state reached come first.
fn movements_back_tell_what_will_differ()
    ensures entity { stop_changes_since e.jobs_run 5 3
        ≡ codes "WILL CHANGE VAR JOB: 0 -> 1\nWILL CHANGE JOB 1: NONE -> LIVES\n"
        ++ codes "WILL CHANGE SET ROW: EMPTY -> 1\n" }
    ensures local { stop_changes_since e.jobs_run 7 6 ≡ codes "WILL CHANGE VAR Q: 0 -> 5\n" }
    ensures ended { stop_changes_since e.jobs_run 11 10
        ≡ codes "WILL CHANGE JOB 1: LIVES -> NONE\n" }
    ensures notices { stop_changes_since seen.ticks_run 3 1
        ≡ codes "WILL CHANGE TICK 1: LIVES -> NONE\nWILL CHANGE TICK 1 AT: 3 -> NONE\n"
        ++ codes "WILL CHANGE CLOCK: 0 -> 3\nWILL CHANGE REPORT: 0 BYTES -> 2 BYTES\n" }
{}

/// SHOW CHANGED after such movements: all that differs, or that nothing does.
fn movements_are_told_as_a_whole()
    ensures far { all_changes_since e.jobs_run 0 5
        ≡ codes "CHANGED VAR JOB: 0 -> 1\nCHANGED VAR N: 0 -> 3\nCHANGED VAR M: 0 -> 4\n"
        ++ codes "CHANGED VAR X: 0 -> 9\nCHANGED JOB 1: NONE -> LIVES\n"
        ++ codes "CHANGED SET ROW: EMPTY -> 1\nCHANGED TAKEN: 0 -> 3\n" }
    ensures back { all_changes_since e.jobs_run 5 0
        ≡ codes "WILL CHANGE VAR JOB: 0 -> 1\nWILL CHANGE VAR N: 0 -> 3\n"
        ++ codes "WILL CHANGE VAR M: 0 -> 4\nWILL CHANGE VAR X: 0 -> 9\n"
        ++ codes "WILL CHANGE JOB 1: NONE -> LIVES\nWILL CHANGE SET ROW: EMPTY -> 1\n"
        ++ codes "WILL CHANGE TAKEN: 0 -> 3\n" }
    ensures call { all_changes_since e.jobs_run 5 7 ≡ codes "NOTHING CHANGED\n" }
    ensures nowhere { all_changes_since e.jobs_run 4 4 ≡ codes "NOTHING CHANGED\n" }
{}
