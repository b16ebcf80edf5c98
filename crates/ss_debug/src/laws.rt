//! Laws on the definitions. Each function does nothing, and its contract says the law: a movement
//! has one end; and, proved by computing, the commands that small command lines say.
#![tactic(auto, unfolding(crate::proofs::Unfoldings::command_lines_together))]

ghost use Rattle.std.specs.Prelude.{◌≡◌, [], ◌∷◌, ◌++◌, ◌-◌, codes, replicate, pos, neg_ℤ, Some, None, ℕ, Bool, false};
ghost use Rattle.std.specs.Prelude.{true, nat_eq};
ghost use Rattle.ss_debug.specs.declared.commands.Command.TheVariants.{Blank, Bad, Move, Break, Clear, Forget, Show};
ghost use Rattle.ss_debug.specs.declared.commands.Command.TheVariants.{Quit};
ghost use Rattle.ss_debug.specs.declared.commands.Movement.TheVariants.{Step, Run, RunTo, Next, Back, BackEvent};
ghost use Rattle.ss_debug.specs.declared.commands.Movement.TheVariants.{BackBreak};
ghost use Rattle.ss_debug.specs.declared.commands.Question.TheVariants.{Clock, Where, Variable, Entity, Set, Events};
ghost use Rattle.ss_debug.specs.declared.commands.Question.TheVariants.{Taken, Entry, Report};
ghost use Rattle.ss_debug.specs.CommandLines.{command_lines};
ghost use Rattle.ss_debug.specs.Examples.{EachSays, debugger_at, Keeps, Moves, two_events, three_notices};
ghost use Rattle.ss_debug.specs.Examples.{shop_entity_text, shop_list_text};
ghost use Rattle.ss_events.specs.Rules.{rules_of};
ghost use Rattle.ss_events.specs.Agenda.{empty_agenda, in_order};
ghost use Rattle.ss_state.specs.declared.entry.Entry.TheVariants.{Absent, Waiting, Running};
ghost use Rattle.ss_state.specs.declared.limits.TheConstants.{LAST_POSITION};
ghost use Rattle.ss_state.specs.Run.{Input};
ghost use Rattle.ss_debug.specs.declared.limits.TheConstants.{GREATEST_BOUND, GREATEST_KEPT};
ghost use Rattle.ss_debug.specs.Move.{step_condition, run_condition, forward_end, search_back_end};
ghost use Rattle.ss_debug.specs.Answer.{pending_text, entry_line, ready_word, search_back_word};
ghost use Rattle.ss_debug.specs.Laws.{MovementEnds, EndIsUnique, SearchBackEnds, SearchBackEndIsUnique};
ghost use Rattle.ss_debug.specs.Laws.{MovementEndsWithinBound, ForgetLeavesTheNewestSteps};
ghost use Rattle.ss_debug.specs.Laws.{ConditionThatHoldsStopsAsNone};

/// A movement ends at exactly one position: the least later one that meets its condition, within
/// its bound and never past the first state that is not ready.
pub fn a_movement_has_one_end()
    ensures ends { MovementEnds }
    ensures unique { EndIsUnique }
{}

/// BACK BREAK and BACK EVENT end at exactly one position: the greatest earlier one at a break line,
/// or whose next step is an event start, within their bound and not before the earliest that is
/// kept.
pub fn a_movement_back_has_one_end()
    ensures ends { SearchBackEnds }
    ensures unique { SearchBackEndIsUnique }
{}

/// Every movement ends within its bound: at most that number of steps from its start, at a position
/// that is kept and not past the last one.
pub fn every_movement_ends_within_its_bound()
    ensures { MovementEndsWithinBound }
{}

/// FORGET n leaves the newest n steps, or all if there were fewer: BACK leads to the position to
/// which it led, but not before those steps.
pub fn forget_leaves_the_newest_steps()
    ensures { ForgetLeavesTheNewestSteps }
{}

/// A break line whose condition holds in each state stops at the same states as one without a
/// condition.
pub fn a_condition_that_holds_stops_as_none()
    ensures { ConditionThatHoldsStopsAsNone }
{}

/// No line follows the last line feed; a carriage return stays in its line.
fn lines_are_pieces_between_line_feeds()
    ensures none { command_lines [] ≡ [] }
    ensures ended { command_lines (codes "step\nback\n") ≡ codes "step" ∷ codes "back" ∷ [] }
    ensures open { command_lines (codes "step\nback") ≡ codes "step" ∷ codes "back" ∷ [] }
    ensures empty { command_lines (codes "\n\nrun\n\n") ≡ [] ∷ [] ∷ codes "run" ∷ [] ∷ [] }
    ensures carriage_returns { command_lines (codes "step\r\nback\r") ≡ codes "step\r"
        ∷ codes "back\r" ∷ [] }
{}

/// A line of blanks, tabs and carriage returns says nothing, also one of 201 bytes.
fn a_line_without_words_is_blank()
    ensures { EachSays Blank ([] ∷ codes " " ∷ codes "\t \r" ∷ replicate 200 32 ∷ replicate 201 32
        ∷ replicate 201 13 ∷ []) }
{}

/// Words are in either case, between blanks, tabs and carriage returns.
fn words_are_in_either_case()
    ensures step { EachSays (Move (Step 1)) (codes "STEP" ∷ codes "step" ∷ codes " sTeP\r"
        ∷ codes "\tstep \t 1\r " ∷ codes "STEP\r1" ∷ []) }
    ensures back { EachSays (Move (Back 1)) (codes "BACK" ∷ codes "back 1" ∷ codes "\tBack\r"
        ∷ []) }
    ensures run { EachSays (Move (Run 1000000)) (codes "RUN" ∷ codes "run" ∷ codes " Run 1000000"
        ∷ []) }
    ensures show_var { EachSays (Show (Variable (codes "X"))) (codes "SHOW VAR X"
        ∷ codes "show var x" ∷ codes " Show\tvAR  x\r" ∷ []) }
    ensures run_to { EachSays (Move (RunTo 7)) (codes "RUN TO 7" ∷ codes "run\tto 007\r" ∷ []) }
    ensures back_break { EachSays (Move BackBreak) (codes "BACK BREAK" ∷ codes "back break\r"
        ∷ []) }
    ensures next { EachSays (Move Next) (codes "NEXT" ∷ codes "next\r" ∷ []) }
    ensures back_event { EachSays (Move BackEvent) (codes "BACK EVENT" ∷ codes "back\tevent" ∷ []) }
    ensures set { EachSays (Break 7) (codes "BREAK 7" ∷ codes "break 007" ∷ []) }
    ensures clear { EachSays (Clear 7) (codes "CLEAR 7" ∷ codes " clear 7" ∷ []) }
    ensures forget { EachSays (Forget 7) (codes "FORGET 7" ∷ codes "forget\t007\r" ∷ []) }
    ensures show_clock { EachSays (Show Clock) (codes "SHOW CLOCK" ∷ codes "show clock" ∷ []) }
    ensures show_where { EachSays (Show Where) (codes "SHOW WHERE" ∷ codes "show  where" ∷ []) }
    ensures show_events { EachSays (Show Events) (codes "SHOW EVENTS" ∷ codes "show\tevents\r"
        ∷ []) }
    ensures show_taken { EachSays (Show Taken) (codes "SHOW TAKEN" ∷ codes "Show Taken " ∷ []) }
    ensures show_entry { EachSays (Show Entry) (codes "SHOW ENTRY" ∷ codes "show entry\r" ∷ []) }
    ensures show_report { EachSays (Show Report) (codes "SHOW REPORT" ∷ codes "show report"
        ∷ codes "\tshow   Report\r" ∷ []) }
    ensures quit { EachSays Quit (codes "QUIT" ∷ codes "quit" ∷ codes "  Quit\t\r" ∷ []) }
{}

/// A bound is digits with a value from 1 to 1,000,000.
fn bounds_are_digits()
    ensures greatest { EachSays (Move (Step 1000000)) (codes "STEP 1000000"
        ∷ codes "STEP 0001000000" ∷ []) }
    ensures zeros { EachSays (Move (Back 7)) (codes "BACK 7" ∷ codes "BACK 007"
        ∷ codes "BACK 00000000000000000007" ∷ []) }
    ensures run { EachSays (Move (Run 20)) (codes "RUN 20" ∷ []) }
    ensures range { EachSays Bad (codes "STEP 0" ∷ codes "BACK 000" ∷ codes "RUN 1000001"
        ∷ codes "STEP 18446744073709551617" ∷ codes "RUN 99999999999999999999" ∷ []) }
    ensures others { EachSays Bad (codes "STEP +1" ∷ codes "BACK -1" ∷ codes "RUN 1."
        ∷ codes "STEP X" ∷ codes "STEP 1X" ∷ codes "STEP 1 2" ∷ codes "BACK 1 X" ∷ codes "RUN 1 2 3"
        ∷ []) }
{}

/// A line is from 1 to 1,000,000, a time from 0 to 2^63 - 1, and no word follows either.
fn lines_and_times_have_limits()
    ensures kept { EachSays (Forget 1000000) (codes "FORGET 1000000" ∷ []) }
    ensures line { EachSays (Break 1000000) (codes "BREAK 1000000" ∷ []) }
    ensures time { EachSays (Move (RunTo 9223372036854775807)) (codes "RUN TO 9223372036854775807"
        ∷ []) }
    ensures start { EachSays (Move (RunTo 0)) (codes "RUN TO 0" ∷ []) }
    ensures others { EachSays Bad (codes "BREAK 0" ∷ codes "BREAK 1000001" ∷ codes "BREAK"
        ∷ codes "CLEAR X" ∷ codes "RUN TO" ∷ codes "RUN TO 9223372036854775808" ∷ codes "RUN TO -1"
        ∷ codes "RUN TO 1 2" ∷ codes "FORGET" ∷ codes "FORGET 0" ∷ codes "FORGET 1000001"
        ∷ codes "FORGET +1" ∷ codes "FORGET 1 1" ∷ codes "BACK BREAK 1" ∷ codes "BACK EVENT 1"
        ∷ codes "NEXT 1" ∷ codes "BACK NEXT" ∷ codes "BREAK 1 2" ∷ codes "SHOW CLOCK X"
        ∷ codes "SHOW WHERE X" ∷ []) }
{}

/// A name has a letter, not only digits and stops, and loses the stops at its end.
fn names_are_those_of_the_language()
    ensures stops { EachSays (Show (Variable (codes "A.B"))) (codes "SHOW VAR A.B"
        ∷ codes "SHOW VAR a.b." ∷ codes "SHOW VAR a.b..." ∷ []) }
    ensures digits { EachSays (Show (Variable (codes "1A2"))) (codes "SHOW VAR 1A2"
        ∷ codes "SHOW VAR 1a2." ∷ []) }
    ensures front { EachSays (Show (Variable (codes ".X"))) (codes "SHOW VAR .X" ∷ []) }
    ensures others { EachSays Bad (codes "SHOW VAR ." ∷ codes "SHOW VAR -5" ∷ codes "SHOW VAR 1.5"
        ∷ codes "SHOW VAR A-B" ∷ codes "SHOW VAR A(1)" ∷ (codes "SHOW VAR A" ++ 128 ∷ []) ∷ []) }
{}

/// A name has at most 80 bytes, the stops at its end counted.
fn names_have_80_bytes()
    ensures letters { EachSays (Show (Variable (replicate 80 65)))
        ((codes "SHOW VAR " ++ replicate 80 97) ∷ []) }
    ensures stops { EachSays (Show (Variable (replicate 78 65)))
        ((codes "SHOW VAR " ++ replicate 78 65 ++ codes "..") ∷ []) }
    ensures others { EachSays Bad ((codes "SHOW VAR " ++ replicate 81 65)
        ∷ (codes "SHOW VAR " ++ replicate 80 65 ++ codes ".") ∷ []) }
{}

/// A command has at most 200 bytes, a carriage return at its end counted.
fn commands_have_200_bytes()
    ensures blanks { EachSays (Move (Step 1)) ((codes "STEP" ++ replicate 196 32)
        ∷ (codes "STEP" ++ replicate 195 32 ++ codes "\r") ∷ []) }
    ensures others { EachSays Bad ((codes "STEP" ++ replicate 197 32)
        ∷ (codes "STEP" ++ replicate 196 32 ++ codes "\r") ∷ (replicate 200 32 ++ codes "Q")
        ∷ replicate 201 65 ∷ []) }
{}

/// Any other line is bad.
fn other_lines_are_bad()
    ensures words { EachSays Bad (codes "FOO" ∷ codes "STEPS" ∷ codes "STEP." ∷ codes "S TEP"
        ∷ codes "5" ∷ codes "." ∷ codes "'' STEP" ∷ (0 ∷ []) ∷ (11 ∷ codes "STEP") ∷ []) }
    ensures show { EachSays Bad (codes "SHOW" ∷ codes "SHOW X" ∷ codes "SHOW VAR"
        ∷ codes "SHOW VAR A B" ∷ codes "SHOW REPORT X" ∷ codes "SHOW ENTRY X" ∷ codes "SHOWREPORT"
        ∷ codes "REPORT" ∷ []) }
    ensures quit { EachSays Bad (codes "QUIT X" ∷ codes "QUIT 1" ∷ codes "QUIT QUIT" ∷ []) }
{}

/// SHOW and two words, the second a number, ask for an entity, whatever the first word is.
fn numbers_ask_for_entities()
    ensures class { EachSays (Show (Entity (codes "JOB") (pos 7))) (codes "SHOW JOB 7"
        ∷ codes "show job.. 007\r" ∷ []) }
    ensures var { EachSays (Show (Entity (codes "VAR") (pos 5))) (codes "SHOW VAR 5" ∷ []) }
    ensures set { EachSays (Show (Entity (codes "SET") (pos 5))) (codes "SHOW SET 5" ∷ []) }
    ensures clock { EachSays (Show (Entity (codes "CLOCK") (pos 5))) (codes "SHOW CLOCK 5" ∷ []) }
    ensures taken { EachSays (Show (Entity (codes "TAKEN") (pos 0))) (codes "SHOW TAKEN 0" ∷ []) }
    ensures greatest { EachSays (Show (Entity (codes "C") (pos 9223372036854775807)))
        (codes "SHOW C 9223372036854775807" ∷ []) }
    ensures others { EachSays Bad (codes "SHOW C 9223372036854775808" ∷ codes "SHOW 5 5"
        ∷ codes "SHOW C -1" ∷ codes "SHOW C 1 2" ∷ codes "SHOW 5" ∷ []) }
{}

/// A set is asked for by its name, and perhaps the number of an owner.
fn sets_are_asked_for_by_name()
    ensures alone { EachSays (Show (Set (codes "QUEUE") None)) (codes "SHOW SET QUEUE"
        ∷ codes "show set queue." ∷ []) }
    ensures owner { EachSays (Show (Set (codes "LINE") (Some (pos 3)))) (codes "SHOW SET LINE 3"
        ∷ []) }
    ensures others { EachSays Bad (codes "SHOW SET" ∷ codes "SHOW SET A B" ∷ codes "SHOW SET A 1 2"
        ∷ codes "SHOW SET 1 2" ∷ codes "SHOW VAR A 1" ∷ codes "SHOW SET A -1" ∷ []) }
{}

/// FORGET n keeps the newest n steps, or those that there are, and counts them.
fn old_steps_are_forgotten()
    ensures one { Keeps (debugger_at 0 5) (Forget 1) (debugger_at 4 5) (codes "KEPT 1\n") }
    ensures all { Keeps (debugger_at 0 5) (Forget 5) (debugger_at 0 5) (codes "KEPT 5\n") }
    ensures more { Keeps (debugger_at 0 5) (Forget 6) (debugger_at 0 5) (codes "KEPT 5\n") }
    ensures start { Keeps (debugger_at 0 0) (Forget 1) (debugger_at 0 0) (codes "KEPT 0\n") }
    ensures again { Keeps (debugger_at 3 5) (Forget GREATEST_KEPT) (debugger_at 3 5)
        (codes "KEPT 2\n") }
{}

/// BACK goes no further than to the earliest kept position, whose word is START only at the start.
fn back_ends_at_the_earliest_kept_position()
    ensures within { Moves (debugger_at 3 5) (Move (Back 2)) (debugger_at 3 3) (codes "DONE") }
    ensures beyond { Moves (debugger_at 3 5) (Move (Back 3)) (debugger_at 3 3)
        (codes "NOTHING KEPT") }
    ensures there { Moves (debugger_at 3 3) (Move (Back 1)) (debugger_at 3 3)
        (codes "NOTHING KEPT") }
    ensures start { Moves (debugger_at 0 5) (Move (Back 6)) (debugger_at 0 0) (codes "START") }
    ensures break_line { Moves (debugger_at 3 5) (Move BackBreak) (debugger_at 3 3)
        (codes "NOTHING KEPT") }
    ensures break_start { Moves (debugger_at 0 5) (Move BackBreak) (debugger_at 0 0)
        (codes "START") }
    ensures event { Moves (debugger_at 3 3) (Move BackEvent) (debugger_at 3 3)
        (codes "NOTHING KEPT") }
{}

/// The ends of BACK EVENT and BACK BREAK from position 5, with nothing kept before position 3, by
/// the positions at which their test holds. The word of the test goes before NOTHING KEPT, and that
/// before BOUND.
fn a_search_back_ends_at_the_earliest_kept_position()
    ensures found { search_back_end (λ q. nat_eq q 4) 3 5 GREATEST_BOUND ≡ 4 }
    ensures there { search_back_end (λ q. nat_eq q 3) 3 5 GREATEST_BOUND ≡ 3 }
    ensures there_said { search_back_word (λ q. nat_eq q 3) (codes "EVENT") 3 5 3 ≡ codes "EVENT" }
    ensures before { search_back_end (λ q. nat_eq q 2) 3 5 GREATEST_BOUND ≡ 3 }
    ensures before_said { search_back_word (λ q. nat_eq q 2) (codes "EVENT") 3 5 3
        ≡ codes "NOTHING KEPT" }
    ensures bound { search_back_end (λ q. false) 3 5 1 ≡ 4 }
    ensures bound_said { search_back_word (λ q. false) (codes "BREAK") 3 5 4 ≡ codes "BOUND" }
    ensures at_bound { search_back_word (λ q. false) (codes "BREAK") 3 5 3 ≡ codes "NOTHING KEPT" }
    ensures at_start { search_back_word (λ q. false) (codes "BREAK") 0 5 0 ≡ codes "START" }
{}

/// No movement goes on at the last position, and its word is BOUND. STEP says DONE there if it has
/// made all its steps.
fn no_movement_passes_the_last_position()
    ensures step { (t : Input) → forward_end t step_condition LAST_POSITION 5 ≡ LAST_POSITION }
    ensures step_said { (t : Input) → ready_word t step_condition LAST_POSITION 5 LAST_POSITION
        ≡ codes "BOUND" }
    ensures in_part { (t : Input) → ready_word t step_condition (LAST_POSITION - 1) 2 LAST_POSITION
        ≡ codes "BOUND" }
    ensures whole { (t : Input) → ready_word t step_condition (LAST_POSITION - 1) 1 LAST_POSITION
        ≡ codes "DONE" }
    ensures run { (t : Input) → forward_end t (run_condition t []) LAST_POSITION GREATEST_BOUND
        ≡ LAST_POSITION }
    ensures run_said { (t : Input) → ready_word t
        (run_condition t []) LAST_POSITION GREATEST_BOUND LAST_POSITION ≡ codes "BOUND" }
{}

/// SHOW EVENTS shows the next notice first, whatever its reference, and those of one time in the
/// order of the classes; if none is pending it says so.
fn events_are_shown_in_order()
    ensures some { pending_text two_events (in_order (rules_of two_events) three_notices)
        ≡ codes "TICK 3 AT 5\nTICK 1 AT 20\nARRIVAL 2 AT 20\n" }
    ensures none { pending_text two_events (in_order (rules_of two_events) empty_agenda)
        ≡ codes "NO EVENTS\n" }
{}

/// SHOW ENTRY shows the class of the entry, the reference of its notice, and whether it waits or
/// runs; if there is no entry it says so.
fn an_entry_is_shown_by_its_notice()
    ensures none { entry_line two_events Absent ≡ codes "ENTRY NONE\n" }
    ensures waits { entry_line two_events (Waiting 0 2) ≡ codes "ENTRY ARRIVAL 2 WAITING\n" }
    ensures runs { entry_line two_events (Running 1 30) ≡ codes "ENTRY TICK 30 RUNNING\n" }
{}

/// SHOW c k shows the attributes, then the lines of the sets that the class owns, then those of the
/// sets in which it may be.
fn entities_are_shown_in_order_of_declaration()
    ensures member { shop_entity_text (codes "JOB") (pos 1)
        ≡ codes "JOB 1\nPAY = 5\nAGE = -3\nP.LINE = 2\nS.LINE = 0\nM.LINE = 1\nP.POOL = 0\nS.POOL = 0\nM.POOL = 0\n" }
    ensures owner { shop_entity_text (codes "DESK") (pos 1)
        ≡ codes "DESK 1\nF.LINE = 2\nL.LINE = 1\nN.LINE = 2\n" }
    ensures empty { shop_entity_text (codes "DESK") (pos 2)
        ≡ codes "DESK 2\nF.LINE = 0\nL.LINE = 0\nN.LINE = 0\n" }
    ensures ended { shop_entity_text (codes "JOB") (pos 3) ≡ codes "NO ENTITY JOB 3\n" }
    ensures none { shop_entity_text (codes "DESK") (pos 0) ≡ codes "NO ENTITY DESK 0\n" }
    ensures set { shop_entity_text (codes "LINE") (pos 1) ≡ codes "NO CLASS LINE\n" }
    ensures clock { shop_entity_text (codes "TIME.V") (pos 1) ≡ codes "NO CLASS TIME.V\n" }
{}

/// SHOW SET shows the first member first; without an owner it takes the variable of the class.
fn members_are_shown_first_to_last()
    ensures owner { shop_list_text (pos 0) (codes "LINE") (Some (pos 1)) ≡ codes "LINE 1: 2 1\n" }
    ensures variable { shop_list_text (pos 1) (codes "LINE") None ≡ codes "LINE 1: 2 1\n" }
    ensures empty { shop_list_text (pos 1) (codes "LINE") (Some (pos 2)) ≡ codes "LINE 2: EMPTY\n" }
    ensures system { shop_list_text (pos 0) (codes "POOL") None ≡ codes "POOL: 4\n" }
    ensures none { shop_list_text (neg_ℤ (pos 7)) (codes "LINE") None
        ≡ codes "NO ENTITY DESK -7\n" }
    ensures system_owner { shop_list_text (pos 0) (codes "POOL") (Some (pos 1))
        ≡ codes "NO ENTITY SYSTEM 1\n" }
    ensures class { shop_list_text (pos 0) (codes "DESK") None ≡ codes "NO SET DESK\n" }
{}
