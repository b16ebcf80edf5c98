//! The results of the definitions on small programs: each function is a law, proved by computing.

ghost use Rattle.std.specs.Prelude.{◌≡◌, [], ◌∷◌, pos, neg_ℤ, length, codes, Ok, Err, true, false};
ghost use Rattle.ss_words.specs.declared.fault.RunFault.TheVariants.{OutOfRange, ZeroDivisor, CountOutOfRange};
ghost use Rattle.ss_words.specs.declared.fault.RunFault.TheVariants.{NoMoreData, NotANumber, TooManyFrames, MemberLeft};
ghost use Rattle.ss_words.specs.declared.fault.RunFault.TheVariants.{EndedInUse, TimeBeforeClock, AlreadyScheduled};
ghost use Rattle.ss_words.specs.declared.fault.RunFault.TheVariants.{NotScheduled, NotExternal, OutsideEntry};
ghost use Rattle.ss_words.specs.declared.terms.Direction.TheVariants.{Onward, Backward};
ghost use Rattle.ss_program.specs.declared.kinds.Discipline.TheVariants.{Fifo, Lifo};
ghost use Rattle.ss_words.specs.declared.terms.Comparison.TheVariants.{Equal, Unequal, Less, Greater};
ghost use Rattle.ss_words.specs.declared.terms.QualifierWord.TheVariants.{With, Unless, While, Until};
ghost use Rattle.ss_program.specs.declared.variable.Variable.TheVariants.{Local};
ghost use Rattle.ss_program.specs.ProgramExpr.{absolute, greatest, least, quotient, remainder, exprs, no_exprs};
ghost use Rattle.ss_state.specs.declared.entry.Entry.TheVariants.{Absent, Waiting, Running};
ghost use Rattle.ss_state.specs.declared.status.Status.TheVariants.{Ready, Finished, Faulted};
ghost use Rattle.ss_values.specs.Values.{value_of};
ghost use Rattle.ss_state.specs.Run.{input_with, run};
ghost use Rattle.ss_state.specs.Examples as e;

fn quotients_are_cut_towards_zero()
    ensures below { value_of e.no_readings (e.alone (quotient (e.below_zero 7) (e.number 2)))
        ≡ Ok (neg_ℤ (pos 3)) }
    ensures zero { value_of e.no_readings (e.alone (quotient (e.number 1) (e.number 0)))
        ≡ Err ZeroDivisor }
    ensures range { value_of e.no_readings (e.alone (quotient e.least_integer (e.below_zero 1)))
        ≡ Err OutOfRange }
{}

fn remainders_have_the_sign_of_the_dividend()
    ensures below { value_of e.no_readings (e.alone (remainder (e.below_zero 7) (e.number 2)))
        ≡ Ok (neg_ℤ (pos 1)) }
    ensures above { value_of e.no_readings (e.alone (remainder (e.number 7) (e.below_zero 2)))
        ≡ Ok (pos 1) }
    ensures by_minus_one { value_of e.no_readings
        (e.alone (remainder e.least_integer (e.below_zero 1))) ≡ Ok (pos 0) }
{}

fn the_least_integer_has_no_absolute_value()
    ensures least { value_of e.no_readings (e.alone (absolute e.least_integer)) ≡ Err OutOfRange }
    ensures other { value_of e.no_readings (e.alone (absolute (e.below_zero 5))) ≡ Ok (pos 5) }
{}

fn the_greatest_and_the_least_of_three()
    ensures greatest { value_of e.no_readings
        (e.alone (greatest (e.number 3) (exprs (e.number 7) (exprs (e.number 5) no_exprs))))
        ≡ Ok (pos 7) }
    ensures least { value_of e.no_readings
        (e.alone (least (e.number 3) (exprs (e.number 7) (exprs (e.below_zero 5) no_exprs))))
        ≡ Ok (neg_ℤ (pos 5)) }
{}

fn skip_appends_up_to_a_thousand_lines()
    ensures two { (e.main_run [] 0 (e.skip_of (e.number 2)) 1).report ≡ 10 ∷ 10 ∷ [] }
    ensures thousand { length (e.main_run [] 0 (e.skip_of (e.number 1000)) 1).report ≡ 1000 }
    ensures more { (e.main_run [] 0 (e.skip_of (e.number 1001)) 1).status
        ≡ Faulted CountOutOfRange }
    ensures below { (e.main_run [] 0 (e.skip_of (e.below_zero 1)) 1).status
        ≡ Faulted CountOutOfRange }
{}

fn read_takes_all_values_before_it_assigns()
    ensures locals { (e.main_run (codes "5 -3") 2 e.read_two 1).frame.locals
        ≡ pos 5 ∷ neg_ℤ (pos 3) ∷ [] }
    ensures taken { (e.main_run (codes "5 -3") 2 e.read_two 1).feed.taken ≡ 2 }
    ensures none_left { (e.main_run (codes "5") 2 e.read_two 1).status ≡ Faulted NoMoreData }
    ensures no_number { (e.main_run (codes "5 x") 2 e.read_two 1).status ≡ Faulted NotANumber }
    ensures kept { (e.main_run (codes "5 x") 2 e.read_two 1).feed.taken ≡ 0 }
    ensures unassigned { (e.main_run (codes "5 x") 2 e.read_two 1).frame.locals
        ≡ pos 0 ∷ pos 0 ∷ [] }
{}

fn each_goes_through_all_entities()
    ensures { (run (input_with e.each_of_two []) 9).variables ≡ pos 2 ∷ pos 2 ∷ pos 3 ∷ [] }
{}

fn qualifiers_are_tested_in_written_order()
    ensures pass_first { (e.main_run [] 2 (e.sum_of_passed
        (e.qualifier With 0 Unequal 2 ∷ e.qualifier Until 0 Equal 2 ∷ [])) 30).frame.locals
        ≡ pos 9 ∷ pos 43 ∷ [] }
    ensures close_first { (e.main_run [] 2 (e.sum_of_passed
        (e.qualifier Until 0 Equal 2 ∷ e.qualifier With 0 Unequal 2 ∷ [])) 30).frame.locals
        ≡ pos 2 ∷ pos 1 ∷ [] }
    ensures all_four { (e.main_run [] 2
        (e.sum_of_passed (e.qualifier With 0 Unequal 2 ∷ e.qualifier Unless 0 Equal 3
        ∷ e.qualifier While 0 Less 7 ∷ e.qualifier Until 0 Greater 5 ∷ [])) 30).frame.locals
        ≡ pos 6 ∷ pos 10 ∷ [] }
{}

fn a_chain_goes_on_where_its_inner_loop_closes()
    ensures { (e.main_run [] 3 (e.for_bare 0 (e.number 1) (e.number 2) []
        ∷ e.for_bare 1 (e.number 1) (e.number 5) (e.qualifier While 1 Less 3 ∷ [])
        ∷ e.add_to (Local 2) (e.local 1)
        ∷ e.end_place ∷ []) 30).frame.locals ≡ pos 2 ∷ pos 3 ∷ pos 6 ∷ [] }
{}

fn candidates_end_at_the_greatest_integer()
    ensures { (e.main_run [] 2
        (e.for_bare 0 (e.number 9223372036854775806) (e.number 9223372036854775807) []
        ∷ e.add_to (Local 1) (e.number 1) ∷ e.end_place ∷ []) 10).frame.locals
        ≡ pos 9223372036854775807 ∷ pos 2 ∷ [] }
{}

fn find_tells_whether_it_found()
    ensures found { (e.main_run [] 2 (e.first_of_five (e.qualifier With 0 Equal 3)) 20).frame.locals
        ≡ pos 3 ∷ pos 3 ∷ [] }
    ensures none { (e.main_run [] 2 (e.first_of_five (e.qualifier With 0 Equal 9)) 20).frame.locals
        ≡ pos 5 ∷ pos 100 ∷ [] }
    ensures closed { (e.main_run [] 2 (e.first_of_five (e.qualifier With 0 Equal 3)) 20).frame.loops
        ≡ [] }
{}

fn compute_gathers_cases_or_none()
    ensures cases { (e.main_run [] 5 (e.statistics_of (e.number 1) (e.number 3)) 20).frame.locals
        ≡ pos 3 ∷ pos 3 ∷ pos 6 ∷ pos 3 ∷ pos 1 ∷ [] }
    ensures none { (e.main_run [] 5 (e.statistics_of (e.number 1) (e.number 0)) 20).frame.locals
        ≡ pos 0 ∷ pos 0 ∷ pos 0 ∷ pos 0 ∷ pos 0 ∷ [] }
    ensures range { (e.main_run [] 5
        (e.statistics_of (e.number 9223372036854775806) (e.number 9223372036854775807))
        20).status ≡ Faulted OutOfRange }
{}

fn a_call_gets_what_its_routine_yields()
    ensures value { (run (input_with e.one_more []) 4).frame.locals ≡ pos 5 ∷ [] }
    ensures end { (run (input_with e.one_more []) 5).status ≡ Finished }
{}

fn frame_201_is_a_fault()
    ensures full { length (run (input_with e.endless_calls []) 199).below ≡ 199 }
    ensures ready { (run (input_with e.endless_calls []) 199).status ≡ Ready }
    ensures fault { (run (input_with e.endless_calls []) 200).status ≡ Faulted TooManyFrames }
{}

fn a_ranked_list_is_walked_in_its_order()
    ensures ranked { (run (input_with (e.three_jobs e.by_least Onward) []) 18).frame.locals
        ≡ pos 123 ∷ pos 0 ∷ [] }
    ensures back { (run (input_with (e.three_jobs e.by_least Backward) []) 18).frame.locals
        ≡ pos 321 ∷ pos 0 ∷ [] }
    ensures first_in { (run (input_with (e.three_jobs Fifo Onward) []) 18).frame.locals
        ≡ pos 312 ∷ pos 0 ∷ [] }
    ensures last_in { (run (input_with (e.three_jobs Lifo Onward) []) 18).frame.locals
        ≡ pos 213 ∷ pos 0 ∷ [] }
{}

fn a_next_member_that_left_is_a_fault()
    ensures ready { (run (input_with e.next_is_removed []) 9).status ≡ Ready }
    ensures fault { (run (input_with e.next_is_removed []) 10).status ≡ Faulted MemberLeft }
{}

fn a_member_is_not_ended()
    ensures { (run (input_with e.filed_is_ended []) 4).status ≡ Faulted EndedInUse }
{}

fn ties_are_broken_by_keys_or_by_scheduling()
    ensures keys { (run (input_with (e.two_ticks e.by_value) []) 10).variables
        ≡ pos 1 ∷ pos 12 ∷ [] }
    ensures scheduling { (run (input_with (e.two_ticks []) []) 10).variables ≡ pos 2 ∷ pos 21 ∷ [] }
    ensures end { (run (input_with (e.two_ticks []) []) 10).status ≡ Finished }
{}

fn keys_are_those_of_the_scheduling()
    ensures { (run (input_with e.tick_changed []) 10).variables ≡ pos 2 ∷ pos 92 ∷ [] }
{}

fn an_event_schedules_another_one()
    ensures first { (run (input_with e.tick_every_five []) 2).clock ≡ pos 3 }
    ensures next { (run (input_with e.tick_every_five []) 5).clock ≡ pos 8 }
    ensures made { length (run (input_with e.tick_every_five []) 6).store.references ≡ 3 }
    ensures saved { (run (input_with e.tick_saved []) 5).clock ≡ pos 8 }
    ensures kept { length (run (input_with e.tick_saved []) 6).store.references ≡ 1 }
{}

fn what_is_canceled_may_be_scheduled_again()
    ensures none { (run
        (input_with (e.behind_tick (e.cancel_tick ∷ e.start_place ∷ [])) []) 4).status ≡ Finished }
    ensures clock { (run
        (input_with (e.behind_tick (e.cancel_tick ∷ e.start_place ∷ [])) []) 4).clock ≡ pos 0 }
    ensures again { (run
        (input_with (e.behind_tick (e.cancel_tick ∷ e.tick_again (e.at 9) ∷ e.start_place ∷ [])) [])
        4).clock ≡ pos 9 }
{}

fn notices_are_scheduled_once_and_not_before_the_clock()
    ensures before { (run
        (input_with (e.behind_tick (e.tick_of 1 (e.at_below 1) ∷ [])) []) 2).status
        ≡ Faulted TimeBeforeClock }
    ensures again { (run (input_with (e.behind_tick (e.tick_again (e.at 4) ∷ [])) []) 2).status
        ≡ Faulted AlreadyScheduled }
    ensures twice { (run
        (input_with (e.behind_tick (e.cancel_tick ∷ e.cancel_tick ∷ [])) []) 3).status
        ≡ Faulted NotScheduled }
    ensures made { length
        (run (input_with (e.behind_tick (e.tick_of 1 (e.at_below 1) ∷ [])) []) 2).store.references
        ≡ 1 }
{}

fn a_pending_notice_is_not_ended()
    ensures { (run (input_with (e.behind_tick (e.destroy_tick ∷ [])) []) 2).status
        ≡ Faulted EndedInUse }
{}

fn an_event_start_that_faults_is_none()
    ensures fault { (run
        (input_with (e.behind_tick (e.file_tick ∷ e.start_place ∷ [])) []) 3).status
        ≡ Faulted EndedInUse }
    ensures clock { (run (input_with (e.behind_tick (e.file_tick ∷ e.start_place ∷ [])) []) 3).clock
        ≡ pos 0 }
    ensures pending { length
        (run (input_with (e.behind_tick (e.file_tick ∷ e.start_place ∷ [])) []) 3).agenda.pending
        ≡ 1 }
    ensures frames { (run
        (input_with (e.behind_tick (e.file_tick ∷ e.start_place ∷ [])) []) 3).below ≡ [] }
{}

fn an_entry_waits_and_runs()
    ensures waits { (run (input_with e.values_of_arrivals (codes "arrival 5 4 *")) 1).entry
        ≡ Waiting 0 1 }
    ensures taken { (run (input_with e.values_of_arrivals (codes "arrival 5 4 *")) 1).feed.taken
        ≡ 2 }
    ensures runs { (run (input_with e.values_of_arrivals (codes "arrival 5 4 *")) 2).entry
        ≡ Running 0 1 }
    ensures clock { (run (input_with e.values_of_arrivals (codes "arrival 5 4 *")) 2).clock
        ≡ pos 5 }
    ensures over { (run (input_with e.values_of_arrivals (codes "arrival 5 4 *")) 5).entry
        ≡ Absent }
    ensures passed { (run (input_with e.values_of_arrivals (codes "arrival 5 4 *")) 5).feed.taken
        ≡ 4 }
    ensures end { (run (input_with e.values_of_arrivals (codes "arrival 5 4 *")) 7).status
        ≡ Finished }
{}

fn what_an_event_leaves_of_its_entry_is_passed()
    ensures { (run
        (input_with e.values_of_arrivals (codes "ARRIVAL 5 4 9 x * ARRIVAL 7 6 *")) 10).variables
        ≡ pos 2 ∷ pos 46 ∷ [] }
{}

fn entries_that_fault()
    ensures name { (run (input_with e.values_of_arrivals (codes "x 5 4 *")) 1).status
        ≡ Faulted NotExternal }
    ensures time { (run (input_with e.values_of_arrivals (codes "ARRIVAL x *")) 1).status
        ≡ Faulted NotANumber }
    ensures none { (run (input_with e.values_of_arrivals (codes "ARRIVAL")) 1).status
        ≡ Faulted NoMoreData }
    ensures before { (run (input_with e.values_of_arrivals (codes "ARRIVAL -1 *")) 1).status
        ≡ Faulted TimeBeforeClock }
    ensures kept { (run (input_with e.values_of_arrivals (codes "ARRIVAL -1 *")) 1).feed.taken ≡ 0 }
    ensures mark { (run (input_with e.values_of_arrivals (codes "ARRIVAL 5 *")) 3).status
        ≡ Faulted OutsideEntry }
    ensures no_mark { (run (input_with e.values_of_arrivals (codes "ARRIVAL 5 4")) 5).status
        ≡ Faulted OutsideEntry }
{}

fn a_waiting_entry_is_not_canceled_and_not_read()
    ensures cancel { (run
        (input_with (e.while_waiting (e.cancel_number 2)) (codes "ARRIVAL 5 *")) 4).status
        ≡ Faulted NotScheduled }
    ensures read { (run (input_with (e.while_waiting e.read_one) (codes "ARRIVAL 5 *")) 4).status
        ≡ Faulted OutsideEntry }
{}
