//! The result of a machine on a small run: each function is a law, proved by computing.

ghost use Rattle.std.specs.Prelude.{◌≡◌, [], ◌∷◌, pos, true, false};
ghost use Rattle.ss_state.specs.declared.stepped.Stepped.TheVariants.{Moved};
ghost use Rattle.ss_state.specs.Held.{Beside};
ghost use Rattle.ss_state.specs.Run.{run};
ghost use Rattle.ss_state.specs.Examples.{counting_up};
ghost use Rattle.ss_machine.specs.Moment.{position, past_of, HasForgotten, GoesBack, Steps};
ghost use Rattle.ss_machine.specs.Examples as e;

fn forgetting_leaves_the_newest_steps()
    ensures none_made { (b : Beside) → HasForgotten 1 (e.counting_at b 0 0) (e.counting_at b 0 0) }
    ensures fewer { (b : Beside) → HasForgotten 2 (e.counting_at b 0 1) (e.counting_at b 0 1) }
    ensures one_of_two { (b : Beside) → HasForgotten 1 (e.counting_at b 0 2) (e.counting_at b 1 2) }
    ensures one_of_three { (b : Beside)
        → HasForgotten 1 (e.counting_at b 0 3) (e.counting_at b 2 3) }
    ensures all { (b : Beside) → HasForgotten 0 (e.counting_at b 1 3) (e.counting_at b 3 3) }
{}

fn the_earliest_kept_state_is_that_of_the_run()
    ensures past { (b : Beside) → past_of (e.counting_at b 2 3) ≡ run counting_up 2 ∷ [] }
    ensures back { (b : Beside) → GoesBack true (e.counting_at b 2 3) (e.counting_at b 2 2) }
    ensures earliest { (b : Beside) → (e.counting_at b 2 2).state.frame.locals ≡ pos 2 ∷ [] }
    ensures position { (b : Beside) → position (e.counting_at b 2 2) ≡ 2 }
    ensures no_further { (b : Beside) → GoesBack false (e.counting_at b 2 2) (e.counting_at b 2 2) }
    ensures again { (b : Beside) → Steps Moved (e.counting_at b 2 2) (e.counting_at b 2 3) }
{}
