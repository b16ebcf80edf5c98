//! Small runs and the answers that show them: each function is a law, proved by computing.
#![tactic(auto, unfolding(crate::proofs::Unfoldings::answers_together))]

ghost use Rattle.std.specs.Prelude.{◌≡◌, ◌++◌, codes, pos, Some, None};
ghost use Rattle.ss_inspect.specs.Frames.{calls_text, locals_text, globals_text};
ghost use Rattle.ss_inspect.specs.Living.{living_text};
ghost use Rattle.ss_inspect.specs.Attribute.{by_variable_text};
ghost use Rattle.ss_inspect.specs.Lists.{places_text};
ghost use Rattle.ss_inspect.specs.Tables.{classes_text, sets_text, sections_text};
ghost use Rattle.ss_inspect.specs.Examples as e;

/// Frames with their locals, the last one first; locals and global variables.
fn frames_and_variables_are_seen()
    ensures calls { calls_text e.jobs_run 5
        ≡ codes "MORE LINE 14: P = 4, Q = 5\nMAIN LINE 10: X = 0\n" }
    ensures event_calls { calls_text e.ticks_run 2 ≡ codes "TICK LINE 9: N = 7\nMAIN LINE 6\n" }
    ensures locals { locals_text e.jobs_run 5 ≡ codes "P = 4\nQ = 5\n" }
    ensures no_locals { locals_text e.ticks_run 1 ≡ codes "NO LOCALS\n" }
    ensures globals { globals_text e.desks_run 5 ≡ codes "DESK = 0\nN.DESK = 3\nJOB = 1\n" }
{}

/// Which entities live, and one attribute of the entity that a variable names.
fn entities_are_seen()
    ensures living { living_text (codes "DESK") e.desks_run 5 ≡ codes "DESK: 1 2 3\n" }
    ensures none { living_text (codes "JOB") e.jobs_run 0 ≡ codes "JOB: EMPTY\n" }
    ensures no_class { living_text (codes "ROW") e.jobs_run 0 ≡ codes "NO CLASS ROW\n" }
    ensures kept { by_variable_text (codes "JOB") (codes "JOB") (Some (codes "M.ROW"))
        e.jobs_run 3 ≡ codes "M.ROW = 1\n" }
    ensures no_attribute { by_variable_text (codes "JOB") (codes "JOB") (Some (codes "OPEN"))
        e.jobs_run 3 ≡ codes "NO ATTRIBUTE OPEN\n" }
    ensures no_entity { by_variable_text (codes "DESK") (codes "DESK") (Some (codes "OPEN"))
        e.desks_run 5 ≡ codes "NO ENTITY DESK 0\n" }
    ensures by_variable { by_variable_text (codes "JOB") (codes "JOB") (Some (codes "SIZE"))
        e.jobs_run 3 ≡ codes "SIZE = 5\n" }
    ensures whole { by_variable_text (codes "JOB") (codes "JOB") None e.jobs_run 3
        ≡ codes "JOB 1\nSIZE = 5\nP.ROW = 0\nS.ROW = 0\nM.ROW = 1\n" }
    ensures no_variable { by_variable_text (codes "JOB") (codes "Y") None e.jobs_run 3
        ≡ codes "NO VARIABLE Y\n" }
{}

/// The lists in which an entity is.
fn lists_are_seen()
    ensures in_set { places_text (codes "JOB") (pos 1) e.jobs_run 5 ≡ codes "ROW: 1\n" }
    ensures in_owned_set { places_text (codes "JOB") (pos 1) e.desks_run 5 ≡ codes "ROW 2: 1\n" }
    ensures pending { places_text (codes "TICK") (pos 1) e.ticks_run 1 ≡ codes "TICK 1 AT 3\n" }
    ensures nowhere { places_text (codes "JOB") (pos 1) e.jobs_run 2 ≡ codes "IN NO LIST\n" }
    ensures no_entity { places_text (codes "JOB") (pos 2) e.jobs_run 2
        ≡ codes "NO ENTITY JOB 2\n" }
{}

/// Classes, sets and sections.
fn tables_are_seen()
    ensures classes { classes_text e.desks_run 5 ≡ codes "DESK PERMANENT: 3\nJOB TEMPORARY: 1\n" }
    ensures sets { sets_text e.desks_run ≡ codes "ROW FIFO OWNER DESK MEMBER JOB\n" }
    ensures ranked_sets { sets_text e.queues_run
        ≡ codes "QUEUE RANKED BY HIGH URGENCY THEN BY LOW SIZE OWNER DESK MEMBER JOB\n"
        ++ codes "LATE RANKED BY LOW SIZE OWNER SYSTEM MEMBER JOB\n"
        ++ codes "DONE LIFO OWNER SYSTEM MEMBER JOB\n" }
    ensures no_sets { sets_text e.ticks_run ≡ codes "NO SETS\n" }
    ensures sections { sections_text e.jobs_run ≡ codes "MAIN LINE 6\nMORE ROUTINE LINE 12\n" }
{}
