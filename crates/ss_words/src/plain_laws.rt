//! Laws of the plain words: nothing is done here, each contract is computed from the definitions.
#![tactic(auto, unfolding(crate::specs::Spellings::mark_of, crate::specs::Spellings::spellings))]

ghost use Rattle.std.specs.Prelude.{◌≡◌, Some, [], ◌∷◌, ◌++◌, map, codes};
ghost use Rattle.ss_words.specs.declared.mark.Mark.TheVariants.{Reserved as Word};
ghost use Rattle.ss_words.specs.declared.reserved.Reserved.TheVariants as r;
ghost use Rattle.ss_words.specs.Plain.{name, mark};
ghost use Rattle.ss_words.specs.Spellings.{spellings, mark_of};
ghost use Rattle.ss_words.specs.PlainRules.{plain_words_of};
ghost use Rattle.ss_words.specs.PlainLaws.{pieces, words_on, Becomes, BecomeBehind};

/// These are the reserved words, each with its own meaning, and there are no others.
pub fn reserved_words()
    ensures all { map (λ row. row.0) spellings ≡ pieces
        (codes "A AN THE THIS MAY PREAMBLE END MAIN ROUTINE EVENT EVENTS EXTERNAL ARE NOTICE "
        ++ codes "NOTICES PERMANENT TEMPORARY ENTITY ENTITIES INCLUDE EVERY EACH ALL SYSTEM HAS HAVE "
        ++ codes "OWNS OWN BELONGS BELONG TO NORMALLY MODE IS INTEGER DEFINE AS VARIABLE VARIABLES "
        ++ codes "FIFO LIFO SET SETS RANKED BY HIGH LOW THEN PRIORITY ORDER BREAK TIES SAVING GIVEN "
        ++ codes "GIVING YIELDING LET ADD SUBTRACT FROM CREATE CALLED DESTROY FILE REMOVE FIRST LAST "
        ++ codes "BEFORE AFTER IN ON OF AT IF ELSE OTHERWISE ALWAYS REGARDLESS FOUND NONE NOT EMPTY "
        ++ codes "AND OR EQ NE LT LS GT GR LE GE FOR BACK REVERSE WITH UNLESS WHILE UNTIL DO LOOP "
        ++ codes "REPEAT FIND CASE COMPUTE NUMBER SUM MAXIMUM MINIMUM SCHEDULE CAUSE CANCEL NOW UNIT "
        ++ codes "UNITS DAY DAYS START SIMULATION STOP CALL RETURN READ PRINT LINE LINES THUS FOLLOWS "
        ++ codes "SKIP OUTPUT") }
    ensures distinct { map (λ row. mark_of row.0) spellings ≡ map (λ row. Some row.1) spellings }
{}

/// Words that mean the same are one word.
pub fn groups()
    ensures words { Becomes
        (codes "X EACH ALL HAVE OWN BELONG ENTITY NOTICE VARIABLE SET GIVING OTHERWISE REGARDLESS "
        ++ codes "REPEAT CAUSE UNIT UNITS DAY LINE ON OF")
        (codes "X EVERY EVERY HAS OWNS BELONGS ENTITIES NOTICES VARIABLES SETS GIVEN ELSE ALWAYS "
        ++ codes "LOOP SCHEDULE DAYS DAYS DAYS LINES IN IN") }
    ensures signs { Becomes (codes "X EQ LT LS GT GR LE GE") (codes "X = < < > > <= >=") }
    ensures others { Becomes
        (codes "EVERY HAS OWNS BELONGS ENTITIES NOTICES VARIABLES SETS GIVEN ELSE ALWAYS LOOP "
        ++ codes "SCHEDULE DAYS LINES IN NE")
        (codes "EVERY HAS OWNS BELONGS ENTITIES NOTICES VARIABLES SETS GIVEN ELSE ALWAYS LOOP "
        ++ codes "SCHEDULE DAYS LINES IN NE") }
{}

/// AS FOLLOWS is THUS on the line and in the place of AS, also over two lines.
pub fn as_follows()
    ensures one_line { Becomes (codes "LINES AS FOLLOWS X") (codes "LINES THUS X") }
    ensures two_lines { plain_words_of (words_on 1 (codes "X AS") ++ words_on 2 (codes "FOLLOWS Y"))
        ≡ record { line = 1; index = 0; word = name (codes "X") }
        ∷ record { line = 1; index = 1; word = mark (Word r.Thus) }
        ∷ record { line = 2; index = 3; word = name (codes "Y") } ∷ [] }
    ensures alone { Becomes (codes "AS AS FOLLOWS FOLLOWS X") (codes "AS THUS FOLLOWS X") }
{}

/// The words that are dropped, and the places at which an article or TO or FOR stays.
pub fn fillers()
    ensures dropped { Becomes (codes "X A AN THE THIS MAY OUTPUT Y A THE") (codes "X Y") }
    ensures articles { Becomes
        (codes "SCHEDULE A X SCHEDULE AN X SCHEDULE THE X SCHEDULE THIS X CAUSE AN X")
        (codes "SCHEDULE A X SCHEDULE A X SCHEDULE THE X SCHEDULE THE X SCHEDULE A X") }
    ensures directly { Becomes (codes "SCHEDULE MAY A X") (codes "SCHEDULE X") }
    ensures second { Becomes (codes "SCHEDULE THE A X") (codes "SCHEDULE THE X") }
    ensures routine { Becomes (codes "ROUTINE TO X ROUTINE FOR X ROUTINE X TO FOR Y")
        (codes "ROUTINE X ROUTINE X ROUTINE X TO FOR Y") }
    ensures routine_directly { Becomes (codes "ROUTINE THE TO X") (codes "ROUTINE TO X") }
{}

/// AND and AT under each governing word, and under none.
pub fn governing_words()
    ensures and_turns { BecomeBehind
        (codes "PREAMBLE MAIN ROUTINE EVENT DEFINE LET ADD SUBTRACT CREATE DESTROY FILE REMOVE FIND "
        ++ codes "COMPUTE SCHEDULE CANCEL START STOP CALL RETURN READ PRINT SKIP X")
        (codes " Y AND Z")
        (codes " Y , Z") }
    ensures and_stays { BecomeBehind (codes "IF FOR") (codes " Y AND Z AND X")
        (codes " Y AND Z AND X") }
    ensures at_turns { BecomeBehind
        (codes "PREAMBLE MAIN ROUTINE EVENT DEFINE LET ADD SUBTRACT CREATE DESTROY FILE REMOVE IF "
        ++ codes "FOR FIND COMPUTE CANCEL START STOP CALL RETURN READ PRINT SKIP X")
        (codes " Y AT Z")
        (codes " Y IN Z") }
    ensures at_stays { Becomes (codes "SCHEDULE THE X AT Y") (codes "SCHEDULE THE X AT Y") }
    ensures last_counts { Becomes
        (codes "IF X LET Y AND Z IF X IS EMPTY AND Y SCHEDULE X IF Y AT Z")
        (codes "IF X LET Y , Z IF X IS EMPTY AND Y SCHEDULE X IF Y IN Z") }
{}

/// Of commas in a row the first one stays, with its line; before a reserved word none does.
pub fn commas()
    ensures one { Becomes (codes "LET X , , AND , Y") (codes "LET X , Y") }
    ensures first_line { plain_words_of (words_on 1 (codes "X ,") ++ words_on 2 (codes ", Y"))
        ≡ plain_words_of (words_on 1 (codes "X ,")) ++ record {
          line = 2;
          index = 3;
          word = name
              (codes "Y");
        } ∷ [] }
    ensures before_word { Becomes (codes "LET X , LET Y , , IF Z AND , OR")
        (codes "LET X LET Y IF Z AND OR") }
    ensures before_sign { Becomes (codes "X , EQ Y , = Z ,") (codes "X , = Y , = Z ,") }
{}
