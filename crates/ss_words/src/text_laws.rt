//! The results of the definition of a text's words on small texts: each function is a law, proved
//! by computing.
#![tactic(auto, unfolding(crate::proofs::Unfoldings::text_together))]

ghost use Rattle.std.specs.Prelude.{◌≡◌, [], ◌∷◌, ◌++◌, Ok, Err, codes, replicate};
ghost use Rattle.ss_words.specs.declared.characters.TheConstants.{LINE_FEED, CARRIAGE_RETURN};
ghost use Rattle.ss_words.specs.declared.fault.TextRule.TheVariants.{StrayByte, BadNumber, LongRun, NoPicture};
ghost use Rattle.ss_words.specs.declared.fault.TextRule.TheVariants.{LongPictureLine};
ghost use Rattle.ss_words.specs.declared.fault.TextFault.TheVariants.{Refused};
ghost use Rattle.ss_words.specs.declared.word.Sign.TheVariants.{LessEqual, Equal, Less};
ghost use Rattle.ss_words.specs.Words.{name, number, sign, picture};
ghost use Rattle.ss_words.specs.TextWords.{words_of, on_line};
ghost use Rattle.ss_words.specs.TextOrder.{LowestFirst};
ghost use Rattle.ss_words.specs.TextLimits.{LimitsHold};

fn an_empty_text()
    ensures { words_of [] ≡ Ok [] }
{}

fn a_run_of_80_bytes_is_a_word()
    ensures { words_of (replicate 80 97) ≡ Ok (on_line 1 (name (replicate 80 65)) ∷ []) }
{}

fn a_run_of_81_bytes_is_refused()
    ensures { words_of (replicate 81 97) ≡ Err (Refused LongRun 1) }
{}

fn the_largest_number()
    ensures { words_of (codes "9223372036854775807")
        ≡ Ok (on_line 1 (number 9223372036854775807) ∷ []) }
{}

fn a_number_too_large()
    ensures { words_of (codes "9223372036854775808") ≡ Err (Refused BadNumber 1) }
{}

fn a_stop_left_in_digits()
    ensures { words_of (codes "1.5") ≡ Err (Refused BadNumber 1) }
{}

fn a_stop_behind_digits()
    ensures { words_of (codes "1.") ≡ Ok (on_line 1 (number 1) ∷ []) }
{}

fn stops_behind_a_name()
    ensures { words_of (codes "a.B..") ≡ Ok (on_line 1 (name (codes "A.B")) ∷ []) }
{}

fn a_lone_stop()
    ensures { words_of (codes "a . b")
        ≡ Ok (on_line 1 (name (codes "A")) ∷ on_line 1 (name (codes "B")) ∷ []) }
{}

fn signs_of_two_bytes()
    ensures { words_of (codes "<==< =") ≡ Ok (on_line 1 (sign LessEqual) ∷ on_line 1 (sign Equal)
        ∷ on_line 1 (sign Less) ∷ on_line 1 (sign Equal) ∷ []) }
{}

fn a_comment_that_ends()
    ensures { words_of (codes "a ''b" ++ 34 ∷ codes "'' c") ≡ Ok (on_line 1 (name (codes "A"))
        ∷ on_line 1 (name (codes "C")) ∷ []) }
{}

fn a_comment_to_the_lines_end()
    ensures { words_of (codes "a ''b" ++ LINE_FEED ∷ codes "c") ≡ Ok (on_line 1 (name (codes "A"))
        ∷ on_line 2 (name (codes "C")) ∷ []) }
{}

fn a_comment_between_two_runs()
    ensures { words_of (codes "a''b''c")
        ≡ Ok (on_line 1 (name (codes "A")) ∷ on_line 1 (name (codes "C")) ∷ []) }
{}

fn a_lone_quote()
    ensures { words_of (codes "a 'b") ≡ Err (Refused StrayByte 1) }
{}

fn a_comment_behind_thus()
    ensures { words_of (codes "print 1 lines thus ''a''" ++ LINE_FEED ∷ codes "''b")
        ≡ Ok (on_line 1 (name (codes "PRINT")) ∷ on_line 1 (number 1)
        ∷ on_line 1 (name (codes "LINES"))
        ∷ on_line 1 (name (codes "THUS")) ∷ on_line 2 (picture ((codes "''b") ∷ [])) ∷ []) }
{}

fn an_open_comment_behind_thus()
    ensures { words_of (codes "print 1 lines thus ''a" ++ LINE_FEED ∷ codes "b''")
        ≡ Ok (on_line 1 (name (codes "PRINT")) ∷ on_line 1 (number 1)
        ∷ on_line 1 (name (codes "LINES"))
        ∷ on_line 1 (name (codes "THUS")) ∷ on_line 2 (picture ((codes "b''") ∷ [])) ∷ []) }
{}

fn two_comments_behind_thus()
    ensures { words_of (codes "print 1 lines thus ''a'' ''b''" ++ LINE_FEED ∷ codes "c")
        ≡ Err (Refused NoPicture 1) }
{}

fn a_word_behind_thus()
    ensures { words_of (codes "print 1 lines thus a" ++ LINE_FEED ∷ codes "c")
        ≡ Err (Refused NoPicture 1) }
{}

fn a_stop_apart_behind_thus()
    ensures { words_of (codes "print 1 lines thus ." ++ LINE_FEED ∷ codes "c")
        ≡ Err (Refused NoPicture 1) }
{}

fn stops_of_thus()
    ensures { words_of (codes "print 1 thus.." ++ LINE_FEED ∷ codes "c")
        ≡ Ok (on_line 1 (name (codes "PRINT")) ∷ on_line 1 (number 1)
        ∷ on_line 1 (name (codes "THUS"))
        ∷ on_line 2 (picture ((codes "c") ∷ [])) ∷ []) }
{}

fn a_carriage_return_before_a_line_feed()
    ensures { words_of (codes "a" ++ CARRIAGE_RETURN ∷ LINE_FEED ∷ codes "b")
        ≡ Ok (on_line 1 (name (codes "A")) ∷ on_line 2 (name (codes "B")) ∷ []) }
{}

fn a_carriage_return_at_the_end()
    ensures { words_of (codes "a" ++ CARRIAGE_RETURN ∷ [])
        ≡ Ok (on_line 1 (name (codes "A")) ∷ []) }
{}

fn a_carriage_return_elsewhere()
    ensures { words_of (codes "a" ++ CARRIAGE_RETURN ∷ codes "b") ≡ Err (Refused StrayByte 1) }
{}

fn two_carriage_returns()
    ensures { words_of (codes "a" ++ LINE_FEED ∷ CARRIAGE_RETURN ∷ CARRIAGE_RETURN ∷ LINE_FEED
        ∷ codes "b") ≡ Err (Refused StrayByte 2) }
{}

fn no_line_behind_the_last_line_feed()
    ensures { words_of (codes "print 1 thus" ++ LINE_FEED ∷ CARRIAGE_RETURN ∷ [])
        ≡ Err (Refused NoPicture 1) }
{}

fn an_empty_picture_line()
    ensures { words_of (codes "print 1 thus" ++ LINE_FEED ∷ LINE_FEED ∷ [])
        ≡ Ok (on_line 1 (name (codes "PRINT")) ∷ on_line 1 (number 1)
        ∷ on_line 1 (name (codes "THUS"))
        ∷ on_line 2 (picture ([] ∷ [])) ∷ []) }
{}

fn a_byte_past_ascii()
    ensures { words_of (codes "a" ++ LINE_FEED ∷ 128 ∷ []) ≡ Err (Refused StrayByte 2) }
{}

fn a_byte_past_ascii_in_a_comment()
    ensures { words_of (codes "a ''" ++ 128 ∷ []) ≡ Err (Refused StrayByte 1) }
{}

fn as_and_follows_on_two_lines()
    ensures { words_of (codes "print 2 as" ++ LINE_FEED ∷ codes "follows" ++ LINE_FEED ∷ codes " a"
        ++ LINE_FEED ∷ codes "b" ++ LINE_FEED ∷ codes "c") ≡ Ok (on_line 1 (name (codes "PRINT"))
        ∷ on_line 1 (number 2) ∷ on_line 1 (name (codes "AS")) ∷ on_line 2 (name (codes "FOLLOWS"))
        ∷ on_line 3 (picture ((codes " a") ∷ (codes "b") ∷ [])) ∷ on_line 5 (name (codes "C"))
        ∷ []) }
{}

fn follows_without_as()
    ensures { words_of (codes "follows") ≡ Ok (on_line 1 (name (codes "FOLLOWS")) ∷ []) }
{}

fn a_picture_called_twice()
    ensures { words_of (codes "print 1 thus" ++ LINE_FEED ∷ codes "a" ++ LINE_FEED ∷ codes "thus"
        ++ LINE_FEED ∷ codes "b") ≡ Ok (on_line 1 (name (codes "PRINT")) ∷ on_line 1 (number 1)
        ∷ on_line 1 (name (codes "THUS")) ∷ on_line 2 (picture ((codes "a") ∷ []))
        ∷ on_line 3 (name (codes "THUS")) ∷ on_line 4 (picture ((codes "b") ∷ [])) ∷ []) }
{}

fn the_nearest_print_counts()
    ensures { words_of
        (codes "print 1 print 2 thus" ++ LINE_FEED ∷ codes "a" ++ LINE_FEED ∷ codes "b")
        ≡ Ok (on_line 1 (name (codes "PRINT")) ∷ on_line 1 (number 1)
        ∷ on_line 1 (name (codes "PRINT"))
        ∷ on_line 1 (number 2) ∷ on_line 1 (name (codes "THUS")) ∷ on_line 2 (picture ((codes "a")
        ∷ (codes "b") ∷ [])) ∷ []) }
{}

fn thus_without_print()
    ensures { words_of (codes "1 thus" ++ LINE_FEED ∷ codes "a") ≡ Err (Refused NoPicture 1) }
{}

fn thus_without_a_number()
    ensures { words_of (codes "print a thus" ++ LINE_FEED ∷ codes "a") ≡ Err (Refused NoPicture 1) }
{}

fn thus_directly_behind_print()
    ensures { words_of (codes "print thus" ++ LINE_FEED ∷ codes "a") ≡ Err (Refused NoPicture 1) }
{}

fn a_picture_of_no_lines()
    ensures { words_of (codes "print 0 thus" ++ LINE_FEED ∷ codes "a") ≡ Err (Refused NoPicture 1) }
{}

fn thus_with_too_few_lines()
    ensures { words_of (codes "print 2" ++ LINE_FEED ∷ codes "thus" ++ LINE_FEED ∷ codes "a")
        ≡ Err (Refused NoPicture 2) }
{}

fn a_picture_of_100_lines()
    ensures { words_of (codes "print 100 thus" ++ replicate 101 LINE_FEED)
        ≡ Ok (on_line 1 (name (codes "PRINT")) ∷ on_line 1 (number 100)
        ∷ on_line 1 (name (codes "THUS")) ∷ on_line 2 (picture (replicate 100 [])) ∷ []) }
{}

fn a_picture_of_101_lines()
    ensures { words_of (codes "print 101 thus" ++ replicate 103 LINE_FEED)
        ≡ Err (Refused NoPicture 1) }
{}

fn a_picture_line_of_132_bytes()
    ensures { words_of (codes "print 1 thus" ++ LINE_FEED ∷ replicate 132 45)
        ≡ Ok (on_line 1 (name (codes "PRINT")) ∷ on_line 1 (number 1)
        ∷ on_line 1 (name (codes "THUS"))
        ∷ on_line 2 (picture (replicate 132 45 ∷ [])) ∷ []) }
{}

fn a_carriage_return_behind_a_picture_line()
    ensures { words_of (codes "print 1 thus" ++ LINE_FEED ∷ replicate 132 45 ++ CARRIAGE_RETURN
        ∷ LINE_FEED ∷ []) ≡ Ok (on_line 1 (name (codes "PRINT")) ∷ on_line 1 (number 1)
        ∷ on_line 1 (name (codes "THUS")) ∷ on_line 2 (picture (replicate 132 45 ∷ [])) ∷ []) }
{}

fn a_picture_line_of_133_bytes()
    ensures { words_of (codes "print 1 thus" ++ LINE_FEED ∷ replicate 133 45)
        ≡ Err (Refused LongPictureLine 2) }
{}

fn the_stray_byte_is_earlier()
    ensures { words_of (34 ∷ codes " 1.5") ≡ Err (Refused StrayByte 1) }
{}

fn the_bad_number_is_earlier()
    ensures { words_of (codes "1.5" ++ LINE_FEED ∷ 34 ∷ []) ≡ Err (Refused BadNumber 1) }
{}

fn the_call_is_earlier()
    ensures { words_of (codes "thus " ++ 34 ∷ []) ≡ Err (Refused NoPicture 1) }
{}

fn a_long_bad_number()
    ensures { words_of (codes "1." ++ replicate 79 49) ≡ Err (Refused BadNumber 1) }
{}

fn a_long_thus_without_print()
    ensures { words_of (codes "thus" ++ replicate 77 46) ≡ Err (Refused LongRun 1) }
{}

fn a_long_picture_line_with_a_stray_byte_first()
    ensures { words_of (codes "print 1 thus" ++ LINE_FEED ∷ 128 ∷ replicate 132 45)
        ≡ Err (Refused StrayByte 2) }
{}

fn a_long_picture_line_with_a_stray_byte_behind()
    ensures { words_of (codes "print 1 thus" ++ LINE_FEED ∷ replicate 132 45 ++ 128 ∷ [])
        ≡ Err (Refused LongPictureLine 2) }
{}

fn a_call_is_refused_at_follows()
    ensures { words_of
        (codes "print 1 as" ++ LINE_FEED ∷ codes "follows x" ++ LINE_FEED ∷ codes "y")
        ≡ Err (Refused NoPicture 2) }
{}

// In a text that is not refused each word keeps the limits.
fn each_word_keeps_the_limits()
    ensures { LimitsHold }
{}

// At one place the rules that are broken are found in the order of their numbers.
fn the_lowest_number_is_found_first()
    ensures { LowestFirst }
{}
