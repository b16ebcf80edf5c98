//! The results of the definitions of the data on small data: each function is a law, proved by
//! computing.
#![tactic(auto, unfolding(ss_words::specs::TextBytes::in_run, ss_words::specs::TextRuns::without_stops))]

ghost use Rattle.std.specs.Prelude.{◌≡◌, true, false, codes, replicate, Some, None};
ghost use Rattle.ss_data.specs.declared.entry.PieceKind.TheVariants.{End, Number, Mark, Other};
ghost use Rattle.ss_data.specs.Items.{data_at_start, with_taken};
ghost use Rattle.ss_data.specs.Entries.{next_kind, writes_name, place_behind_mark};

fn one_asterisk_is_the_mark()
    ensures { next_kind (data_at_start (codes "* 5")) ≡ Mark }
{}

fn two_asterisks_are_no_mark()
    ensures { next_kind (data_at_start (codes "**")) ≡ Other }
{}

fn an_asterisk_at_a_number_is_no_mark()
    ensures { next_kind (data_at_start (codes "5*")) ≡ Other }
{}

fn a_number_is_a_number()
    ensures { next_kind (data_at_start (codes " -5 *")) ≡ Number }
{}

fn a_number_too_large_is_none()
    ensures { next_kind (data_at_start (codes "9223372036854775808")) ≡ Other }
{}

fn blanks_are_the_end()
    ensures { next_kind (data_at_start (codes "  ")) ≡ End }
{}

fn capitals_do_not_matter()
    ensures { writes_name (codes "ARRIVAL") (codes "aRRival") ≡ true }
{}

fn stops_at_the_end_do_not_matter()
    ensures { writes_name (codes "ARRIVAL") (codes "arrival..") ≡ true }
{}

fn a_stop_at_the_front_matters()
    ensures { writes_name (codes "ARRIVAL") (codes ".ARRIVAL") ≡ false }
{}

fn the_front_of_a_name_is_another_name()
    ensures { writes_name (codes "ARRIVAL") (codes "ARRIVALS") ≡ false }
{}

fn digits_are_no_name()
    ensures { writes_name (codes "5") (codes "5") ≡ false }
{}

fn the_mark_is_no_name()
    ensures { writes_name (codes "*") (codes "*") ≡ false }
{}

fn a_name_has_at_most_80_bytes()
    ensures longest { writes_name (replicate 80 65) (replicate 80 97) ≡ true }
    ensures longer { writes_name (replicate 81 65) (replicate 81 97) ≡ false }
{}

fn an_entry_ends_behind_its_mark()
    ensures first { place_behind_mark (data_at_start (codes "a 5 ** * b *")) ≡ Some 4 }
    ensures second { place_behind_mark (with_taken (data_at_start (codes "a 5 ** * b *")) 4)
        ≡ Some 6 }
    ensures at_the_mark { place_behind_mark (with_taken (data_at_start (codes "a 5 ** * b *")) 3)
        ≡ Some 4 }
{}

fn no_entry_ends_where_no_mark_is_left()
    ensures none { place_behind_mark (data_at_start (codes "a 5 **")) ≡ None }
    ensures passed { place_behind_mark (with_taken (data_at_start (codes "a * 5")) 2) ≡ None }
    ensures empty { place_behind_mark (data_at_start (codes "")) ≡ None }
{}
