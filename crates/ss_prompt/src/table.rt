//! The table of the commands: their words, what is made of the words after them, and their help.
//! The definitions read it too (specs/Table.antt).
ghost use Rattle.std.specs.Prelude.{◌≡◌};
ghost use Rattle.ss_prompt.specs.Table.{forms, form_of, forms_of, begins_with, last_word};
ghost use Rattle.ss_prompt.specs.Table.{letters, letters_of};

use crate::makes::Makes;
use crate::makes::Makes::{Alone, Also, Asked, Elsewhere};
use crate::makes::Single::{
    BackCause, BackOut, Breaks, Changed, GoEnd, Out, Overview, Reads, Warnings, WhyCause,
};
use crate::manner::Manner;
use crate::pieces::next_word;
use crate::until::Until;
use ss_inspect::Overview::{Calls, Classes, Globals, Locals, Place, Sections, Sets};

/// A row: a command, or several that begin with the same words; the words with which a line of the
/// row begins, one or two of them; what it makes of the words after these; the lines of HELP on it.
pub type Form = (&'static [u8], Makes, &'static [u8]);

/// A letter and the word that it means.
pub type Letter = (&'static [u8], &'static [u8]);

/// The rows. If several make a command of a line, the last one counts.
pub const FORMS: [Form; 60] = [
    (
        b"STEP",
        Elsewhere,
        b"STEP [n]: n steps forward, 1 if not said",
    ),
    (
        b"RUN",
        Elsewhere,
        b"RUN [n]: forward to a break line or the end, at most n steps, 1000000 if not said",
    ),
    (
        b"RUN TO",
        Elsewhere,
        b"RUN TO t: forward to time t or a break line",
    ),
    (
        b"RUN CHANGE",
        Makes::Question(Manner::RunChange),
        b"RUN CHANGE x: forward to after a step that changes x\n\
            RUN CHANGE e: forward to after a step that changes expression or condition e",
    ),
    (
        b"RUN UNTIL",
        Makes::Until(Until::Run),
        b"RUN UNTIL c: forward to a state in which condition c holds",
    ),
    (b"NEXT", Elsewhere, b"NEXT: forward to the next event start"),
    (
        b"OVER",
        Makes::Over,
        b"OVER [n]: n statements of this section, with all that they call",
    ),
    (b"OUT", Alone(Out), b"OUT: forward out of this section"),
    (b"BACK", Elsewhere, b"BACK [n]: n steps back, 1 if not said"),
    (
        b"BACK EVENT",
        Elsewhere,
        b"BACK EVENT: back to the last event start",
    ),
    (
        b"BACK BREAK",
        Elsewhere,
        b"BACK BREAK: back to a break line",
    ),
    (
        b"BACK CHANGE",
        Makes::Question(Manner::BackChange),
        b"BACK CHANGE x: back to before a step that changes x\n\
            BACK CHANGE e: back to before a step that changes expression or condition e",
    ),
    (
        b"BACK UNTIL",
        Makes::Until(Until::Back),
        b"BACK UNTIL c: back to a state in which condition c holds",
    ),
    (
        b"BACK CAUSE",
        Alone(BackCause),
        b"BACK CAUSE: back to the step that brought this section about",
    ),
    (
        b"BACK OVER",
        Makes::BackOver,
        b"BACK OVER [n]: back over n statements of this section",
    ),
    (
        b"BACK OUT",
        Alone(BackOut),
        b"BACK OUT: back to the statement that called this section",
    ),
    (
        b"BACK TO",
        Makes::BackTo,
        b"BACK TO t: back to a state before time t",
    ),
    (b"GO", Makes::Go, b"GO p: to state p, forward or back"),
    (
        b"GO END",
        Alone(GoEnd),
        b"GO END: forward to the end, 100000000 steps at most",
    ),
    (
        b"GO FIRST",
        Makes::Until(Until::First),
        b"GO FIRST c: to the first state of all in which condition c holds",
    ),
    (
        b"BREAK",
        Makes::Break,
        b"BREAK l: stop at line l\n\
            BREAK r: stop at the first place of section r\n\
            BREAK l WHEN c, BREAK r WHEN c: stop there only if condition c holds",
    ),
    (
        b"CLEAR",
        Makes::Clear,
        b"CLEAR l: no stop at line l any more\n\
            CLEAR r: no stop at the first place of section r any more\n\
            CLEAR: no stop at any line any more",
    ),
    (
        b"TBREAK",
        Makes::Once,
        b"TBREAK l: forward as RUN, with a stop at line l this once\n\
            TBREAK r: forward as RUN, with a stop at the first place of section r this once",
    ),
    (b"BREAKS", Alone(Breaks), b"BREAKS: the break lines"),
    (
        b"LIST",
        Makes::List,
        b"LIST: the lines about the present one; again, the lines after those\n\
            LIST l: the lines about line l\n\
            LIST l m: the lines from l to m\n\
            LIST r: the lines of section r",
    ),
    (b"SHOW CLOCK", Asked, b"SHOW CLOCK: the time"),
    (b"SHOW WHERE", Asked, b"SHOW WHERE: the state line"),
    (b"SHOW VAR", Asked, b"SHOW VAR v, SHOW v: variable v"),
    (
        b"SHOW",
        Makes::Show,
        b"SHOW e: the value of expression e, or whether condition e holds\n\
            SHOW c k: entity k of class c\n\
            SHOW c k a: attribute a of it\n\
            SHOW c: the entities of class c\n\
            SHOW c a [b ..]: these attributes of each of them, a row each\n\
            SHOW c v [a]: the entity that variable v names, or attribute a of it",
    ),
    (
        b"SHOW IN",
        Makes::Places,
        b"SHOW IN c k: the lists that it is in, and when it is due",
    ),
    (
        b"SHOW PLACE",
        Alone(Overview(Place)),
        b"SHOW PLACE: the section, the line and the word of the next statement",
    ),
    (
        b"SHOW CALLS",
        Alone(Overview(Calls)),
        b"SHOW CALLS: the sections that are running, the last first",
    ),
    (
        b"SHOW CHANGED",
        Alone(Changed),
        b"SHOW CHANGED: what the last step changed; after OVER and the like, all since",
    ),
    (
        b"SHOW LOCALS",
        Alone(Overview(Locals)),
        b"SHOW LOCALS: the local variables of this section",
    ),
    (
        b"SHOW GLOBALS",
        Alone(Overview(Globals)),
        b"SHOW GLOBALS: the global variables",
    ),
    (
        b"SHOW CLASSES",
        Alone(Overview(Classes)),
        b"SHOW CLASSES: the classes, and how many entities each has",
    ),
    (b"SHOW SETS", Alone(Overview(Sets)), b"SHOW SETS: the sets"),
    (
        b"SHOW SECTIONS",
        Alone(Overview(Sections)),
        b"SHOW SECTIONS: the sections, with the lines of their heads",
    ),
    (
        b"SHOW SET",
        Asked,
        b"SHOW SET s [k]: the members of set s, of owner k\n\
            SHOW SET s [k] a [b ..]: these attributes of each of them, a row each",
    ),
    (
        b"SHOW",
        Also,
        b"SHOW s, SHOW s(e): the members of set s, of the owner with number e",
    ),
    (b"SHOW COUNT", Asked, b"SHOW COUNT s [k]: how many they are"),
    (
        b"SHOW EVENTS",
        Asked,
        b"SHOW EVENTS: the pending notices, the next first, and their attributes",
    ),
    (
        b"SHOW TAKEN",
        Asked,
        b"SHOW TAKEN: how many values of the data are taken, and the next three",
    ),
    (
        b"SHOW ENTRY",
        Asked,
        b"SHOW ENTRY: the entry of an external event",
    ),
    (b"SHOW REPORT", Asked, b"SHOW REPORT: the report so far"),
    (
        b"WHY",
        Makes::Question(Manner::Why),
        b"WHY x: the newest step that changed x\n\
            WHY e: the newest step that changed expression or condition e",
    ),
    (
        b"WHY CAUSE",
        Alone(WhyCause),
        b"WHY CAUSE: the step that brought this section about",
    ),
    (
        b"HISTORY",
        Makes::History,
        b"HISTORY x [n]: the newest n steps that changed x, 10 if not said\n\
            HISTORY e [n]: the newest n steps that changed expression or condition e",
    ),
    (
        b"READS",
        Alone(Reads),
        b"READS: what the next statement looks at, and the steps that changed it last",
    ),
    (
        b"DISPLAY",
        Makes::Question(Manner::Display),
        b"DISPLAY x: answer x at each stop; x is a question, as in SHOW x\n\
            DISPLAY e: print expression or condition e at each stop",
    ),
    (
        b"UNDISPLAY",
        Makes::Undisplay,
        b"UNDISPLAY: answer nothing at stops any more\n\
            UNDISPLAY x: answer x at stops no more",
    ),
    (
        b"NAMES",
        Makes::Names,
        b"NAMES: the names of the model, how often each occurs, and its first line\n\
            NAMES v: the lines on which name v is declared, set and read",
    ),
    (
        b"WARNINGS",
        Alone(Warnings),
        b"WARNINGS: what is suspicious in the model",
    ),
    (
        b"FORGET",
        Elsewhere,
        b"FORGET n: let go of all steps but the newest n",
    ),
    (
        b"READS",
        Also,
        b"READ FROM f: in ssdb, read the lines of file f, as if they were typed",
    ),
    (
        b"LOG",
        Elsewhere,
        b"LOG TO f: in ssdb, write to file f too what is typed and printed\n\
            LOG: in ssdb, write to no file any more",
    ),
    (
        b"RELOAD",
        Elsewhere,
        b"RELOAD: in ssdb, read model and data again, and go to the same place",
    ),
    (
        b"HELP",
        Makes::Help,
        b"HELP [word]: the commands, or those that begin with a word",
    ),
    (b"QUIT", Elsewhere, b"QUIT: the end"),
    (
        b"HELP",
        Also,
        b"S, N, C, B, Q: STEP, NEXT, RUN, BREAK, QUIT",
    ),
];

/// The letters that mean a word at the beginning of a line.
pub const LETTERS: [Letter; 5] = [
    (b"S", b"STEP"),
    (b"N", b"NEXT"),
    (b"C", b"RUN"),
    (b"B", b"BREAK"),
    (b"Q", b"QUIT"),
];

/// The rows of the table.
#[tactic(auto, unfolding(crate::specs::Table::forms))]
pub(crate) fn forms() -> &'static [Form]
    ensures { forms_of result.now ≡ forms }
{
    &FORMS
}

/// Those letters.
#[tactic(auto, unfolding(crate::specs::Table::letters))]
pub(crate) fn letters() -> &'static [Letter]
    ensures { letters_of result.now ≡ letters }
{
    &LETTERS
}

/// Whether this is the first word of a row.
pub(crate) fn begins_with(form: &Form, word: &[u8]) -> bool
    ensures { result ≡ begins_with (form_of form.now) word.now }
{
    match next_word(form.0) {
        Some((first, _)) => first == word,
        None => false,
    }
}

/// The last word of a row.
pub(crate) fn last_word(form: &Form) -> &'static [u8]
    ensures { result.now ≡ last_word (form_of form.now) }
{
    let Some((first, rest)) = next_word(form.0) else {
        return b"";
    };
    match next_word(rest) {
        Some((second, _)) => second,
        None => first,
    }
}
