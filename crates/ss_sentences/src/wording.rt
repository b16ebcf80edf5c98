//! All wording: a sentence for each code that a refusal or a fault prints. The definitions read these
//! tables too (specs/Wording.antt).
ghost use Rattle.std.specs.Prelude.{◌≡◌, map};
ghost use Rattle.ss_words.specs.Faults.{run_fault_number};
ghost use Rattle.ss_sentences.specs.Wording as spec;

use ss_words::RunFault;

/// The sentence of each rule on the text and of each rule of the checker, by its code. The first
/// `{}` is the place of the words that are refused. The second is for L3 the place of their length,
/// and for a rule P that of the word before them.
pub const RULE_SENTENCES: [(&[u8], &[u8]); 22] = [
    (b"L1", b"The byte {} has no meaning here."),
    (
        b"L2",
        b"{} is no whole number from 0 to 9223372036854775807.",
    ),
    (b"L3", b"{} has {} bytes: a word has at most 80."),
    (
        b"L4",
        b"After {} the line must end, and as many picture lines must follow as PRINT says, 1 to 100.",
    ),
    (
        b"L5",
        b"This line of a picture has {} bytes: it may have 132.",
    ),
    (b"P1", b"{} does not fit after {}."),
    (b"P2", b"The text ends after {}, but the program does not."),
    (
        b"P3",
        b"{} is one more than a limit of the language allows.",
    ),
    (
        b"C1",
        b"This statement declares a name that is declared already.",
    ),
    (
        b"C2",
        b"A class of this statement does not exist, or is not of the kind that is needed here.",
    ),
    (
        b"C3",
        b"A name of this statement is used as something that it is not.",
    ),
    (
        b"C4",
        b"A set of this statement has no owner, or this is a second OWNS of it.",
    ),
    (
        b"C5",
        b"A set of this statement has no member class, or this is a second BELONGS TO it.",
    ),
    (
        b"C6",
        b"A key of this statement is no attribute of the class that it ranks.",
    ),
    (
        b"C7",
        b"This statement has another count of values than is needed.",
    ),
    (
        b"C8",
        b"An event of this statement has no EVENT section, or this section has no event class.",
    ),
    (
        b"C9",
        b"This statement sets a thing that cannot be set, or its loop variable is no variable.",
    ),
    (
        b"C10",
        b"The picture has another count of fields than there are values, or a field has decimals.",
    ),
    (b"C11", b"No section is MAIN, or this is a second MAIN."),
    (
        b"C12",
        b"A name of PRIORITY is no event or is named twice, or PRIORITY is given a second time.",
    ),
    (b"C13", b"START SIMULATION is allowed in MAIN only."),
    (
        b"C14",
        b"IF FOUND and IF NONE are allowed directly after a FIND only.",
    ),
];

/// The sentence of each fault of a run, by its number.
pub const FAULT_SENTENCES: [(u8, &[u8]); 22] = [
    (1, b"A value is out of the range of 64 bits."),
    (2, b"The divisor is 0."),
    (3, b"There is no such entity of that class."),
    (4, b"The entity is in a list of this set already."),
    (5, b"The entity is not in this list."),
    (6, b"The set is empty."),
    (
        7,
        b"The entity cannot end: it is in a set, or is scheduled.",
    ),
    (8, b"The entity cannot end: a set that it owns has members."),
    (9, b"The event would be due before the clock."),
    (10, b"The notice is scheduled already."),
    (
        11,
        b"The notice is not scheduled, or belongs to the entry that waits.",
    ),
    (12, b"The entities of this class were created before."),
    (
        13,
        b"A count is out of range: CREATE EVERY makes 1 to 10,000, SKIP skips 0 to 1,000.",
    ),
    (14, b"The next member of this loop has left its set."),
    (15, b"The value after BY is below 1."),
    (16, b"The data end too early: a value is missing."),
    (17, b"A piece of the data cannot be taken as a value."),
    (18, b"More than 200 sections would be open at once."),
    (19, b"The report would be longer than 16,777,216 bytes."),
    (
        20,
        b"All 1,000,000 references, or all 2^40 schedulings, of a run are used up.",
    ),
    (21, b"The next piece of the data is no external event."),
    (
        22,
        b"The mark * that ends an entry is missing or met too early, or the entry still waits.",
    ),
];

/// The sentence of the rule with this code, as `C10`, with `{}` in the place of the words that it
/// names (docs/SENTENCES.md); empty if no rule has this code.
#[tactic(auto, unfolding(crate::specs::Wording::rule_sentence))]
pub fn rule_sentence(code: &str) -> &'static [u8]
    ensures { result.now ≡ spec.rule_sentence code.now }
{
    text_beside(code.as_bytes(), &RULE_SENTENCES)
}

fn text_beside(code: &[u8], mut rows: &'static [(&'static [u8], &'static [u8])]) -> &'static [u8]
    ensures { result.now
        ≡ spec.beside code.now (map (λ row. (row.0.now, row.1.now)) rows.entry.now) }
{
    while let [row, rest @ ..] = rows {
        if row.0 == code {
            return row.1;
        }
        rows = rest;
    }
    b""
}

/// The sentence of a fault of a run (docs/SENTENCES.md).
#[tactic(auto, unfolding(crate::specs::Wording::fault_sentence))]
pub fn fault_sentence(fault: RunFault) -> &'static [u8]
    ensures { result.now ≡ spec.fault_sentence (run_fault_number fault) }
{
    text_beside_number(fault.number(), &FAULT_SENTENCES)
}

/// The text in the row of a number in a table; empty if there is no such row.
pub fn text_beside_number(number: u8, mut rows: &'static [(u8, &'static [u8])]) -> &'static [u8]
    ensures { result.now
        ≡ spec.beside_number number (map (λ row. (row.0, row.1.now)) rows.entry.now) }
{
    while let [row, rest @ ..] = rows {
        if row.0 == number {
            return row.1;
        }
        rows = rest;
    }
    b""
}
