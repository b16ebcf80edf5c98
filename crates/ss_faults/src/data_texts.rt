//! The texts on pieces of the data: on the one at which a statement failed, and on the next ones.
ghost use Rattle.std.specs.Prelude.{◌≡◌, ◌+◌, ◌++◌, option_map, slice_get, OnOk};
ghost use Rattle.std.specs.List.{list_all};
ghost use Rattle.std.specs.Char.{is_ascii_digit};
ghost use Rattle.ss_data.specs.Numbers.{is_numeral};
ghost use Rattle.ss_faults.specs.DataTexts as spec;

use crate::data_pieces::{DataPiece, PiecesLeft};
use crate::refused::{Refused, first_refused};
use crate::texts::push_number;
use itoa::Buffer;
use ss_columns::{first_bytes, push_shown};
use ss_links::SetBoard;
use ss_machine::Machine;
use ss_program::{Program, Target, Targets, Variable, name_at};
use ss_words::characters::{MINUS_SIGN, PLUS_SIGN};
use std::alloc::AllocError;

/// The greatest number of bytes of a piece that are shown. The definitions read it too.
pub const LONGEST_SHOWN: usize = 40;

/// The mark at the end of a piece that is cut.
fn cut_mark(bytes: &[u8]) -> &'static [u8]
    ensures { result.now ≡ spec.cut_mark bytes.now }
{
    if bytes.len() > LONGEST_SHOWN {
        b".."
    } else {
        b""
    }
}

/// Appends the first bytes of a piece, and a mark if it has more.
fn push_shown_piece(text: &mut Vec<u8>, bytes: &[u8]) -> Result<(), AllocError>
    ensures { OnOk result (text.new.items ≡ text.old.items ++ spec.shown_piece bytes.now) }
{
    push_shown(text, first_bytes(bytes, LONGEST_SHOWN))?;
    text.extend_from_slice(cut_mark(bytes))
}

/// The bytes without the sign at the front.
fn without_sign(bytes: &[u8]) -> &[u8]
    ensures { result.now ≡ spec.without_sign bytes.now }
{
    match bytes {
        [MINUS_SIGN | PLUS_SIGN, digits @ ..] => digits,
        _ => bytes,
    }
}

/// Whether a `-` is at the front.
fn is_negative(bytes: &[u8]) -> bool
    ensures { result ≡ spec.is_negative bytes.now }
{
    matches!(bytes, [MINUS_SIGN, ..])
}

/// Whether all bytes are digits.
fn all_digits(bytes: &[u8]) -> bool
    ensures { result ≡ list_all is_ascii_digit bytes.now }
{
    bytes.iter().all(|byte| byte.is_ascii_digit())
}

/// Whether the bytes are one digit or more, and nothing else.
#[tactic(auto, using(crate::proofs::Digits::digits_alone))]
fn is_numeral(digits: &[u8]) -> bool
    ensures { result ≡ is_numeral digits.now }
{
    0 < digits.len() && all_digits(digits)
}

/// The reason why a piece gives no value.
fn unfit_words(bytes: &[u8]) -> &'static [u8]
    ensures { result.now ≡ spec.unfit_words bytes.now }
{
    if !is_numeral(without_sign(bytes)) {
        b", is no number"
    } else if is_negative(bytes) {
        b", is too small a number"
    } else {
        b", is too great a number"
    }
}

/// Appends the number of the piece that comes after those taken and `index` more.
fn push_piece_number(text: &mut Vec<u8>, taken: usize, index: usize) -> Result<(), AllocError>
    ensures { OnOk result (text.new.items
        ≡ text.old.items ++ spec.piece_number (taken + index + 1)) }
{
    let mut buffer = Buffer::new();
    let number = taken as u128 + index as u128 + 1;
    text.extend_from_slice(b"Piece ")?;
    text.extend_from_slice(buffer.format(number).as_bytes())?;
    text.extend_from_slice(b" of the data")
}

/// Appends the text of a piece, and its line.
fn push_piece_text(text: &mut Vec<u8>, piece: &DataPiece<'_>) -> Result<(), AllocError>
    ensures { OnOk result (text.new.items ≡ text.old.items ++ spec.piece_text piece.now) }
{
    text.extend_from_slice(b", \"")?;
    push_shown_piece(text, piece.bytes)?;
    text.extend_from_slice(b"\", line ")?;
    push_number(text, piece.line as u64)
}

/// Appends the reason why there is no value: no piece is left, or the piece gives none.
fn push_unfit(text: &mut Vec<u8>, piece: &Option<DataPiece<'_>>) -> Result<(), AllocError>
    ensures { OnOk result (text.new.items ≡ text.old.items ++ spec.unfit_text piece.now) }
{
    match piece {
        None => text.extend_from_slice(b" is missing"),
        Some(piece) => {
            push_piece_text(text, piece)?;
            text.extend_from_slice(unfit_words(piece.bytes))
        }
    }
}

/// Appends the number of wanted pieces, and of those that are left.
fn push_counts(text: &mut Vec<u8>, wanted: usize, left: usize) -> Result<(), AllocError>
    ensures { OnOk result (text.new.items ≡ text.old.items ++ spec.counts_text wanted left) }
{
    text.extend_from_slice(b". Wanted: ")?;
    push_number(text, wanted as u64)?;
    text.extend_from_slice(b". Left: ")?;
    push_number(text, left as u64)?;
    text.extend_from_slice(b".")
}

/// Appends the refused piece by its number, and the reason.
fn push_refused(text: &mut Vec<u8>, taken: usize, refused: &Refused<'_>) -> Result<(), AllocError>
    ensures { OnOk result (text.new.items ≡ text.old.items ++ spec.refused_text taken refused.now) }
{
    push_piece_number(text, taken, refused.index)?;
    push_unfit(text, &refused.piece)?;
    text.extend_from_slice(b"; it was meant for ")
}

/// Appends the name of a variable.
fn push_variable_name(
    text: &mut Vec<u8>,
    program: &Program,
    section: usize,
    variable: Variable,
) -> Result<(), AllocError>
    ensures { OnOk result (text.new.items
        ≡ text.old.items ++ spec.variable_name program.now section variable) }
{
    match variable {
        Variable::Global(number) => text.extend_from_slice(name_at(&program.globals, number)),
        Variable::Local(number) => text.extend_from_slice(name_at(program.locals(section), number)),
        Variable::Clock => text.extend_from_slice(b"TIME.V"),
    }
}

/// Appends the name of an attribute, and its class.
fn push_attribute_name(
    text: &mut Vec<u8>,
    program: &Program,
    class: usize,
    attribute: usize,
) -> Result<(), AllocError>
    ensures { OnOk result (text.new.items
        ≡ text.old.items ++ spec.attribute_name program.now class attribute) }
{
    text.extend_from_slice(name_at(program.attributes(class), attribute))?;
    text.extend_from_slice(b" of ")?;
    text.extend_from_slice(program.class_name(class))
}

/// Appends the name of a target.
fn push_target(
    text: &mut Vec<u8>,
    program: &Program,
    section: usize,
    target: &Target,
) -> Result<(), AllocError>
    ensures { OnOk result (text.new.items
        ≡ text.old.items ++ spec.target_name program.now section target.now) }
{
    match target {
        Target::Variable(variable) => push_variable_name(text, program, section, *variable),
        Target::Attribute {
            class,
            attribute,
            ..
        } => push_attribute_name(text, program, *class, *attribute),
    }
}

/// The target with this number, if there is one.
fn target_at(targets: &Targets, number: usize) -> Option<&Target>
    ensures { option_map (λ t. t.now) result ≡ slice_get targets.now number }
{
    targets.list.get(number)
}

/// Appends the name of the target with this number, if there is one.
fn push_target_at(
    text: &mut Vec<u8>,
    program: &Program,
    section: usize,
    targets: &Targets,
    number: usize,
) -> Result<(), AllocError>
    ensures { OnOk result (text.new.items ≡ text.old.items
        ++ spec.target_at program.now section (slice_get targets.now number)) }
{
    match target_at(targets, number) {
        None => Ok(()),
        Some(target) => push_target(text, program, section, target),
    }
}

/// READ: appends the sentence on the refused piece.
fn push_read_refusal<S: SetBoard>(
    text: &mut Vec<u8>,
    machine: &Machine<S>,
    targets: &Targets,
    left: usize,
    refused: &Refused<'_>,
) -> Result<(), AllocError>
    ensures { OnOk result (text.new.items ≡ text.old.items ++ spec.read_refusal
        machine.now.input.program machine.now.state.frame.section targets.now
        machine.now.state.feed.taken left refused.now) }
{
    let (section, _) = machine.place();
    push_refused(text, machine.taken(), refused)?;
    push_target_at(text, machine.program(), section, targets, refused.index)?;
    push_counts(text, targets.list.len(), left)
}

/// READ: appends the sentence on the first wanted piece that gives no value.
pub fn push_read_sentence<S: SetBoard>(
    text: &mut Vec<u8>,
    machine: &Machine<S>,
    targets: &Targets,
    pieces: PiecesLeft<'_>,
) -> Result<(), AllocError>
    ensures { OnOk result (text.new.items ≡ text.old.items ++ spec.read_sentence
        machine.now.input.program machine.now.state.frame.section targets.now
        machine.now.state.feed.taken pieces.entry) }
{
    let left = pieces.count();
    match first_refused(pieces, 0, targets.list.len()) {
        None => Ok(()),
        Some(refused) => push_read_refusal(text, machine, targets, left, &refused),
    }
}

/// START SIMULATION: appends the sentence on a piece that is no time of an entry.
fn push_entry_refusal(
    text: &mut Vec<u8>,
    taken: usize,
    left: usize,
    refused: &Refused<'_>,
) -> Result<(), AllocError>
    ensures { OnOk result (text.new.items
        ≡ text.old.items ++ spec.entry_refusal taken left refused.now) }
{
    push_refused(text, taken, refused)?;
    text.extend_from_slice(b"the time of an entry")?;
    push_counts(text, 2, left)
}

/// START SIMULATION: appends that sentence. An entry begins with a name, and its time is the second
/// piece.
pub fn push_entry_sentence(
    text: &mut Vec<u8>,
    taken: usize,
    mut pieces: PiecesLeft<'_>,
) -> Result<(), AllocError>
    ensures { OnOk result (text.new.items
        ≡ text.old.items ++ spec.entry_sentence taken pieces.entry) }
{
    let left = pieces.count();
    pieces.pass_some(1);
    match first_refused(pieces, 1, 2) {
        None => Ok(()),
        Some(refused) => push_entry_refusal(text, taken, left, &refused),
    }
}

/// START SIMULATION: appends the sentence on a piece that is not the name of an external event.
pub fn push_name_sentence(
    text: &mut Vec<u8>,
    taken: usize,
    mut pieces: PiecesLeft<'_>,
) -> Result<(), AllocError>
    ensures { OnOk result (text.new.items
        ≡ text.old.items ++ spec.name_sentence taken pieces.entry) }
{
    let left = pieces.count();
    let Some(piece) = pieces.pass() else {
        return Ok(());
    };
    push_piece_number(text, taken, 0)?;
    push_piece_text(text, &piece)?;
    text.extend_from_slice(b", names no external event. Left: ")?;
    push_number(text, left as u64)?;
    text.extend_from_slice(b".")
}

/// Appends one more piece, if there is one.
fn push_more(text: &mut Vec<u8>, piece: &Option<DataPiece<'_>>) -> Result<(), AllocError>
    ensures { OnOk result (text.new.items ≡ text.old.items ++ spec.more_text piece.now) }
{
    match piece {
        None => Ok(()),
        Some(piece) => {
            text.extend_from_slice(b" ")?;
            push_shown_piece(text, piece.bytes)
        }
    }
}

/// Appends the next piece after its line.
fn push_first(text: &mut Vec<u8>, piece: &DataPiece<'_>) -> Result<(), AllocError>
    ensures { OnOk result (text.new.items ≡ text.old.items ++ spec.first_text piece.now) }
{
    text.extend_from_slice(b"NEXT ON LINE ")?;
    push_number(text, piece.line as u64)?;
    text.extend_from_slice(b": ")?;
    push_shown_piece(text, piece.bytes)
}

/// Appends the next piece after its line, and two more.
fn push_row(
    text: &mut Vec<u8>,
    piece: &DataPiece<'_>,
    second: &Option<DataPiece<'_>>,
    third: &Option<DataPiece<'_>>,
) -> Result<(), AllocError>
    ensures { OnOk result (text.new.items
        ≡ text.old.items ++ spec.row_text piece.now second.now third.now) }
{
    push_first(text, piece)?;
    push_more(text, second)?;
    push_more(text, third)?;
    text.extend_from_slice(b"\n")
}

/// Appends the same, or that no piece is left.
fn push_next(
    text: &mut Vec<u8>,
    next: &Option<DataPiece<'_>>,
    second: &Option<DataPiece<'_>>,
    third: &Option<DataPiece<'_>>,
) -> Result<(), AllocError>
    ensures { OnOk result (text.new.items
        ≡ text.old.items ++ spec.next_text next.now second.now third.now) }
{
    match next {
        None => text.extend_from_slice(b"NO PIECE IS LEFT\n"),
        Some(piece) => push_row(text, piece, second, third),
    }
}

/// Appends a line with the next piece of the data, by the number of its pieces that are taken, and
/// the two after it; the line of the data file on which the next one is comes first. A piece is cut
/// after 40 bytes, and a byte that may not be in a line is a question mark. If no piece is left,
/// the line says so. The only error is that memory was refused.
pub fn push_next_pieces(
    text: &mut Vec<u8>,
    data_text: &[u8],
    taken: usize,
) -> Result<(), AllocError>
    ensures { OnOk result (text.new.items
        ≡ text.old.items ++ spec.next_pieces_text data_text.now taken) }
{
    let mut pieces = PiecesLeft::new(data_text);
    pieces.pass_some(taken);
    let next = pieces.pass();
    let second = pieces.pass();
    let third = pieces.pass();
    push_next(text, &next, &second, &third)
}
