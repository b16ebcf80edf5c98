//! The values of a PRINT and the fields of its picture.
ghost use Rattle.std.specs.Prelude.{◌≡◌, ◌++◌, map, IfOk, OnOk};
ghost use Rattle.ss_words.specs.Plain.{plain_at};
ghost use Rattle.ss_names.specs.Pictures as spec;

use crate::once::push_number;
use crate::values::list_count;
use ss_report::{Picture, PictureFault};
use ss_words::{Mark, Plain, PlainWord, Reserved};
use std::alloc::{AllocError, Global};

fn is_with(mark: Option<Mark>) -> bool
    ensures { result ≡ spec.is_with mark }
{
    matches!(mark, Some(Mark::Reserved(Reserved::With)))
}

fn is_thus(mark: Option<Mark>) -> bool
    ensures { result ≡ spec.is_thus mark }
{
    matches!(mark, Some(Mark::Reserved(Reserved::Thus)))
}

/// How many values a PRINT has before these words: those of the list after WITH, before THUS.
#[tactic(auto, unfolding(crate::specs::Pictures::value_count))]
pub fn value_count(words: &[PlainWord<'_>]) -> usize
    ensures { result ≡ spec.value_count (map plain_at words.now) }
{
    let mut rest = words;
    while let [word, behind @ ..] = rest {
        let mark = word.kind().mark();
        if is_with(mark) {
            return list_count(behind);
        }
        if is_thus(mark) {
            return 0;
        }
        rest = behind;
    }
    0
}

/// The lines of the first picture among words.
#[tactic(auto, unfolding(crate::specs::Pictures::first_picture))]
pub fn first_picture<'a>(words: &[PlainWord<'a>]) -> &'a [Vec<u8>]
    ensures { map (λ l. l.items) result.now ≡ spec.first_picture (map plain_at words.now) }
{
    let mut rest = words;
    while let [word, behind @ ..] = rest {
        if let Plain::Picture(lines) = word.kind() {
            return lines;
        }
        rest = behind;
    }
    &[]
}

/// Copies of lines.
fn copied_lines(alloc: Global, lines: &[Vec<u8>]) -> Result<Vec<Vec<u8>>, AllocError>
    ensures { IfOk result
        (λ copies. map (λ l. l.items) copies.items ≡ map (λ l. l.items) lines.now) }
{
    let mut copies = Vec::with_capacity(alloc, lines.len())?;
    for line in lines {
        copies.push(Vec::from_slice(alloc, line)?)?;
    }
    Ok(copies)
}

/// How many fields a picture has, if none has decimals.
pub fn fields_in(alloc: Global, lines: &[Vec<u8>]) -> Result<Option<usize>, AllocError>
    ensures { IfOk result (λ fields. fields ≡ spec.fields_in (map (λ l. l.items) lines.now)) }
{
    let copies = copied_lines(alloc, lines)?;
    match Picture::new(alloc, copies) {
        Ok(picture) => Ok(Some(picture.fields())),
        Err(PictureFault::Memory) => Err(AllocError),
        Err(PictureFault::DecimalField) => Ok(None),
    }
}

/// Appends the text about values and fields.
pub fn push_picture_text(
    text: &mut Vec<u8>,
    values: usize,
    fields: Option<usize>,
) -> Result<(), AllocError>
    ensures { OnOk result (text.new.items ≡ text.old.items ++ spec.picture_text values fields) }
{
    match fields {
        Some(fields) => push_counts(text, values, fields),
        None => text.extend_from_slice(
            b"A field of the picture has decimals: a stop is between two asterisks.\n",
        ),
    }
}

/// Appends counts of values and of fields.
fn push_counts(text: &mut Vec<u8>, values: usize, fields: usize) -> Result<(), AllocError>
    ensures { OnOk result (text.new.items
        ≡ text.old.items ++ spec.picture_text values (Some fields)) }
{
    push_number(text, b"Values: ", values, b". ")?;
    push_number(text, b"Fields of the picture: ", fields, b".\n")
}

ghost use Rattle.std.specs.Prelude.{Some};
