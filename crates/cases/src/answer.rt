//! The answer of a case, by the way in which its text is read.
use crate::notation::{Repeats, text_of};
use crate::{checked, items, pieces, places, plain, raw, sections};
use ss_words::TextFault;
use std::alloc::{AllocError, Global};

// The output is lent to each function below, and the bytes of a text to those that write it. An
// owner that may end early costs the proof the end of all that it holds.

/// Puts the answer to a noted text that is read in this way.
pub fn put_answer(
    alloc: Global,
    out: &mut Vec<u8>,
    way: &str,
    noted: &str,
) -> Result<(), AllocError> {
    let repeats = match way {
        "EXAMPLE" => Repeats::BehindBlank,
        _ => Repeats::BehindColon,
    };
    let text = text_of(alloc, noted, repeats)?;
    let put = put_given(alloc, out, way, &text);
    drop(text);
    put
}

/// Puts the answer to a text as it is.
fn put_given(alloc: Global, out: &mut Vec<u8>, way: &str, text: &[u8]) -> Result<(), AllocError> {
    match way {
        "EXAMPLE" => put_example(alloc, out, text),
        "BEGINNINGS" => put_beginnings(alloc, out, text),
        "PIECES" => pieces::put_refusals(alloc, out, text),
        "CHECK" => checked::put_outcome(alloc, out, text),
        "LOCAL" => checked::put_local(alloc, out, text),
        "PLACES" => checked::put_places(alloc, out, text),
        _ => {
            let put = put_refusable(alloc, out, way, text);
            or_refusal(alloc, out, put)
        }
    }
}

/// Puts the answer to a text that may be refused; then its answer is given up.
fn put_refusable(
    alloc: Global,
    out: &mut Vec<u8>,
    way: &str,
    text: &[u8],
) -> Result<(), TextFault> {
    match way {
        "LINES" => items::put_lines(alloc, out, text),
        "ITEMS" => items::put_items(alloc, out, text),
        "PROGRAM" => places::put_counts(alloc, out, text),
        "SECTIONS" => sections::put_sections(alloc, out, text),
        "BODY" => sections::put_body(alloc, out, text),
        "SIZES" => sections::put_counts(alloc, out, text),
        _ => put_of_words(alloc, out, way, text),
    }
}

/// Puts the words of a text, or how many there are.
fn put_of_words(alloc: Global, out: &mut Vec<u8>, way: &str, text: &[u8]) -> Result<(), TextFault> {
    match way {
        "WORDS" => raw::put_words(alloc, out, text),
        "COUNT" => raw::put_count(alloc, out, text),
        "PLAIN" => plain::put_words(alloc, out, text),
        "PLACED" => plain::put_placed(alloc, out, text),
        _ => Ok(put_text(out, "no such way")?),
    }
}

/// Puts the rule and the line of a refusal; nothing if there is none.
pub fn or_refusal(
    alloc: Global,
    out: &mut Vec<u8>,
    put: Result<(), TextFault>,
) -> Result<(), AllocError> {
    match put {
        Ok(()) => Ok(()),
        Err(TextFault::Refused { rule, line }) => {
            put_text(out, rule.code())?;
            put_number(alloc, out, line)
        }
        Err(TextFault::Memory) => Err(AllocError),
    }
}

/// Puts the answer of a document to a text: the rule and the line of its refusal, or that there is
/// none.
fn put_example(alloc: Global, out: &mut Vec<u8>, text: &[u8]) -> Result<(), AllocError> {
    match places::counts(alloc, text) {
        Ok(_) => put_text(out, "NO REFUSAL"),
        Err(TextFault::Refused { rule, line }) => {
            put_text(out, rule.code())?;
            put_text(out, " LINE")?;
            put_number(alloc, out, line)
        }
        Err(TextFault::Memory) => Err(AllocError),
    }
}

/// Puts a blank and a number.
pub fn put_number(alloc: Global, out: &mut Vec<u8>, number: usize) -> Result<(), AllocError> {
    put_string(out, format!(in alloc; " {number}"))
}

/// Appends a text to the output.
pub fn put_text(out: &mut Vec<u8>, text: &str) -> Result<(), AllocError> {
    out.extend_from_slice(text.as_bytes())
}

/// Appends a text that is made for the output, and ends with it.
pub fn put_string(out: &mut Vec<u8>, text: Result<String, AllocError>) -> Result<(), AllocError> {
    put_text(out, text?.as_str())
}

/// Puts the answer of `LINES` for each beginning of the text that ends with a line, a comma after
/// each.
fn put_beginnings(alloc: Global, out: &mut Vec<u8>, text: &[u8]) -> Result<(), AllocError> {
    for (index, byte) in text.iter().enumerate() {
        if *byte == b'\n' {
            put_beginning(alloc, out, &text[..index + 1])?;
        }
    }
    Ok(())
}

/// Puts the answer for a beginning, and a comma.
fn put_beginning(alloc: Global, out: &mut Vec<u8>, beginning: &[u8]) -> Result<(), AllocError> {
    let put = items::put_lines(alloc, out, beginning);
    or_refusal(alloc, out, put)?;
    put_text(out, ",")
}
