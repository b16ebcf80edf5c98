//! Pictures that are refused, and calls on a report that are refused.
use crate::compare::same;
use ss_report::{Picture, PictureFault, Report};
use ss_words::{RunFault, StepFault};
use std::alloc::{AllocError, Global};
use std::process::Abort;

/// Puts the lines that are between the bars of a text.
fn put_lines(alloc: Global, lines: &mut Vec<Vec<u8>>, text: &[u8]) -> Result<(), AllocError> {
    for line in text.split(|b| *b == b'|') {
        lines.push(Vec::from_slice(alloc, line)?)?;
    }
    Ok(())
}

/// The picture with the lines that are between the bars of a text.
fn picture(alloc: Global, text: &[u8]) -> Result<Picture, PictureFault> {
    let mut lines = Vec::new(alloc);
    match put_lines(alloc, &mut lines, text) {
        Ok(()) => Picture::new(alloc, lines),
        Err(_) => {
            drop(lines);
            Err(PictureFault::Memory)
        }
    }
}

fn is_refused(alloc: Global, text: &[u8]) -> bool {
    matches!(picture(alloc, text), Err(PictureFault::DecimalField))
}

// Texts that are no decimal field, and the places of values in their fields, are cases of the
// program `cases`.
#[test]
fn a_decimal_field_is_refused(rt: HostRuntime) {
    for text in b"*.*;**.**;A|B *.*.;..*.*".split(|byte| *byte == b';') {
        assert!(rt; is_refused(rt.alloc(), text));
    }
}

// The proofs of the functions below take no number of lines apart.
fn skip(report: &mut Report, lines: usize) -> Result<(), StepFault> {
    report.skip(lines)
}

/// Prints a picture that has a field for each value.
fn print(
    rt: &impl Abort,
    report: &mut Report,
    picture: &Picture,
    values: &[i64],
) -> Result<(), StepFault> {
    assert!(rt; picture.fields() == values.len());
    report.print(picture, values)
}

/// Prints 7 in a field of three, or is refused memory; gives the bytes that the report then has.
fn print_seven(rt: &impl Abort, report: &mut Report, picture: &Picture) -> &'static [u8] {
    match print(rt, report, picture, &[7]) {
        Ok(()) => b"  7\n",
        Err(fault) => {
            same(rt, fault, StepFault::Memory);
            b""
        }
    }
}

/// A report that refuses to skip this number of lines, for this reason, has these bytes.
fn refuses(rt: &impl Abort, report: &mut Report, lines: usize, reason: StepFault, bytes: &[u8]) {
    if let Err(fault) = skip(report, lines) {
        same(rt, fault, reason);
        same(rt, report.bytes(), bytes);
    }
}

/// Appends to an empty report; if memory is refused, or the limit would be passed, it stays as it
/// was.
fn append(rt: &impl Abort, report: &mut Report, picture: &Picture) {
    let bytes = print_seven(rt, report, picture);
    same(rt, report.bytes(), bytes);
    let full = StepFault::Fault(RunFault::ReportFull);
    refuses(rt, report, 16_777_217, full, bytes);
    same(rt, report.bytes(), bytes);
    refuses(rt, report, 1000, StepFault::Memory, bytes);
}

// tests/growths runs this with each of its growths refused in turn.
#[test]
fn a_refused_growth_leaves_the_report(rt: HostRuntime) {
    if let Ok(picture) = picture(rt.alloc(), b"***") {
        let mut report = Report::new(rt.alloc());
        append(&rt, &mut report, &picture);
        drop(report);
        drop(picture);
    }
}
