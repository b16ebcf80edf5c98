//! The report of a run: the bytes that PRINT and SKIP have appended, and their limit.
ghost use Rattle.std.specs.Prelude.{◌≡◌, ◌+◌, ◌<◌, ◌≤◌, ◌↔◌, ◌⊎◌, ◌++◌, [], length, take, replicate, OnOk, OnErr};
ghost use Rattle.std.specs.Prelude.{IfErr, vec_len, vec_capacity};
ghost use Rattle.ss_words.specs.declared.characters.TheConstants.{LINE_FEED};
ghost use Rattle.ss_report.specs.Pictures.{field_count, picture_text};
ghost use Rattle.ss_report.specs.declared.limits.TheConstants.{LONGEST_REPORT};

use crate::append::append_times;
use crate::limits::LONGEST_REPORT;
use crate::picture::Picture;
use ss_words::characters::LINE_FEED;
use ss_words::{RunFault, StepFault};
use std::alloc::Global;
use std::marker::Model;

/// The bytes that a run has printed, of which there are at most `LONGEST_REPORT`. Contracts see the
/// list of them.
#[derive(Debug, Drop)]
pub struct Report {
    bytes: Vec<u8>,
}

impl Model for Report {
    ghost use Rattle.std.specs.Prelude.{ℕ, List, length, ◌≤◌};
    ghost use Rattle.ss_report.specs.declared.limits.TheConstants.{LONGEST_REPORT};

    ghost Value = { List ℕ };

    ghost view = { λ a. a.bytes.items };

    ghost invariant = { λ a. length a.bytes.items ≤ LONGEST_REPORT };
}

impl Report {
    /// A report without bytes. It takes no memory before something is printed.
    pub fn new(alloc: Global) -> Self
        ensures { result ≡ [] }
    {
        Report {
            bytes: Vec::new(alloc),
        }
    }

    /// How many bytes were printed.
    pub fn len(&self) -> usize
        ensures value { result ≡ length self.now }
        ensures within_limit { length self.now ≤ LONGEST_REPORT }
    {
        self.bytes.len()
    }

    /// The bytes printed.
    pub fn bytes(&self) -> &[u8]
        ensures { result.now ≡ self.now }
    {
        self.bytes.as_slice()
    }

    /// Keeps the first `len` bytes, which takes no memory.
    pub fn cut(&mut self, len: usize)
        requires { len ≤ length self.old }
        ensures { self.new ≡ take len self.old }
    {
        self.bytes.truncate(len);
    }

    /// Appends a picture with these values, one a field (docs/LANGUAGE.md, "PRINT and SKIP").
    ///
    /// `ReportFull` (F19) if the report would have more than `LONGEST_REPORT` bytes, `Memory` if
    /// the room was refused. Either leaves the report as it was.
    pub fn print(&mut self, picture: &Picture, values: &[i64]) -> Result<(), StepFault>
        requires { length values.now ≡ field_count picture.now }
        ensures ok { OnOk result (self.new ≡ self.old ++ picture_text picture.now values.now) }
        ensures err { OnErr result (self.new ≡ self.old) }
        ensures full { (result ≡ Err (StepFault.Fault RunFault.ReportFull))
            ↔ (LONGEST_REPORT < length self.old + length (picture_text picture.now values.now)) }
        ensures faults { IfErr result
            (λ e. (e ≡ StepFault.Fault RunFault.ReportFull) ⊎ (e ≡ StepFault.Memory)) }
    {
        reserve(&mut self.bytes, picture.text_len())?;
        picture.write(&mut self.bytes, values);
        Ok(())
    }

    /// Appends `lines` line feeds (docs/LANGUAGE.md, "PRINT and SKIP").
    ///
    /// `ReportFull` (F19) if the report would have more than `LONGEST_REPORT` bytes, `Memory` if
    /// the room was refused. Either leaves the report as it was.
    pub fn skip(&mut self, lines: usize) -> Result<(), StepFault>
        ensures ok { OnOk result (self.new ≡ self.old ++ replicate lines LINE_FEED) }
        ensures err { OnErr result (self.new ≡ self.old) }
        ensures full { (result ≡ Err (StepFault.Fault RunFault.ReportFull))
            ↔ (LONGEST_REPORT < length self.old + lines) }
        ensures faults { IfErr result
            (λ e. (e ≡ StepFault.Fault RunFault.ReportFull) ⊎ (e ≡ StepFault.Memory)) }
    {
        reserve(&mut self.bytes, lines)?;
        append_times(&mut self.bytes, LINE_FEED, lines);
        Ok(())
    }
}

/// Makes room for `added` more bytes of a report, in doubling over many calls. After an error its
/// bytes are as before.
fn reserve(bytes: &mut Vec<u8>, added: usize) -> Result<(), StepFault>
    requires { vec_len bytes.old ≤ LONGEST_REPORT }
    ensures items { bytes.new.items ≡ bytes.old.items }
    ensures room { OnOk result (vec_len bytes.new + added ≤ vec_capacity bytes.new) }
    ensures full { (result ≡ Err (StepFault.Fault RunFault.ReportFull))
        ↔ (LONGEST_REPORT < vec_len bytes.old + added) }
    ensures faults { IfErr result
        (λ e. (e ≡ StepFault.Fault RunFault.ReportFull) ⊎ (e ≡ StepFault.Memory)) }
{
    if added > LONGEST_REPORT - bytes.len() {
        return Err(StepFault::Fault(RunFault::ReportFull));
    }
    bytes.try_reserve(added)?;
    Ok(())
}
