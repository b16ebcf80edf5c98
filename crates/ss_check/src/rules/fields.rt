//! Counting the fields of a picture.

ghost use Rattle.std.specs.Prelude.{◌≡◌, ◌==◌, ◌≤◌, count_by, length, map};
ghost use Rattle.ss_report.specs.Pictures as pictures;

/// The byte of which fields of a picture are made.
const ASTERISK: u8 = b'*';

/// Whether the lines of a picture have this number of fields.
#[tactic(auto, using(crate::proofs::Runs::lines_turn, crate::proofs::Runs::lines_end))]
pub(crate) fn has_field_count(lines: &[Vec<u8>], wanted: usize) -> bool
    ensures { result ≡ (wanted == pictures.field_count (map (λ l. l.items) lines.now)) }
{
    let mut missing = wanted;
    for line in lines {
        let count = line_field_count(line);
        if count > missing {
            return false;
        }
        missing -= count;
    }
    missing == 0
}

/// How many fields a line has: runs of asterisks.
#[tactic(auto, using(crate::proofs::Runs::line_runs, crate::proofs::Runs::runs_turn, crate::proofs::Runs::runs_end))]
fn line_field_count(line: &[u8]) -> usize
    ensures value { result ≡ count_by pictures.is_field (pictures.line_parts line.now) }
    ensures within { result ≤ length line.now }
{
    let mut count = 0;
    let mut in_field = false;
    for byte in line {
        let is_asterisk = *byte == ASTERISK;
        count += usize::from(is_asterisk & !in_field);
        in_field = is_asterisk;
    }
    count
}

/// Whether a stop is directly between two asterisks of a line.
pub(crate) fn has_decimal_field(lines: &[Vec<u8>]) -> bool
    ensures { result ≡ pictures.has_decimal_field (map (λ l. l.items) lines.now) }
{
    for line in lines {
        if has_decimal(line) {
            return true;
        }
    }
    false
}

/// Whether a stop is directly between two asterisks.
fn has_decimal(line: &[u8]) -> bool
    ensures { result ≡ pictures.has_decimal line.now }
{
    let mut rest = line;
    while let Some((_, behind)) = rest.split_first() {
        if rest.starts_with(b"*.*") {
            return true;
        }
        rest = behind;
    }
    false
}
