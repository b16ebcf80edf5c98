//! Values that did not fit their fields.
ghost use Rattle.std.specs.Prelude.{◌≡◌, ◌<◌, length};
ghost use Rattle.ss_run.specs.Fields.{begins_run, unfit_values, unfit_words};

/// Whether a run of asterisks begins at this place.
fn begins_run(text: &[u8], k: usize) -> bool
    requires { k < length text.now }
    ensures { result ≡ begins_run text.now k }
{
    text[k] == b'*' && !(0 < k && text[k - 1] == b'*')
}

/// The number of values of a report that did not fit their fields: the number of runs of asterisks
/// in it, since a picture has no asterisk of its own (docs/LANGUAGE.md, "PRINT and SKIP").
#[tactic(auto, using(crate::proofs::Counts::counted_more), unfolding(crate::specs::Fields::unfit_values))]
pub fn unfit_values(report: &[u8]) -> usize
    ensures { result ≡ unfit_values report.now }
{
    let mut count = 0;
    for k in 0..report.len() {
        if begins_run(report, k) {
            count += 1;
        }
    }
    count
}

/// The words after the number of the values that did not fit their fields.
pub fn unfit_words(unfit: usize) -> &'static str
    ensures { result.now ≡ unfit_words unfit }
{
    if unfit == 1 {
        return " VALUE DID NOT FIT ITS FIELD";
    }
    " VALUES DID NOT FIT THEIR FIELDS"
}
