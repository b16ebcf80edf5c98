//! Dialogues one after the other: RELOAD ends one, and the next goes on at the same place.
ghost use Rattle.std.specs.Prelude.{◌≡◌, ◌-◌, ◌^◌, ◌<◌};
ghost use Rattle.ssdb.specs.Failures.{faults_after_end};

use crate::end::{Held, PromptEnd, PromptFault};
use crate::opening::open_prompt;
use crate::scripts::ScriptConsole;
use crate::words::Words;
use ss_console::{Console, Cut};
use ss_host::{Stop, read_file, read_or};

/// The bytes of the files of a model and of its data.
#[derive(Drop)]
pub struct Files {
    /// The model.
    pub model: Vec<u8>,
    /// The data.
    pub data: Vec<u8>,
}

/// Reads the files that the words name.
pub fn read_files<'a>(rt: &HostRuntime, words: &Words<'a>) -> Result<Files, Stop<'a>> {
    let model = read_file(rt, words.model)?;
    let data = read_or(rt, words.data, b"")?;
    Ok(Files { model, data })
}

/// Reads the sources again; if that cannot be, says so and gives none.
fn reread<C: Console + Drop>(
    rt: &HostRuntime,
    words: &Words<'_>,
    console: &mut ScriptConsole<'_, C>,
) -> Option<Files>
    ensures { console.new.typed ≡ console.old.typed }
{
    match read_files(rt, words) {
        Ok(sources) => Some(sources),
        Err(Stop::CannotRead(path, _)) => {
            console.say(b"CANNOT READ ", path.as_bytes());
            None
        }
        Err(_) => {
            console.say(b"OUT OF MEMORY", b"");
            None
        }
    }
}

/// Lets the lines come next that lead to the place of the last dialogue; if there are none, says
/// so.
fn resume<C: Console + Drop>(console: &mut ScriptConsole<'_, C>, lines: Option<Vec<u8>>)
    ensures { console.new.typed ≡ console.old.typed }
{
    let is_next = match lines {
        Some(lines) => console.read_first(lines).is_ok(),
        None => false,
    };
    if !is_next {
        console.say(b"OUT OF MEMORY", b"");
    }
}

/// Holds a dialogue over the sources, and after each RELOAD one over those that are then in the
/// files. If these cannot be read, or the model is refused, it goes on over the old ones.
pub fn hold_dialogues<C: Console + Drop>(
    rt: &HostRuntime,
    words: &Words<'_>,
    sources: Files,
    console: &mut ScriptConsole<'_, C>,
) -> Result<PromptEnd, PromptFault>
    requires reads { (C.faults console.old.typed).reads < 2 ^ 64 - 1 }
    requires puts { (C.faults console.old.typed).puts < 2 ^ 64 - 1 }

    // It is cut short by exactly the one call that failed.
    ensures faults { C.faults console.new.typed
        ≡ faults_after_end result (C.faults console.old.typed) }
{
    let mut present = sources;
    let mut spare: Option<Files> = None;
    for _ in 0..u64::MAX {
        match open_prompt(rt.alloc(), &present.model, &present.data, console) {
            Ok(Held { end, resume: lines }) => {
                if !console.takes_reload() {
                    return Ok(end);
                }
                resume(console, lines);
                spare = None;
                if let Some(sources) = reread(rt, words, console) {
                    spare = Some(present);
                    present = sources;
                }
            }
            Err(PromptFault::Cut(cut)) => return Err(PromptFault::Cut(cut)),
            Err(fault) => {
                let Some(sources) = spare.take() else {
                    return Err(fault);
                };
                if fault == PromptFault::Memory {
                    console.say(b"OUT OF MEMORY", b"");
                }
                present = sources;
            }
        }
    }
    Err(PromptFault::Cut(Cut::Count))
}
