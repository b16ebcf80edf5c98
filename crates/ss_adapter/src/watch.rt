//! The questions that are data break points.
ghost use Rattle.std.specs.Prelude.{◌≡◌, [], option_map, IfOk, OnOk};
ghost use Rattle.ss_adapter.specs.Looking.{asked_of, question_fault};
ghost use Rattle.ss_adapter.specs.Watch.{with_watched, watching_of, IsWatching, info_by, info_of};

use crate::breaks::{UNHEEDED, push_unset};
use crate::desk::MOST_WATCHED;
use crate::looking::{asked, question_fault};
use crate::shown::asked_text;
use ss_messages::{Text, info_body, no_info_body, watched_item};
use ss_program::Program;
use ss_scopes::group_of;
use std::alloc::{AllocError, Global};

/// Why a text is no question on a program, if it is none.
fn text_fault(
    alloc: Global,
    program: &Program,
    text: &[u8],
) -> Result<Option<&'static [u8]>, AllocError>
    ensures { IfOk result (λ fault. option_map (λ reason. reason.now) fault
        ≡ question_fault (asked_of program.now text.now)) }
{
    let asked = asked(alloc, program, text)?;
    Ok(question_fault(&asked))
}

/// Sets a data break point that a request names, if it is to stop each time, or appends why not.
#[tactic(auto, unfolding(crate::specs::Watch::with_watched))]
fn watch_one(
    alloc: Global,
    program: &Program,
    watched: &mut Vec<Text>,
    text: &mut Vec<u8>,
    id: &Option<Text>,
) -> Result<(), AllocError>
    ensures { OnOk result (IsWatching watched.new.items text.new.items (with_watched program.now
        (record { watched = watched.old.items; text = text.old.items }) id.now)) }
{
    let Some(id) = id else {
        return push_unset(alloc, text, UNHEEDED);
    };
    if let Some(reason) = text_fault(alloc, program, id.as_slice())? {
        return push_unset(alloc, text, reason);
    }
    if watched.len() >= MOST_WATCHED {
        return push_unset(alloc, text, b"too many data break points");
    }
    let item = watched_item(alloc, watched.len() as u64 + 1)?;
    watched.push(Text::of(alloc, id.as_slice())?)?;
    text.extend_from_slice(&item)
}

/// Sets the data break points of a request in place of those of an earlier one, and appends the
/// item of the reply for each that the request names.
pub fn watch(
    alloc: Global,
    program: &Program,
    watched: &mut Vec<Text>,
    text: &mut Vec<u8>,
    ids: &[Option<Text>],
) -> Result<(), AllocError>
    requires { text.old.items ≡ [] }
    ensures { OnOk result (IsWatching watched.new.items text.new.items
        (watching_of program.now ids.now)) }
{
    watched.clear();
    for id in ids {
        watch_one(alloc, program, watched, text, id)?;
    }
    Ok(())
}

/// Whether a text may be a data break point.
fn info_by(alloc: Global, program: &Program, text: &[u8]) -> Result<Vec<u8>, AllocError>
    ensures { IfOk result (λ body. body.items ≡ info_by program.now text.now) }
{
    match text_fault(alloc, program, text)? {
        None => info_body(alloc, text),
        Some(reason) => no_info_body(alloc, reason),
    }
}

/// Whether a name in a reference may be a data break point; without a reference it is an
/// expression.
pub fn info(
    alloc: Global,
    program: &Program,
    reference: u64,
    name: &[u8],
) -> Result<Vec<u8>, AllocError>
    ensures { IfOk result (λ body. body.items ≡ info_of program.now reference name.now) }
{
    if reference == 0 {
        return info_by(alloc, program, name);
    }
    let text = asked_text(alloc, program, name, group_of(reference))?;
    info_by(alloc, program, &text)
}
