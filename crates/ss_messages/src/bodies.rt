//! The bodies of replies and events.
ghost use Rattle.std.specs.Prelude.{◌≡◌, drop, IfOk};
ghost use Rattle.ss_messages.specs.Bodies.{stopped_body, output_body, result_body, content_body, exception_body};
ghost use Rattle.ss_messages.specs.Bodies.{sources_body, list_body, variable_item, frame_item, set_item, unset_item};
ghost use Rattle.ss_messages.specs.Bodies.{without_last, hit_at, hit_text, watched_item, state_item};

use crate::counting::Counting;
use crate::escape::push_quoted;
use crate::messages::push_number;
use crate::sources::{Source, source_text};
use std::alloc::{AllocError, Global};

/// A body with no member.
pub const NOTHING: &[u8] = b"{}";

/// A text without the byte at its end.
pub fn without_last(text: &[u8]) -> &[u8]
    ensures { result.now ≡ without_last text.now }
{
    &text[..text.len().saturating_sub(1)]
}

/// The break point of this number as the one at which a run stopped.
#[tactic(auto, unfolding(crate::specs::Bodies::hit_at))]
fn hit_at(alloc: Global, id: u64) -> Result<Vec<u8>, AllocError>
    ensures { IfOk result (λ item. item.items ≡ hit_at id) }
{
    let mut item = Vec::from_slice(alloc, b",\"hitBreakpointIds\":[")?;
    push_number(&mut item, id)?;
    item.extend_from_slice(b"]")?;
    Ok(item)
}

/// The break point by its number at which a run stopped, if it did at one.
#[tactic(auto, unfolding(crate::specs::Bodies::hit_text))]
fn hit_text(alloc: Global, hit: Option<u64>) -> Result<Vec<u8>, AllocError>
    ensures { IfOk result (λ item. item.items ≡ hit_text hit) }
{
    match hit {
        None => Ok(Vec::new(alloc)),
        Some(id) => hit_at(alloc, id),
    }
}

/// stopped: its reason, its description, and the number of the break point, if it was at one.
#[tactic(auto, unfolding(crate::specs::Bodies::stopped_body))]
pub fn stopped_body(
    alloc: Global,
    reason: &[u8],
    text: &[u8],
    hit: Option<u64>,
) -> Result<Vec<u8>, AllocError>
    ensures { IfOk result (λ body. body.items ≡ stopped_body reason.now text.now hit) }
{
    let hit = hit_text(alloc, hit)?;
    let mut body = Vec::from_slice(alloc, b"{\"reason\":\"")?;
    body.extend_from_slice(reason)?;
    body.extend_from_slice(b"\",\"threadId\":1,\"allThreadsStopped\":true,\"description\":")?;
    push_quoted(&mut body, text)?;
    body.extend_from_slice(&hit)?;
    body.extend_from_slice(b"}")?;
    Ok(body)
}

/// output to a stream of this name.
#[tactic(auto, unfolding(crate::specs::Bodies::output_body))]
pub fn output_body(alloc: Global, category: &[u8], text: &[u8]) -> Result<Vec<u8>, AllocError>
    ensures { IfOk result (λ body. body.items ≡ output_body category.now text.now) }
{
    let mut body = Vec::from_slice(alloc, b"{\"category\":\"")?;
    body.extend_from_slice(category)?;
    body.extend_from_slice(b"\",\"output\":")?;
    push_quoted(&mut body, text)?;
    body.extend_from_slice(b"}")?;
    Ok(body)
}

/// The value of an expression, as a text.
#[tactic(auto, unfolding(crate::specs::Bodies::result_body))]
pub fn result_body(alloc: Global, text: &[u8]) -> Result<Vec<u8>, AllocError>
    ensures { IfOk result (λ body. body.items ≡ result_body text.now) }
{
    let mut body = Vec::from_slice(alloc, b"{\"result\":")?;
    push_quoted(&mut body, text)?;
    body.extend_from_slice(b",\"variablesReference\":0}")?;
    Ok(body)
}

/// The content of a source.
#[tactic(auto, unfolding(crate::specs::Bodies::content_body))]
pub fn content_body(alloc: Global, text: &[u8]) -> Result<Vec<u8>, AllocError>
    ensures { IfOk result (λ body. body.items ≡ content_body text.now) }
{
    let mut body = Vec::from_slice(alloc, b"{\"content\":")?;
    push_quoted(&mut body, text)?;
    body.extend_from_slice(b"}")?;
    Ok(body)
}

/// A fault, by its name and its sentence.
#[tactic(auto, unfolding(crate::specs::Bodies::exception_body))]
pub fn exception_body(alloc: Global, name: &[u8], sentence: &[u8]) -> Result<Vec<u8>, AllocError>
    ensures { IfOk result (λ body. body.items ≡ exception_body name.now sentence.now) }
{
    let mut body = Vec::from_slice(alloc, b"{\"exceptionId\":")?;
    push_quoted(&mut body, name)?;
    body.extend_from_slice(b",\"description\":")?;
    push_quoted(&mut body, sentence)?;
    body.extend_from_slice(b",\"breakMode\":\"always\"}")?;
    Ok(body)
}

/// The model, by its path, and the report.
#[tactic(auto, unfolding(crate::specs::Bodies::sources_body))]
pub fn sources_body(alloc: Global, path: &[u8]) -> Result<Vec<u8>, AllocError>
    ensures { IfOk result (λ body. body.items ≡ sources_body path.now) }
{
    let source = source_text(alloc, path)?;
    let mut body = Vec::from_slice(alloc, b"{\"sources\":[")?;
    body.extend_from_slice(&source)?;
    body.extend_from_slice(b",{\"name\":\"report\",\"sourceReference\":1}]}")?;
    Ok(body)
}

/// Items, each after a comma, as the list that is the only member of an object.
#[tactic(auto, unfolding(crate::specs::Bodies::list_body))]
pub fn list_body(alloc: Global, name: &[u8], items: &[u8]) -> Result<Vec<u8>, AllocError>
    ensures { IfOk result (λ body. body.items ≡ list_body name.now items.now) }
{
    let mut body = Vec::from_slice(alloc, b"{\"")?;
    body.extend_from_slice(name)?;
    body.extend_from_slice(b"\":[")?;
    body.extend_from_slice(without_first(items))?;
    body.extend_from_slice(b"]}")?;
    Ok(body)
}

/// Items without the comma before them.
pub(crate) fn without_first(items: &[u8]) -> &[u8]
    ensures { result.now ≡ drop 1 items.now }
{
    if items.is_empty() { items } else { &items[1..] }
}

/// A comma and a variable with its value, and the reference of its variables, or 0.
#[tactic(auto, unfolding(crate::specs::Bodies::variable_item))]
pub fn variable_item(
    alloc: Global,
    name: &[u8],
    value: &[u8],
    reference: u64,
) -> Result<Vec<u8>, AllocError>
    ensures { IfOk result (λ item. item.items ≡ variable_item name.now value.now reference) }
{
    let mut item = Vec::from_slice(alloc, b",{\"name\":")?;
    push_quoted(&mut item, name)?;
    item.extend_from_slice(b",\"value\":")?;
    push_quoted(&mut item, value)?;
    item.extend_from_slice(b",\"variablesReference\":")?;
    push_number(&mut item, reference)?;
    item.extend_from_slice(b"}")?;
    Ok(item)
}

/// A comma and a frame: its number, its section and its line of the model.
#[tactic(auto, unfolding(crate::specs::Bodies::frame_item))]
pub fn frame_item(
    alloc: Global,
    number: u64,
    name: &[u8],
    line: u64,
    source: Source<'_>,
) -> Result<Vec<u8>, AllocError>
    ensures { IfOk result (λ item. item.items
        ≡ frame_item number name.now line source.entry.path.now source.entry.counting) }
{
    let text = source_text(alloc, source.path)?;
    let mut item = Vec::from_slice(alloc, b",{\"id\":")?;
    push_number(&mut item, number)?;
    item.extend_from_slice(b",\"name\":")?;
    push_quoted(&mut item, name)?;
    item.extend_from_slice(b",\"line\":")?;
    push_number(&mut item, source.counting.shown_line(line))?;
    item.extend_from_slice(b",\"column\":")?;
    push_number(&mut item, source.counting.shown_column(1))?;
    item.extend_from_slice(b",\"source\":")?;
    item.extend_from_slice(&text)?;
    item.extend_from_slice(b"}")?;
    Ok(item)
}

/// A comma and a break point of this number that is set on a line of the model.
#[tactic(auto, unfolding(crate::specs::Bodies::set_item))]
pub fn set_item(
    alloc: Global,
    id: u64,
    line: u64,
    counting: Counting,
) -> Result<Vec<u8>, AllocError>
    ensures { IfOk result (λ item. item.items ≡ set_item id line counting) }
{
    let mut item = Vec::from_slice(alloc, b",{\"id\":")?;
    push_number(&mut item, id)?;
    item.extend_from_slice(b",\"verified\":true,\"line\":")?;
    push_number(&mut item, counting.shown_line(line))?;
    item.extend_from_slice(b"}")?;
    Ok(item)
}

/// A comma and a state as a target of goto: its number, its label, and its line, as the editor
/// counts.
#[tactic(auto, unfolding(crate::specs::Bodies::state_item))]
pub fn state_item(alloc: Global, id: u64, label: &[u8], line: u64) -> Result<Vec<u8>, AllocError>
    ensures { IfOk result (λ item. item.items ≡ state_item id label.now line) }
{
    let mut item = Vec::from_slice(alloc, b",{\"id\":")?;
    push_number(&mut item, id)?;
    item.extend_from_slice(b",\"label\":")?;
    push_quoted(&mut item, label)?;
    item.extend_from_slice(b",\"line\":")?;
    push_number(&mut item, line)?;
    item.extend_from_slice(b"}")?;
    Ok(item)
}

/// A comma and a break point that is not set, and why.
#[tactic(auto, unfolding(crate::specs::Bodies::unset_item))]
pub fn unset_item(alloc: Global, reason: &[u8]) -> Result<Vec<u8>, AllocError>
    ensures { IfOk result (λ item. item.items ≡ unset_item reason.now) }
{
    let mut item = Vec::from_slice(alloc, b",{\"verified\":false,\"message\":")?;
    push_quoted(&mut item, reason)?;
    item.extend_from_slice(b"}")?;
    Ok(item)
}

/// A comma and a data break point of this number that is set.
#[tactic(auto, unfolding(crate::specs::Bodies::watched_item))]
pub fn watched_item(alloc: Global, id: u64) -> Result<Vec<u8>, AllocError>
    ensures { IfOk result (λ item. item.items ≡ watched_item id) }
{
    let mut item = Vec::from_slice(alloc, b",{\"id\":")?;
    push_number(&mut item, id)?;
    item.extend_from_slice(b",\"verified\":true}")?;
    Ok(item)
}
