//! The parts of a state that an editor shows: frames, scopes, variables that are many, and break
//! points.
ghost use Rattle.std.specs.Prelude.{◌≡◌, IfOk};
ghost use Rattle.ss_messages.specs.Shown.{paged_item, frames_body, scope_item, target_item, info_body, no_info_body};
ghost use Rattle.ss_messages.specs.Shown.{bool_text, point_text, new_point_body, removed_point_body};

use crate::bodies::without_first;
use crate::escape::push_quoted;
use crate::messages::push_number;
use crate::sources::{Source, source_text};
use std::alloc::{AllocError, Global};

/// A comma and a variable that refers to `count` others, which are requested a page at a time.
#[tactic(auto, unfolding(crate::specs::Shown::paged_item))]
pub fn paged_item(
    alloc: Global,
    name: &[u8],
    value: &[u8],
    reference: u64,
    count: u64,
) -> Result<Vec<u8>, AllocError>
    ensures { IfOk result (λ item. item.items ≡ paged_item name.now value.now reference count) }
{
    let mut item = Vec::from_slice(alloc, b",{\"name\":")?;
    push_quoted(&mut item, name)?;
    item.extend_from_slice(b",\"value\":")?;
    push_quoted(&mut item, value)?;
    item.extend_from_slice(b",\"variablesReference\":")?;
    push_number(&mut item, reference)?;
    item.extend_from_slice(b",\"indexedVariables\":")?;
    push_number(&mut item, count)?;
    item.extend_from_slice(b"}")?;
    Ok(item)
}

/// Some frames, each after a comma, and the total number of frames.
#[tactic(auto, unfolding(crate::specs::Shown::frames_body))]
pub fn frames_body(alloc: Global, items: &[u8], count: u64) -> Result<Vec<u8>, AllocError>
    ensures { IfOk result (λ body. body.items ≡ frames_body items.now count) }
{
    let mut body = Vec::from_slice(alloc, b"{\"stackFrames\":[")?;
    body.extend_from_slice(without_first(items))?;
    body.extend_from_slice(b"],\"totalFrames\":")?;
    push_number(&mut body, count)?;
    body.extend_from_slice(b"}")?;
    Ok(body)
}

/// A comma and a scope, and its reference.
#[tactic(auto, unfolding(crate::specs::Shown::scope_item))]
pub fn scope_item(alloc: Global, name: &[u8], reference: u64) -> Result<Vec<u8>, AllocError>
    ensures { IfOk result (λ item. item.items ≡ scope_item name.now reference) }
{
    let mut item = Vec::from_slice(alloc, b",{\"name\":")?;
    push_quoted(&mut item, name)?;
    item.extend_from_slice(b",\"variablesReference\":")?;
    push_number(&mut item, reference)?;
    item.extend_from_slice(b",\"expensive\":false}")?;
    Ok(item)
}

/// A comma and a word that may be written from a column on, in place of `count` characters.
#[tactic(auto, unfolding(crate::specs::Shown::target_item))]
pub fn target_item(
    alloc: Global,
    word: &[u8],
    start: u64,
    count: u64,
) -> Result<Vec<u8>, AllocError>
    ensures { IfOk result (λ item. item.items ≡ target_item word.now start count) }
{
    let mut item = Vec::from_slice(alloc, b",{\"label\":")?;
    push_quoted(&mut item, word)?;
    item.extend_from_slice(b",\"start\":")?;
    push_number(&mut item, start)?;
    item.extend_from_slice(b",\"length\":")?;
    push_number(&mut item, count)?;
    item.extend_from_slice(b"}")?;
    Ok(item)
}

/// A question that may be a data break point.
#[tactic(auto, unfolding(crate::specs::Shown::info_body))]
pub fn info_body(alloc: Global, text: &[u8]) -> Result<Vec<u8>, AllocError>
    ensures { IfOk result (λ body. body.items ≡ info_body text.now) }
{
    let mut body = Vec::from_slice(alloc, b"{\"dataId\":")?;
    push_quoted(&mut body, text)?;
    body.extend_from_slice(b",\"description\":")?;
    push_quoted(&mut body, text)?;
    body.extend_from_slice(b",\"accessTypes\":[\"write\"]}")?;
    Ok(body)
}

/// That there is none, and why.
#[tactic(auto, unfolding(crate::specs::Shown::no_info_body))]
pub fn no_info_body(alloc: Global, reason: &[u8]) -> Result<Vec<u8>, AllocError>
    ensures { IfOk result (λ body. body.items ≡ no_info_body reason.now) }
{
    let mut body = Vec::from_slice(alloc, b"{\"dataId\":null,\"description\":")?;
    push_quoted(&mut body, reason)?;
    body.extend_from_slice(b"}")?;
    Ok(body)
}

/// A flag, as it is written.
fn bool_text(flag: bool) -> &'static [u8]
    ensures { result.now ≡ bool_text flag }
{
    if flag { b"true" } else { b"false" }
}

/// The break point of this number, of which more may be said.
#[tactic(auto, unfolding(crate::specs::Shown::point_text))]
fn point_text(alloc: Global, id: u64, is_verified: bool) -> Result<Vec<u8>, AllocError>
    ensures { IfOk result (λ text. text.items ≡ point_text id is_verified) }
{
    let mut text = Vec::from_slice(alloc, b"{\"id\":")?;
    push_number(&mut text, id)?;
    text.extend_from_slice(b",\"verified\":")?;
    text.extend_from_slice(bool_text(is_verified))?;
    Ok(text)
}

/// breakpoint: one of this number is new on a line of the model; it is verified if a place is
/// there.
#[tactic(auto, unfolding(crate::specs::Shown::new_point_body))]
pub fn new_point_body(
    alloc: Global,
    id: u64,
    is_verified: bool,
    line: u64,
    source: Source<'_>,
) -> Result<Vec<u8>, AllocError>
    ensures { IfOk result (λ body. body.items
        ≡ new_point_body id is_verified line source.entry.path.now source.entry.counting) }
{
    let point = point_text(alloc, id, is_verified)?;
    let text = source_text(alloc, source.path)?;
    let mut body = Vec::from_slice(alloc, b"{\"reason\":\"new\",\"breakpoint\":")?;
    body.extend_from_slice(&point)?;
    body.extend_from_slice(b",\"line\":")?;
    push_number(&mut body, source.counting.shown_line(line))?;
    body.extend_from_slice(b",\"source\":")?;
    body.extend_from_slice(&text)?;
    body.extend_from_slice(b"}}")?;
    Ok(body)
}

/// breakpoint: the one of this number is set no more.
#[tactic(auto, unfolding(crate::specs::Shown::removed_point_body))]
pub fn removed_point_body(alloc: Global, id: u64) -> Result<Vec<u8>, AllocError>
    ensures { IfOk result (λ body. body.items ≡ removed_point_body id) }
{
    let point = point_text(alloc, id, false)?;
    let mut body = Vec::from_slice(alloc, b"{\"reason\":\"removed\",\"breakpoint\":")?;
    body.extend_from_slice(&point)?;
    body.extend_from_slice(b"}}")?;
    Ok(body)
}
