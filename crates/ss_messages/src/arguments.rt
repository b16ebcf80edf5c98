//! The arguments of a request.
ghost use Rattle.std.specs.Prelude.{◌≡◌, map, IfOk, option_map};
ghost use Rattle.serde_json.specs.View.{view};
ghost use Rattle.std.specs.Prelude.{[], unwrap_or};
ghost use Rattle.ss_messages.specs.Requests.{number_at, number_in, text_at, flag_at, is_text_at, texts_at};
ghost use Rattle.ss_messages.specs.Requests.{is_simple, is_plain, plain_text, line_point_of, line_points_at};
ghost use Rattle.ss_messages.specs.Requests.{is_debugged, stops_of, launch_of, evaluate_of, info_of};
ghost use Rattle.ss_messages.specs.Requests.{completions_of, filter_of, path_at, wanted_of};
ghost use Rattle.ss_messages.specs.Requests.{targets_of, goto_of, counting_of};
ghost use Rattle.ss_messages.specs.declared.request.Command.TheVariants.{SetBreakpoints};

use crate::counting::Counting;
use crate::missing::Argument;
use crate::parts::{LinePoint, LinePoints, Text, Texts};
use crate::request::{Command, Filter, Stops, Wanted};
use serde_json::Value;
use std::alloc::{AllocError, Global};

/// The number at a key, if there is one.
pub fn number_in(value: &Value, key: &'static str) -> Option<u64>
    ensures { result ≡ number_in key.now (view value.now) }
{
    value.get(key).and_then(Value::as_u64)
}

/// The number at a key, or 0.
pub fn number_at(value: &Value, key: &'static str) -> u64
    ensures { result ≡ number_at key.now (view value.now) }
{
    number_in(value, key).unwrap_or(0)
}

/// The text at a key, if there is one.
pub fn text_at<'a>(value: &'a Value, key: &'static str) -> Option<&'a str>
    ensures { option_map (λ text. text.now) result ≡ text_at key.now (view value.now) }
{
    value.get(key).and_then(Value::as_str)
}

/// The flag at a key, or this one.
fn flag_at(value: &Value, key: &'static str, other: bool) -> bool
    ensures { result ≡ flag_at key.now other (view value.now) }
{
    value.get(key).and_then(Value::as_bool).unwrap_or(other)
}

/// Whether the value at a key is this text; a missing text is empty.
pub fn is_text_at(value: &Value, key: &'static str, text: &'static [u8]) -> bool
    ensures { result ≡ is_text_at key.now text.now (view value.now) }
{
    text_at(value, key).unwrap_or("").as_bytes() == text
}

/// The text at a key, in memory of its own.
fn own_text(alloc: Global, value: &Value, key: &'static str) -> Result<Option<Text>, AllocError>
    ensures { IfOk result (λ text. text ≡ text_at key.now (view value.now)) }
{
    match text_at(value, key) {
        Some(text) => Ok(Some(Text::of(alloc, text.as_bytes())?)),
        None => Ok(None),
    }
}

/// Whether a run is debugged, as it is unless it is said that it is not.
fn is_debugged(arguments: &Value) -> bool
    ensures { result ≡ is_debugged (view arguments.now) }
{
    !flag_at(arguments, "noDebug", false)
}

/// The stops of a run. A run that is debugged stops at break points. It stops at its end unless the
/// request says that it does not.
fn stops_of(arguments: &Value) -> Stops
    ensures { result ≡ stops_of (view arguments.now) }
{
    let is_debugged = is_debugged(arguments);
    Stops {
        at_start: is_debugged && flag_at(arguments, "stopOnEntry", false),
        at_points: is_debugged,
        at_end: is_debugged && flag_at(arguments, "stopAtEnd", true),
    }
}

/// launch, which needs a model.
pub fn launch(alloc: Global, arguments: &Value) -> Result<Command, AllocError>
    ensures { IfOk result (λ command. command ≡ launch_of (view arguments.now)) }
{
    let Some(model) = own_text(alloc, arguments, "model")? else {
        return Ok(Command::Missing(Argument::Model));
    };
    let data = own_text(alloc, arguments, "data")?;
    Ok(Command::Launch(model, data, stops_of(arguments)))
}

/// evaluate, which needs an expression.
pub fn evaluate(alloc: Global, arguments: &Value) -> Result<Command, AllocError>
    ensures { IfOk result (λ command. command ≡ evaluate_of (view arguments.now)) }
{
    let Some(text) = own_text(alloc, arguments, "expression")? else {
        return Ok(Command::Missing(Argument::Expression));
    };
    if is_text_at(arguments, "context", b"repl") {
        return Ok(Command::Obey(text));
    }
    Ok(Command::Ask(text))
}

/// dataBreakpointInfo, which needs a name.
pub fn info(alloc: Global, arguments: &Value) -> Result<Command, AllocError>
    ensures { IfOk result (λ command. command ≡ info_of (view arguments.now)) }
{
    let Some(name) = own_text(alloc, arguments, "name")? else {
        return Ok(Command::Missing(Argument::Name));
    };
    Ok(Command::DataBreakpointInfo(number_at(arguments, "variablesReference"), name))
}

/// completions, which needs a text and a column.
pub fn completions(alloc: Global, arguments: &Value) -> Result<Command, AllocError>
    ensures { IfOk result (λ command. command ≡ completions_of (view arguments.now)) }
{
    let Some(text) = own_text(alloc, arguments, "text")? else {
        return Ok(Command::Missing(Argument::Typed));
    };
    match number_in(arguments, "column") {
        Some(column) => Ok(Command::Completions(text, column)),
        None => Ok(Command::Missing(Argument::Column)),
    }
}

/// gotoTargets, which needs a line.
pub fn targets(alloc: Global, arguments: &Value) -> Result<Command, AllocError>
    ensures { IfOk result (λ command. command ≡ targets_of (view arguments.now)) }
{
    let path = path_at(alloc, arguments)?;
    match number_in(arguments, "line") {
        Some(line) => Ok(Command::GotoTargets(path, line)),
        None => Ok(Command::Missing(Argument::Line)),
    }
}

/// goto, which needs a target.
pub fn goto(arguments: &Value) -> Command
    ensures { result ≡ goto_of (view arguments.now) }
{
    match number_in(arguments, "targetId") {
        Some(target) => Command::Goto(target),
        None => Command::Missing(Argument::Target),
    }
}

/// From which numbers an editor counts, as initialize says.
pub fn counting(arguments: &Value) -> Counting
    ensures { result ≡ counting_of (view arguments.now) }
{
    Counting {
        lines_from_one: flag_at(arguments, "linesStartAt1", true),
        columns_from_one: flag_at(arguments, "columnsStartAt1", true),
    }
}

/// Which variables of a reference are wanted.
fn filter_of(arguments: &Value) -> Filter
    ensures { result ≡ filter_of (view arguments.now) }
{
    if is_text_at(arguments, "filter", b"named") {
        return Filter::Named;
    }
    if is_text_at(arguments, "filter", b"indexed") {
        return Filter::Indexed;
    }
    Filter::All
}

/// The variables that are wanted.
pub fn wanted(arguments: &Value) -> Wanted
    ensures { result ≡ wanted_of (view arguments.now) }
{
    Wanted {
        reference: number_at(arguments, "variablesReference"),
        start: number_at(arguments, "start"),
        count: number_at(arguments, "count"),
        filter: filter_of(arguments),
    }
}

/// The text at a key; it is empty if there is none.
fn text_or_none(alloc: Global, value: &Value, key: &'static str) -> Result<Text, AllocError>
    ensures { IfOk result (λ text. text ≡ unwrap_or (text_at key.now (view value.now)) []) }
{
    Text::of(alloc, text_at(value, key).unwrap_or("").as_bytes())
}

/// Whether a break point has no count of hits, and no message in place of a stop.
fn is_simple(point: &Value) -> bool
    ensures { result ≡ is_simple (view point.now) }
{
    is_text_at(point, "hitCondition", b"") && is_text_at(point, "logMessage", b"")
}

/// Whether a break point stops each time: it has no condition either.
fn is_plain(point: &Value) -> bool
    ensures { result ≡ is_plain (view point.now) }
{
    is_text_at(point, "condition", b"") && is_simple(point)
}

/// The text at a key of a break point that stops each time; it is empty if the break point has
/// none.
fn plain_text(alloc: Global, point: &Value, key: &'static str) -> Result<Option<Text>, AllocError>
    ensures { IfOk result (λ text. text ≡ plain_text key.now (view point.now)) }
{
    if is_plain(point) {
        return Ok(Some(text_or_none(alloc, point, key)?));
    }
    Ok(None)
}

/// The texts at a key of some break points.
fn texts_of(
    alloc: Global,
    points: &[Value],
    key: &'static str,
) -> Result<Vec<Option<Text>>, AllocError>
    ensures { IfOk result (λ texts. texts.items
        ≡ map (λ point. plain_text key.now (view point)) points.now) }
{
    let mut texts = Vec::new(alloc);
    for point in points {
        texts.push(plain_text(alloc, point, key)?)?;
    }
    Ok(texts)
}

/// The texts at a key of the break points of a request.
#[tactic(auto, using(crate::proofs::Points::texts_are))]
pub fn texts_at(alloc: Global, arguments: &Value, key: &'static str) -> Result<Texts, AllocError>
    ensures { IfOk result (λ texts. texts ≡ texts_at key.now (view arguments.now)) }
{
    match arguments.get("breakpoints").and_then(Value::as_array) {
        Some(points) => Ok(Texts::of(texts_of(alloc, points, key)?)),
        None => Ok(Texts::of(Vec::new(alloc))),
    }
}

/// A break point on a line.
fn line_point_of(alloc: Global, point: &Value) -> Result<LinePoint, AllocError>
    ensures { IfOk result (λ found. found ≡ line_point_of (view point.now)) }
{
    Ok(LinePoint {
        line: number_at(point, "line"),
        condition: text_or_none(alloc, point, "condition")?,
        is_simple: is_simple(point),
    })
}

/// Some break points on lines.
fn line_points_of(alloc: Global, points: &[Value]) -> Result<Vec<LinePoint>, AllocError>
    ensures { IfOk result (λ found. found.items
        ≡ map (λ point. line_point_of (view point)) points.now) }
{
    let mut found = Vec::new(alloc);
    for point in points {
        found.push(line_point_of(alloc, point)?)?;
    }
    Ok(found)
}

/// The break points of a request that are on lines.
#[tactic(auto, using(crate::proofs::Points::line_points_are))]
fn line_points_at(alloc: Global, arguments: &Value) -> Result<LinePoints, AllocError>
    ensures { IfOk result (λ points. points ≡ line_points_at (view arguments.now)) }
{
    match arguments.get("breakpoints").and_then(Value::as_array) {
        Some(points) => Ok(LinePoints::of(line_points_of(alloc, points)?)),
        None => Ok(LinePoints::of(Vec::new(alloc))),
    }
}

/// The path of the source that a request speaks of, in memory of its own.
fn path_at(alloc: Global, arguments: &Value) -> Result<Option<Text>, AllocError>
    ensures { IfOk result (λ path. path ≡ path_at (view arguments.now)) }
{
    match arguments.get("source") {
        Some(source) => own_text(alloc, source, "path"),
        None => Ok(None),
    }
}

/// setBreakpoints: the break points on lines of a source.
pub fn breakpoints(alloc: Global, arguments: &Value) -> Result<Command, AllocError>
    ensures { IfOk result (λ command. command
        ≡ SetBreakpoints (path_at (view arguments.now)) (line_points_at (view arguments.now))) }
{
    let path = path_at(alloc, arguments)?;
    let points = line_points_at(alloc, arguments)?;
    Ok(Command::SetBreakpoints(path, points))
}
