//! The command that a message asks for.
ghost use Rattle.std.specs.Prelude.{◌≡◌, ◌⊎◌, Err, IfOk, Some, None, option_and_then};
ghost use Rattle.std.specs.Str.{IsUtf8};
ghost use Rattle.serde_json.specs.Read.{read};
ghost use Rattle.serde_json.specs.View.{view};
ghost use Rattle.ss_messages.specs.Requests.{command_of, session_command, points_command, looking_command};
ghost use Rattle.ss_messages.specs.Requests.{request_of};
ghost use Rattle.ss_messages.specs.declared.request.RequestFault.TheVariants.{NoRequest};

use crate::arguments::{
    breakpoints, completions, counting, evaluate, goto, info, is_text_at, launch, number_at,
    number_in, targets, text_at, texts_at, wanted,
};
use crate::counting::Counting;
use crate::missing::Argument;
use crate::parts::{LinePoints, Text, Texts};
use serde_json::Value;
use std::alloc::{AllocError, Global};
use std::str;
use thiserror::Error;

/// Which variables of a reference a request wants.
#[derive(Clone, Copy, Debug, PartialEq, Eq)]
pub enum Filter {
    /// All.
    All,
    /// Those that have names.
    Named,
    /// Those that have numbers.
    Indexed,
}

/// The variables that a request wants: `count` of those of a reference, from `start` on; a `count`
/// of 0 means all.
#[derive(Clone, Copy, Debug, PartialEq, Eq)]
pub struct Wanted {
    pub reference: u64,
    pub start: u64,
    pub count: u64,
    pub filter: Filter,
}

/// The stops of a run.
#[derive(Clone, Copy, Debug, PartialEq, Eq)]
pub struct Stops {
    /// At its start.
    pub at_start: bool,
    /// At break points. Else it is not debugged: none is set, and the session is over with the run.
    pub at_points: bool,
    /// At its end. Else the session is over there.
    pub at_end: bool,
}

/// The command of a request (docs/EDITORS.md).
#[derive(Drop)]
pub enum Command {
    /// initialize: from which numbers the editor counts.
    Initialize(Counting),
    /// launch: the path of a model, perhaps that of its data, and the stops of the run.
    Launch(Text, Option<Text>, Stops),
    /// setBreakpoints: these of the source at this path, and no others of it; if no path is named,
    /// of the model.
    SetBreakpoints(Option<Text>, LinePoints),
    /// setFunctionBreakpoints: the sections of these names, and no others.
    SetFunctionBreakpoints(Texts),
    /// setDataBreakpoints: these questions, and no others.
    SetDataBreakpoints(Texts),
    /// dataBreakpointInfo: the variable that a reference shows under a name; reference 0 is none.
    DataBreakpointInfo(u64, Text),
    /// gotoTargets: the states near by on this line, as the editor counts, of the source at this
    /// path; if no path is named, of the model.
    GotoTargets(Option<Text>, u64),
    /// setExceptionBreakpoints: a run stops at a fault whatever it says.
    SetExceptionBreakpoints,
    /// configurationDone.
    ConfigurationDone,
    /// threads.
    Threads,
    /// stackTrace: the first frame, and the number of frames from there on; 0 means all.
    StackTrace(u64, u64),
    /// scopes of a frame.
    Scopes(u64),
    /// variables.
    Variables(Wanted),
    /// evaluate: a line of the debugger.
    Obey(Text),
    /// evaluate, to be shown next to the model: a question.
    Ask(Text),
    /// completions of the part of a text before this column, as the editor counts.
    Completions(Text, u64),
    /// source of a reference.
    Source(u64),
    /// loadedSources.
    LoadedSources,
    /// exceptionInfo.
    ExceptionInfo,
    /// continue.
    Continue,
    /// next.
    Next,
    /// stepIn.
    StepIn,
    /// stepOut.
    StepOut,
    /// stepBack, of one step if it says so.
    StepBack(bool),
    /// reverseContinue.
    ReverseContinue,
    /// restart.
    Restart,
    /// goto: to the state of this number.
    Goto(u64),
    /// pause.
    Pause,
    /// disconnect.
    Disconnect,
    /// terminate.
    Terminate,
    /// An argument that is needed is not there.
    Missing(Argument),
    /// No command that is known.
    Unknown,
}

/// A request: its number, its command's name, and its command.
#[derive(Drop)]
pub struct Request {
    pub number: u64,
    pub name: Text,
    pub command: Command,
}

/// Why a message is no request.
#[derive(Clone, Copy, Debug, Drop, PartialEq, Eq, Error)]
pub enum RequestFault {
    /// It is no JSON, or has no number or no command.
    #[error("no request")]
    NoRequest,
    /// Memory was refused.
    #[error("out of memory")]
    Memory,
}

impl From<AllocError> for RequestFault {
    ghost use Rattle.std.specs.Prelude.{◌≡◌};
    ghost use Rattle.ss_messages.specs.declared.request.RequestFault.TheVariants.{Memory};

    ghost from_gives = { λ _ fault. fault ≡ Memory };

    fn from(_error: AllocError) -> RequestFault {
        RequestFault::Memory
    }
}

/// The command of a request about the session.
#[tactic(auto, unfolding(crate::specs::Requests::session_command))]
fn session_command(alloc: Global, name: &[u8], arguments: &Value) -> Result<Command, AllocError>
    ensures { IfOk result (λ command. command ≡ session_command name.now (view arguments.now)) }
{
    if name == b"initialize".as_slice() {
        return Ok(Command::Initialize(counting(arguments)));
    }
    if name == b"launch".as_slice() {
        return launch(alloc, arguments);
    }
    if name == b"configurationDone".as_slice() {
        return Ok(Command::ConfigurationDone);
    }
    if name == b"disconnect".as_slice() {
        return Ok(Command::Disconnect);
    }
    if name == b"terminate".as_slice() {
        return Ok(Command::Terminate);
    }
    Ok(Command::Unknown)
}

/// The command of a request about break points or the states on a line; else its command about the
/// session.
#[tactic(auto, unfolding(crate::specs::Requests::points_command))]
fn points_command(alloc: Global, name: &[u8], arguments: &Value) -> Result<Command, AllocError>
    ensures { IfOk result (λ command. command ≡ points_command name.now (view arguments.now)) }
{
    if name == b"setBreakpoints".as_slice() {
        return breakpoints(alloc, arguments);
    }
    if name == b"setFunctionBreakpoints".as_slice() {
        return Ok(Command::SetFunctionBreakpoints(texts_at(alloc, arguments, "name")?));
    }
    if name == b"setDataBreakpoints".as_slice() {
        return Ok(Command::SetDataBreakpoints(texts_at(alloc, arguments, "dataId")?));
    }
    if name == b"dataBreakpointInfo".as_slice() {
        return info(alloc, arguments);
    }
    if name == b"gotoTargets".as_slice() {
        return targets(alloc, arguments);
    }
    if name == b"setExceptionBreakpoints".as_slice() {
        return Ok(Command::SetExceptionBreakpoints);
    }
    session_command(alloc, name, arguments)
}

/// The command of a request that asks about the state; else its command about break points.
#[tactic(auto, unfolding(crate::specs::Requests::looking_command))]
fn looking_command(alloc: Global, name: &[u8], arguments: &Value) -> Result<Command, AllocError>
    ensures { IfOk result (λ command. command ≡ looking_command name.now (view arguments.now)) }
{
    if name == b"threads".as_slice() {
        return Ok(Command::Threads);
    }
    if name == b"stackTrace".as_slice() {
        let start = number_at(arguments, "startFrame");
        return Ok(Command::StackTrace(start, number_at(arguments, "levels")));
    }
    if name == b"scopes".as_slice() {
        return Ok(Command::Scopes(number_at(arguments, "frameId")));
    }
    if name == b"variables".as_slice() {
        return Ok(Command::Variables(wanted(arguments)));
    }
    if name == b"evaluate".as_slice() {
        return evaluate(alloc, arguments);
    }
    if name == b"completions".as_slice() {
        return completions(alloc, arguments);
    }
    if name == b"source".as_slice() {
        return Ok(Command::Source(number_at(arguments, "sourceReference")));
    }
    if name == b"loadedSources".as_slice() {
        return Ok(Command::LoadedSources);
    }
    if name == b"exceptionInfo".as_slice() {
        return Ok(Command::ExceptionInfo);
    }
    points_command(alloc, name, arguments)
}

/// The command of a request.
#[tactic(auto, unfolding(crate::specs::Requests::command_of))]
fn named_command(alloc: Global, name: &[u8], arguments: &Value) -> Result<Command, AllocError>
    ensures { IfOk result (λ command. command ≡ command_of name.now (view arguments.now)) }
{
    if name == b"continue".as_slice() {
        return Ok(Command::Continue);
    }
    if name == b"next".as_slice() {
        return Ok(Command::Next);
    }
    if name == b"stepIn".as_slice() {
        return Ok(Command::StepIn);
    }
    if name == b"stepOut".as_slice() {
        return Ok(Command::StepOut);
    }
    if name == b"stepBack".as_slice() {
        return Ok(Command::StepBack(is_text_at(arguments, "granularity", b"instruction")));
    }
    if name == b"reverseContinue".as_slice() {
        return Ok(Command::ReverseContinue);
    }
    if name == b"restart".as_slice() {
        return Ok(Command::Restart);
    }
    if name == b"goto".as_slice() {
        return Ok(goto(arguments));
    }
    if name == b"pause".as_slice() {
        return Ok(Command::Pause);
    }
    looking_command(alloc, name, arguments)
}

/// The request that a value is.
fn request_in(alloc: Global, value: &Value) -> Result<Option<Request>, AllocError>
    ensures { IfOk result (λ request. request ≡ request_of (view value.now)) }
{
    let Some(number) = number_in(value, "seq") else {
        return Ok(None);
    };
    let name = Text::of(alloc, text_at(value, "command").unwrap_or("").as_bytes())?;
    let command = match value.get("arguments") {
        Some(arguments) => named_command(alloc, name.as_slice(), arguments)?,
        None => named_command(alloc, name.as_slice(), &Value::Null)?,
    };
    Ok(Some(Request {
        number,
        name,
        command,
    }))
}

/// The request that the body of a message is. Gives `NoRequest` if the body is no JSON in UTF-8, or
/// has no number.
pub fn read_request(alloc: Global, body: &[u8]) -> Result<Request, RequestFault>
    ensures ok { IfOk result (λ request.
        option_and_then request_of (read body.now) ≡ Some request) }
    ensures none { result ≡ Err NoRequest →
        (¬ (IsUtf8 body.now)) ⊎ (option_and_then request_of (read body.now) ≡ None) }
{
    let Ok(text) = str::from_utf8(body) else {
        return Err(RequestFault::NoRequest);
    };
    match Value::from_str(alloc, text) {
        Ok(value) => match request_in(alloc, &value)? {
            Some(request) => Ok(request),
            None => Err(RequestFault::NoRequest),
        },
        Err(error) => {
            if error.is_memory() {
                return Err(RequestFault::Memory);
            }
            Err(RequestFault::NoRequest)
        }
    }
}
