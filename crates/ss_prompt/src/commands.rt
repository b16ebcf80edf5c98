//! The commands of the prompt, one of which each line gives.
ghost use Rattle.std.specs.Prelude.{◌≡◌};

use crate::break_place::BreakPlace;
use crate::causes::CauseCommand;
use crate::line::Line;
use crate::manner::Manner;
use crate::missing::Missing;
use crate::sections::taken_line_of;
use crate::sight::Sight;
use crate::until::Until;
use ss_debug::{Command, Name};
use ss_program::Program;
use ss_trace::{Movement, Question};

/// A command of the prompt (docs/PROMPT.md).
#[derive(Drop)]
pub enum PromptCommand {
    /// A line of docs/DEBUGGER.md, or one that is no command.
    Plain(Command),
    /// A movement that is none of docs/DEBUGGER.md.
    Travel(Movement),
    /// TBREAK: forward to this line, which is a break line for that once.
    Once(u32),
    /// LIST: the lines about this one, or about the present one.
    Lines(Option<u32>),
    /// LIST l m: the lines from one to another.
    LinesBetween(u32, u32),
    /// LIST r: the lines of the section of this name.
    SectionLines(Name),
    /// BREAK r: makes the line of the first place of the section of this name a break line.
    BreakSection(Name),
    /// BREAK l WHEN c, BREAK r WHEN c: makes the line there a break line that stops only in states
    /// in which a condition holds, if the text is one. The flag says whether a number is among its
    /// words.
    BreakWhen(BreakPlace, Line, bool),
    /// BREAK of a line without a place, and the next line that has one.
    NoPlace(u32, Option<usize>),
    /// CLEAR r: that line is no break line any more.
    ClearSection(Name),
    /// CLEAR: no line is a break line any more.
    ClearAll,
    /// BREAKS: the break lines.
    Breaks,
    /// SHOW c k a, SHOW COUNT: a question that is none of docs/DEBUGGER.md.
    Ask(Question),
    /// SHOW: another sight of a state.
    See(Sight),
    /// SHOW CHANGED: the changes of the last step, or since the state that a movement left.
    Changed,
    /// WHY: the newest step at which a question changed.
    Why(Question),
    /// WHY CAUSE, BACK CAUSE: what brought the last frame about.
    Cause(CauseCommand),
    /// HISTORY: a number of steps at which a question changed, the newest first.
    History(Question, u64),
    /// DISPLAY: a question that is answered at each stop.
    Display(Question),
    /// UNDISPLAY: no question is answered at stops any more.
    Undisplay,
    /// UNDISPLAY x: this question is not answered at stops any more.
    UndisplayOne(Question),
    /// SHOW of a text that is none of these questions: it may be an expression or a condition. The
    /// flag says whether a number is among its words.
    Value(Line, bool),
    /// RUN UNTIL, BACK UNTIL, GO FIRST: to a state in which a condition holds, if the text is one.
    /// The flag says whether a number is among its words.
    Until(Until, Line, bool),
    /// WHY, HISTORY, RUN CHANGE, BACK CHANGE of a text, if it is an expression, a condition, a list or
    /// the name of a class. The flag says whether a number is among its words.
    Meant(Manner, Line, bool),
    /// READS: what the statement that runs next looks at.
    Reads,
    /// No command, with this first word, and with a number among its words or none.
    Unread(Option<Name>, bool),
    /// A question of a name that the model hasn't.
    Missing(Missing),
    /// NAMES: the names of the model, or the text on this one.
    Names(Option<Name>),
    /// WARNINGS: the warnings on the model.
    Warnings,
    /// HELP: the commands, or those that begin with this word.
    Help(Option<Name>),
}

impl PromptCommand {
    ghost use Rattle.ss_prompt.specs.Points.{is_movement, point_of};

    /// Whether it moves the debugger to another state of the run.
    pub fn is_movement(&self) -> bool
        ensures { result ≡ is_movement self.now }
    {
        match self {
            PromptCommand::Plain(Command::Move(_)) => true,
            PromptCommand::Travel(_) | PromptCommand::Once(_) | PromptCommand::Until(..) => true,
            PromptCommand::Cause(CauseCommand::Back) => true,
            PromptCommand::Meant(manner, _, _) => manner.moves(),
            _ => false,
        }
    }

    /// The line that it makes a break line, or no break line any more, if it does one of these or
    /// both.
    pub fn point(&self, program: &Program) -> Option<u32>
        ensures { result ≡ point_of program.now self.now }
    {
        match self {
            PromptCommand::Plain(Command::Break(line)) => Some(*line),
            PromptCommand::Plain(Command::Clear(line)) => Some(*line),
            PromptCommand::Once(line) => Some(*line),
            PromptCommand::BreakSection(name) => taken_line_of(program, name.as_slice()),
            PromptCommand::BreakWhen(place, _, _) => place.line(program),
            PromptCommand::ClearSection(name) => taken_line_of(program, name.as_slice()),
            _ => None,
        }
    }
}
