//! A console that obeys READ FROM, LOG TO and RELOAD before the prompt sees their lines.
ghost use Rattle.std.specs.Prelude.{◌≡◌, ◌<◌, None};
ghost use Rattle.std.specs.Vec.{vec_capacity};
ghost use Rattle.ss_console.specs.declared.lines.TheConstants.{LONGEST_LINE};

use crate::log::Log;
use crate::orders::{Order, order_in};
use ss_console::{Console, PutFault, ReadFault, StreamConsole};
use ss_host::{Stop, read_file};
use std::alloc::AllocError;
use std::io::{self, Cursor, Write};

/// How many files may be read one within the other.
const MOST_SCRIPTS: usize = 8;

/// A console over another. Its lines are first those of scripts, the newest first, and then those
/// that are typed; what is read and printed goes to a log, if there is one. It shows neither lines
/// nor events.
#[derive(Drop)]
pub struct ScriptConsole<'r, C: Console + Drop> {
    rt: &'r HostRuntime,
    typed: C,
    scripts: Vec<Cursor<Vec<u8>>>,
    log: Option<Log>,
    wants_reload: bool,
}

/// Reads the next line of a text.
fn script_line(script: &mut Cursor<Vec<u8>>, line: &mut Vec<u8>) -> bool
    requires { LONGEST_LINE < vec_capacity line.old }
    ensures { LONGEST_LINE < vec_capacity line.new }
{
    let mut lines = StreamConsole::new(script, io::sink(), false);
    matches!(lines.read_line(line), Ok(true))
}

/// Reads the next line of the newest script that has one, and lets go of those that have none.
fn scripted_line(scripts: &mut Vec<Cursor<Vec<u8>>>, line: &mut Vec<u8>) -> bool
    requires { LONGEST_LINE < vec_capacity line.old }
    ensures { LONGEST_LINE < vec_capacity line.new }
{
    while let Some(mut script) = scripts.last_mut() {
        if script_line(script, line) {
            return true;
        }
        scripts.pop();
    }
    false
}

impl<'r, C: Console + Drop> ScriptConsole<'r, C> {
    /// A console over another, without scripts and without a log.
    pub fn new(rt: &'r HostRuntime, typed: C) -> Self
        ensures { result.typed ≡ typed }
    {
        ScriptConsole {
            rt,
            typed,
            scripts: Vec::new(rt.alloc()),
            log: None,
            wants_reload: false,
        }
    }

    /// Whether RELOAD was read since the last call.
    pub fn takes_reload(&mut self) -> bool
        ensures { self.new.typed ≡ self.old.typed }
    {
        let wants = self.wants_reload;
        self.wants_reload = false;
        wants
    }

    /// Lets the lines of a text come next, before all others.
    pub fn read_first(&mut self, text: Vec<u8>) -> Result<(), AllocError>
        ensures { self.new.typed ≡ self.old.typed }
    {
        self.scripts.push(Cursor::new(text))?;
        Ok(())
    }

    /// Prints a line of some words and a path. If that fails, the next answer fails as well.
    pub fn say(&mut self, words: &[u8], path: &[u8])
        ensures { self.new.typed ≡ self.old.typed }
    {
        self.print(words);
        self.print(path);
        self.print(b"\n");
    }

    /// Prints some bytes.
    fn print(&mut self, bytes: &[u8])
        ensures { self.new.typed ≡ self.old.typed }
    {
        let _ = io::writer(self.rt).write_all(bytes);
        self.note(bytes);
    }

    /// Writes some bytes to the log, if there is one.
    fn note(&mut self, bytes: &[u8])
        ensures { self.new.typed ≡ self.old.typed }
    {
        if let Some(log) = &mut self.log {
            log.note(bytes);
        }
    }

    /// Says that the log takes no more, if it does not, and ends it.
    fn tell_lost_log(&mut self)
        ensures { self.new.typed ≡ self.old.typed }
    {
        let Some(log) = self.log.take() else {
            return;
        };
        if log.is_lost() {
            self.say(b"CANNOT WRITE ", log.path());
        } else {
            self.log = Some(log);
        }
    }

    /// Writes a line that was read to the log, after `> ` if no prompt is printed.
    fn note_line(&mut self, line: &[u8])
        ensures { self.new.typed ≡ self.old.typed }
    {
        if !self.typed.is_terminal() {
            self.note(b"> ");
        }
        self.note(line);
        self.note(b"\n");
    }

    /// Prints a line of a script after the prompt, if there is one, as if it were typed.
    fn echo(&self, line: &[u8]) {
        if self.typed.is_terminal() {
            let _ = io::writer(self.rt).write_all(line);
            let _ = io::writer(self.rt).write_all(b"\n");
        }
    }

    /// READ FROM.
    fn read_from(&mut self, path: &[u8])
        ensures { self.new.typed ≡ self.old.typed }
    {
        if self.scripts.len() >= MOST_SCRIPTS {
            return self.say(b"TOO MANY FILES", b"");
        }
        let Ok(name) = str::from_utf8(path) else {
            return self.say(b"CANNOT READ ", path);
        };
        match read_file(self.rt, name) {
            Ok(text) => {
                if self.read_first(text).is_err() {
                    self.say(b"OUT OF MEMORY", b"");
                }
            }
            Err(Stop::Memory) => self.say(b"OUT OF MEMORY", b""),
            Err(_) => self.say(b"CANNOT READ ", path),
        }
    }

    /// LOG TO.
    fn log_to(&mut self, path: &[u8])
        ensures { self.new.typed ≡ self.old.typed }
    {
        match Log::create(self.rt, path) {
            Some(log) => self.log = Some(log),
            None => self.say(b"CANNOT WRITE ", path),
        }
    }

    /// Obeys a command of the program.
    fn obey(&mut self, order: Order<'_>)
        ensures { self.new.typed ≡ self.old.typed }
    {
        match order {
            Order::ReadFrom(path) => self.read_from(path),
            Order::LogTo(path) => self.log_to(path),
            Order::LogEnd => self.log = None,
            Order::Reload => self.wants_reload = true,
        }
    }
}

impl<'r, C: Console + Drop> Console for ScriptConsole<'r, C> {
    ghost log = { λ _. None };

    ghost left = { λ _. None };

    ghost faults = { λ c. C.faults c.typed };

    ghost terminal = { λ c. C.terminal c.typed };

    // A command of the program is read as an empty line, to which the prompt has no answer, and
    // RELOAD as the end of input.
    fn read_line(&mut self, line: &mut Vec<u8>) -> Result<bool, ReadFault> {
        if scripted_line(&mut self.scripts, line) {
            self.echo(line);
        } else if !self.typed.read_line(line)? {
            self.tell_lost_log();
            return Ok(false);
        }
        self.note_line(line);
        self.tell_lost_log();
        if let Some(order) = order_in(line) {
            self.obey(order);
            line.clear();
        }
        Ok(!self.wants_reload)
    }

    fn put(&mut self, bytes: &[u8]) -> Result<usize, PutFault> {
        let count = self.typed.put(bytes)?;
        self.note(&bytes[..count]);
        Ok(count)
    }

    fn is_terminal(&self) -> bool {
        self.typed.is_terminal()
    }
}
