//! The sights of a state: their reading, and their texts.
ghost use Rattle.std.specs.Prelude.{◌≡◌, ◌++◌, OnOk};
ghost use Rattle.ss_machine.specs.Moment.{position};
ghost use Rattle.ss_debug.specs.CommandLines.{command_words};
ghost use Rattle.ss_prompt.specs.Sights.{unless_reserved, by_variable, is_question_word};
ghost use Rattle.ss_prompt.specs.Sights.{sight_of, sight_said};

use crate::line::{name_of_word, only_name};
use crate::pieces::next_word;
use crate::rows::{push_living_rows, push_member_rows};
use crate::sight::Sight;
use ss_debug::{Debugger, Name};
use ss_inspect::{push_by_variable, push_living, push_overview, push_places};
use ss_links::SetBoard;
use ss_words::is_reserved_name;
use std::alloc::{AllocError, Global};

/// A name that is no reserved word of the language.
pub(crate) fn unless_reserved(name: Option<Name>) -> Option<Name>
    ensures { result ≡ unless_reserved name }
{
    let name = name?;
    if is_reserved_name(name.as_slice()) {
        return None;
    }
    Some(name)
}

/// `c v` or `c v a`, which are no reserved words.
fn by_variable(what: &[u8], word: &[u8], rest: &[u8]) -> Option<Sight>
    ensures { result ≡ by_variable what.now word.now (command_words rest.now) }
{
    let attribute = if next_word(rest).is_some() {
        let name = unless_reserved(only_name(rest))?;
        Some(name)
    } else {
        None
    };
    let class = unless_reserved(name_of_word(what))?;
    let variable = unless_reserved(name_of_word(word))?;
    Some(Sight::ByVariable(class, variable, attribute))
}

/// Whether a word begins other lines than those on a class.
fn is_question_word(what: &[u8]) -> bool
    ensures { result ≡ is_question_word what.now }
{
    what == b"VAR".as_slice()
        || what == b"SET".as_slice()
        || what == b"COUNT".as_slice()
        || what == b"IN".as_slice()
        || what == b"CHANGED".as_slice()
}

/// The sight of the entities of a class that the words of a line after SHOW ask for.
pub(crate) fn sight(words: &[u8]) -> Option<Sight>
    ensures { result ≡ sight_of (command_words words.now) }
{
    let (what, behind) = next_word(words)?;
    let Some((word, rest)) = next_word(behind) else {
        let name = name_of_word(what)?;
        return Some(Sight::Living(name));
    };
    if is_question_word(what) {
        return None;
    }
    by_variable(what, word, rest)
}

/// Appends the text of a sight, in the debugger's present state.
pub(crate) fn push_sight<S: SetBoard>(
    alloc: Global,
    text: &mut Vec<u8>,
    debugger: &Debugger<S>,
    sight: Sight,
) -> Result<(), AllocError>
    ensures { OnOk result (text.new.items ≡ text.old.items
        ++ sight_said sight debugger.now.machine.input (position debugger.now.machine)) }
{
    let machine = debugger.machine();
    match sight {
        Sight::Overview(overview) => push_overview(text, machine, overview),
        Sight::Living(class) => push_living(alloc, text, machine, class.as_slice()),
        Sight::ByVariable(class, variable, attribute) => match attribute {
            Some(name) => push_by_variable(
                text,
                machine,
                class.as_slice(),
                variable.as_slice(),
                Some(name.as_slice()),
            ),
            None => push_by_variable(text, machine, class.as_slice(), variable.as_slice(), None),
        },
        Sight::Places(class, x) => push_places(alloc, text, machine, class.as_slice(), x),
        Sight::MemberRows(set, owner, names) => {
            push_member_rows(text, debugger, set, owner, names.as_slice())
        }
        Sight::LivingRows(class, names) => {
            push_living_rows(text, machine, class.as_slice(), names.as_slice())
        }
    }
}
