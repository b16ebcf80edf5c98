//! The rules on the heads of sections.

ghost use Rattle.std.specs.Prelude.{◌≡◌, ◌++◌, ◌||◌, [], IfOk, OnOk};
ghost use Rattle.ss_check.specs.declared.fault.CheckRule.TheVariants as check;
ghost use Rattle.ss_routines.specs.Tree.{listing_names};
ghost use Rattle.ss_routines.specs.View as view;
ghost use Rattle.ss_check.specs.Increments.{IsOnce, with_head};
ghost use Rattle.ss_check.specs.Declarations as declared;
ghost use Rattle.ss_check.specs.Facts.{repeats};
ghost use Rattle.ss_check.specs.ItemRules as rules;
ghost use Rattle.ss_check.specs.NameKinds.{one_conflicts};
ghost use Rattle.ss_check.specs.Statements.{rule_where, lowest};

use crate::declared::item_names::add_names;
use crate::declared::name_list::NameList;
use crate::declared::tables::{Tables, name_count};
use crate::fault::CheckRule;
use crate::rules::items::is_event_class;
use crate::rules::named::declared_parameter;
use ss_routines::{Listing, Section, SectionKind};
use ss_words::Name;
use std::alloc::{AllocError, Global};

/// Which rules the head of a section breaks.
#[derive(Clone, Copy)]
struct HeadBreaks {
    /// C1
    declares_twice: bool,
    /// C7
    has_too_many: bool,
    /// C8
    lacks_class: bool,
    /// C11
    is_second_main: bool,
}

impl HeadBreaks {
    /// The lowest of these rules.
    fn lowest(&self) -> Option<CheckRule>
        ensures { result ≡ lowest (rule_where check.DeclaredTwice self.now.declares_twice
            ++ rule_where check.WrongCount self.now.has_too_many
            ++ rule_where check.WrongEvent self.now.lacks_class
            ++ rule_where check.WrongMain self.now.is_second_main) }
    {
        if self.declares_twice {
            Some(CheckRule::DeclaredTwice)
        } else if self.has_too_many {
            Some(CheckRule::WrongCount)
        } else if self.lacks_class {
            Some(CheckRule::WrongEvent)
        } else if self.is_second_main {
            Some(CheckRule::WrongMain)
        } else {
            None
        }
    }
}

/// The lowest rule that the head of a section breaks after the declarations `before`, to which it
/// is added.
pub(crate) fn head_rule(
    alloc: Global,
    whole: &Tables,
    before: &mut Tables,
    section: &Section,
) -> Result<Option<CheckRule>, AllocError>
    requires { IsOnce before.old }
    ensures rule { IfOk result
        (λ r. r ≡ rules.head_rule whole.now before.old (view.section_view section.now)) }
    ensures tables { OnOk result
        (before.new ≡ with_head before.old (view.section_view section.now).head) }
{
    let is_second_main = is_main(section) & has_main(before);
    let repeats_parameter = repeats_parameter(alloc, section)?;
    before.add_head(section)?;
    let breaks = HeadBreaks {
        declares_twice: says_twice(before)
            | repeats_parameter
            | declared_parameter(whole, section).is_some(),
        has_too_many: has_too_many(whole, section),
        lacks_class: lacks_class(whole, section),
        is_second_main,
    };
    Ok(breaks.lowest())
}

/// Whether these tables have a MAIN.
fn has_main(tables: &Tables) -> bool
    ensures { result ≡ tables.now.has_main }
{
    tables.has_main
}

/// Whether it is MAIN.
pub(crate) fn is_main(section: &Section) -> bool
    ensures { result ≡ declared.is_main (view.section_view section.now).head }
{
    matches!(section.kind, SectionKind::Main)
}

// ---- C1

/// Whether these tables declare a name twice or give an event class two sections.
fn says_twice(tables: &Tables) -> bool
    ensures { result ≡ (one_conflicts [] tables.now.kinds || repeats [] tables.now.events) }
{
    tables.kinds.has_conflict() || tables.events.has_repeat()
}

/// Whether a section has two parameters of one name.
fn repeats_parameter(alloc: Global, section: &Section) -> Result<bool, AllocError>
    ensures { IfOk result
        (λ r. r ≡ repeats [] (declared.parameters (view.section_view section.now).head)) }
{
    let mut list = NameList::new(alloc);
    let added = add_parameters(&mut list, section);
    let is_repeated = list.has_repeat();
    drop(list);
    added?;
    Ok(is_repeated)
}

/// Adds the names of a section's parameters.
pub(crate) fn add_parameters(list: &mut NameList, section: &Section) -> Result<(), AllocError>
    ensures { OnOk result
        (list.new ≡ list.old ++ declared.parameters (view.section_view section.now).head) }
{
    match &section.kind {
        SectionKind::Main => Ok(()),
        SectionKind::Routine { given, yielded } => {
            add_listed(list, given)?;
            add_yielded(list, yielded)
        }
        SectionKind::Event { given, .. } => add_listed(list, given),
    }
}

/// Adds the names of yielded parameters.
fn add_yielded(list: &mut NameList, names: &[Name]) -> Result<(), AllocError>
    ensures { OnOk result (list.new ≡ list.old ++ names.now) }
{
    for name in names {
        list.add(name.bytes())?;
    }
    Ok(())
}

/// Adds the names of a list that may be left out.
fn add_listed(list: &mut NameList, names: &Listing<Name>) -> Result<(), AllocError>
    ensures { OnOk result (list.new
        ≡ list.old ++ listing_names (view.listing_view (λ n. n) names.now)) }
{
    match names {
        Listing::Unwritten => Ok(()),
        Listing::BehindGiven(names) | Listing::InParentheses(names) => add_names(list, names),
    }
}

// ---- C7 and C8

/// Whether it is the section of an event class that has less attributes than it has parameters.
fn has_too_many(whole: &Tables, section: &Section) -> bool
    ensures { result ≡ rules.has_too_many whole.now (view.section_view section.now).head }
{
    match &section.kind {
        SectionKind::Event { given, .. } => {
            is_event_class(whole, section.name.bytes())
                && whole.attributes.count(section.name.bytes()) < name_count(given)
        }
        SectionKind::Main | SectionKind::Routine { .. } => false,
    }
}

/// Whether it is the section of a name that is no event class.
fn lacks_class(whole: &Tables, section: &Section) -> bool
    ensures { result ≡ rules.lacks_class whole.now (view.section_view section.now).head }
{
    matches!(section.kind, SectionKind::Event { .. })
        && !is_event_class(whole, section.name.bytes())
}
