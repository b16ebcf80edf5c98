//! Adding the uses of names in simple statements.

ghost use Rattle.std.specs.Prelude.{◌≡◌, [], ◌∷◌, ◌++◌, length, OnOk};
ghost use Rattle.std.specs.List.{flat_map};
ghost use Rattle.ss_words.specs.Lists.{all_of, several_view};
ghost use Rattle.ss_words.specs.Reading.{option_view};
ghost use Rattle.ss_routines.specs.Tree.{listing_names};
ghost use Rattle.ss_routines.specs.View as view;
ghost use Rattle.ss_routines.specs.View.{expr_view, reference_view, listing_view};
ghost use Rattle.ss_check.specs.KindView.{need_view};
ghost use Rattle.ss_check.specs.Uses as uses_of;

use crate::declared::class_need::ClassNeed;
use crate::uses::expressions::{
    add_called_target, add_called_value, add_expr, add_exprs, add_option, add_set, add_target,
    add_targets,
};
use crate::uses::use_list::{Use, UseList};
use ss_routines::{
    Article, Assign, Details, Exchange, Expr, FilePlace, Filing, Listing, Making, Reference,
    Simple, Timing, Transfer, When,
};
use ss_words::Several;
use std::alloc::AllocError;

/// Adds the uses of a simple statement.
pub(crate) fn add_simple<'a>(uses: &mut UseList<'a>, simple: &'a Simple) -> Result<(), AllocError>
    ensures { OnOk result
        (uses.new ≡ uses.old ++ uses_of.uses_simple (view.simple_view simple.now)) }
{
    match simple {
        Simple::Assign(assign) => add_assign(uses, assign),
        Simple::Make(making) => add_making(uses, making),
        Simple::File(filing) => add_filing(uses, filing),
        Simple::Transfer(transfer) => add_transfer(uses, transfer),
        Simple::Time(timing) => add_timing(uses, timing),
        Simple::Exchange(exchange) => add_exchange(uses, exchange),
    }
}

fn add_assign<'a>(uses: &mut UseList<'a>, assign: &'a Assign) -> Result<(), AllocError>
    ensures { OnOk result
        (uses.new ≡ uses.old ++ uses_of.uses_assign (view.assign_view assign.now)) }
{
    match assign {
        Assign::Let { target, value, .. } => {
            add_target(uses, target)?;
            add_expr(uses, value)
        }
        Assign::Add { value, target } | Assign::Subtract { value, target } => {
            add_expr(uses, value)?;
            add_target(uses, target)
        }
    }
}

fn add_making<'a>(uses: &mut UseList<'a>, making: &'a Making) -> Result<(), AllocError>
    ensures { OnOk result
        (uses.new ≡ uses.old ++ uses_of.uses_making (view.making_view making.now)) }
{
    match making {
        Making::Create { class, target } => {
            add_class(uses, ClassNeed::Ending, class.bytes())?;
            add_called_target(uses, target)
        }
        Making::CreateEvery { class, count } => {
            add_class(uses, ClassNeed::Permanent, class.bytes())?;
            add_option(uses, count)
        }
        Making::Destroy { class, entity } => {
            add_class(uses, ClassNeed::Ending, class.bytes())?;
            add_called_value(uses, entity)
        }
    }
}

/// Adds the use of a class of the kind needed.
pub(crate) fn add_class<'a>(
    uses: &mut UseList<'a>,
    need: ClassNeed,
    class: &'a [u8],
) -> Result<(), AllocError>
    ensures { OnOk result (uses.new ≡ uses.old ++ uses_of.OfClass (need_view need) class.now ∷ []) }
{
    uses.add(Use::OfClass { need, name: class })
}

fn add_file_place<'a>(uses: &mut UseList<'a>, place: &'a FilePlace) -> Result<(), AllocError>
    ensures { OnOk result
        (uses.new ≡ uses.old ++ uses_of.uses_file_place (view.file_place_view place.now)) }
{
    match place {
        FilePlace::ByDiscipline | FilePlace::AtEnd(_) => Ok(()),
        FilePlace::Before(other) | FilePlace::After(other) => add_expr(uses, other),
    }
}

fn add_filing<'a>(uses: &mut UseList<'a>, filing: &'a Filing) -> Result<(), AllocError>
    ensures { OnOk result
        (uses.new ≡ uses.old ++ uses_of.uses_filing (view.filing_view filing.now)) }
{
    match filing {
        Filing::File { member, place, set } => {
            add_expr(uses, member)?;
            add_file_place(uses, place)?;
            add_set(uses, set)
        }
        Filing::FileAt { member, set, .. } | Filing::Remove { member, set } => {
            add_expr(uses, member)?;
            add_set(uses, set)
        }
        Filing::RemoveEnd { target, set, .. } => {
            add_target(uses, target)?;
            add_set(uses, set)
        }
    }
}

/// How many values are listed.
fn value_count(values: &Listing<Expr>) -> usize
    ensures { result ≡ length (listing_names (listing_view expr_view values.now)) }
{
    match values {
        Listing::Unwritten => 0,
        Listing::BehindGiven(values) | Listing::InParentheses(values) => 1 + values.others.len(),
    }
}

fn add_several<'a>(uses: &mut UseList<'a>, values: &'a Several<Expr>) -> Result<(), AllocError>
    ensures { OnOk result
        (uses.new ≡ uses.old
        ++ flat_map uses_of.uses_expr (all_of (several_view expr_view values.now))) }
{
    add_expr(uses, &values.first)?;
    add_exprs(uses, &values.others)
}

fn add_listed<'a>(uses: &mut UseList<'a>, values: &'a Listing<Expr>) -> Result<(), AllocError>
    ensures { OnOk result
        (uses.new ≡ uses.old
        ++ flat_map uses_of.uses_expr (listing_names (listing_view expr_view values.now))) }
{
    match values {
        Listing::Unwritten => Ok(()),
        Listing::BehindGiven(values) | Listing::InParentheses(values) => add_several(uses, values),
    }
}

fn add_transfer<'a>(uses: &mut UseList<'a>, transfer: &'a Transfer) -> Result<(), AllocError>
    ensures { OnOk result
        (uses.new ≡ uses.old ++ uses_of.uses_transfer (view.transfer_view transfer.now)) }
{
    match transfer {
        Transfer::Call {
            routine,
            values,
            targets,
        } => {
            uses.add(Use::Routine {
                name: routine.bytes(),
                values: value_count(values),
                targets: targets.len(),
            })?;
            add_listed(uses, values)?;
            add_targets(uses, targets)
        }
        Transfer::Return | Transfer::Stop => Ok(()),
    }
}

fn add_called<'a>(
    uses: &mut UseList<'a>,
    article: Article,
    called: &'a Option<Reference>,
) -> Result<(), AllocError>
    ensures { OnOk result
        (uses.new ≡ uses.old
        ++ uses_of.uses_called article (option_view reference_view called.now)) }
{
    match article {
        Article::A => add_called_target(uses, called),
        Article::The => add_called_value(uses, called),
    }
}

/// How many values a notice is given.
fn detail_count(details: &Details) -> usize
    ensures { result ≡ length (uses_of.values_of (view.details_view details.now)) }
{
    match details {
        Details::ValuesFirst { values, .. } => 1 + values.others.len(),
        Details::CalledFirst { values, .. } => values.len(),
    }
}

fn add_details<'a>(
    uses: &mut UseList<'a>,
    article: Article,
    details: &'a Details,
) -> Result<(), AllocError>
    ensures { OnOk result
        (uses.new ≡ uses.old ++ uses_of.uses_details article (view.details_view details.now)) }
{
    match details {
        Details::ValuesFirst { values, called } => {
            add_several(uses, values)?;
            add_called(uses, article, called)
        }
        Details::CalledFirst { called, values } => {
            add_called(uses, article, called)?;
            add_exprs(uses, values)
        }
    }
}

fn add_when<'a>(uses: &mut UseList<'a>, when: &'a When) -> Result<(), AllocError>
    ensures { OnOk result (uses.new ≡ uses.old ++ uses_of.uses_when (view.when_view when.now)) }
{
    match when {
        When::At(time) => add_expr(uses, time),
        When::Now => Ok(()),
        When::In(delay) => add_expr(uses, delay),
    }
}

fn add_timing<'a>(uses: &mut UseList<'a>, timing: &'a Timing) -> Result<(), AllocError>
    ensures { OnOk result
        (uses.new ≡ uses.old ++ uses_of.uses_timing (view.timing_view timing.now)) }
{
    match timing {
        Timing::Schedule {
            article,
            event,
            details,
            when,
        } => {
            add_class(uses, ClassNeed::Event, event.bytes())?;
            uses.add(Use::Notice {
                event: event.bytes(),
                values: detail_count(details),
            })?;
            add_details(uses, *article, details)?;
            add_when(uses, when)
        }
        Timing::Cancel { event, called } => {
            add_class(uses, ClassNeed::Event, event.bytes())?;
            add_called_value(uses, called)
        }
        Timing::StartSimulation => Ok(()),
    }
}

fn add_exchange<'a>(uses: &mut UseList<'a>, exchange: &'a Exchange) -> Result<(), AllocError>
    ensures { OnOk result
        (uses.new ≡ uses.old ++ uses_of.uses_exchange (view.exchange_view exchange.now)) }
{
    match exchange {
        Exchange::Read(targets) => {
            add_target(uses, &targets.first)?;
            add_targets(uses, &targets.others)
        }
        Exchange::Print { values, .. } => add_exprs(uses, values),
        Exchange::Skip(lines) => add_expr(uses, lines),
    }
}
