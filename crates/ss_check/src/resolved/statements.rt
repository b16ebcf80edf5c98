//! Making simple statements with the numbers of their names.

ghost use Rattle.std.specs.Prelude.{◌≡◌, false, map, IfOk};
ghost use Rattle.ss_words.specs.Reading.{option_view};
ghost use Rattle.ss_report.specs.Pictures.{has_decimal_field};
ghost use Rattle.ss_routines.specs.Places as written;
ghost use Rattle.ss_routines.specs.Simple as simple;
ghost use Rattle.ss_routines.specs.View as view;
ghost use Rattle.ss_check.specs.PlaceRules.{has_wrong_picture};
ghost use Rattle.ss_check.specs.Resolved as resolved;
ghost use Rattle.ss_check.specs.Scope.{in_scope};

use crate::resolved::expressions::{
    resolve_expr, resolve_listed, resolve_option, resolve_several, resolve_values, written_listing,
};
use crate::resolved::references::{
    called_target, called_value, member_and_set, resolve_set, resolve_several_targets,
    resolve_target, resolve_targets,
};
use crate::resolved::scope::Scope;
use ss_program::{
    Assign, Boxed, Call, Control, Expr, Filing, Listing, Making, Notice, Output, Place, Position,
    Schedule, SetRef, Target, Timing, When,
};
use ss_report::{Picture, PictureFault};
use ss_routines::{Article, Details, Exchange, FilePlace, Reference, Simple, Transfer};
use std::alloc::{AllocError, Global};

/// A statement that holds no other, with the numbers of its names.
pub(crate) fn resolve_simple(scope: Scope<'_>, statement: &Simple) -> Result<Place, AllocError>
    requires { has_wrong_picture (written.Simply (view.simple_view statement.now)) ≡ false }
    ensures { IfOk result
        (λ x. x ≡ in_scope scope.entry resolved.resolved_simple (view.simple_view statement.now)) }
{
    match statement {
        Simple::Assign(assign) => Ok(Place::Assign(resolve_assign(scope, assign)?)),
        Simple::Make(making) => {
            let making = resolve_making(scope, making)?;
            Ok(Place::Making(Boxed::new(scope.alloc, making)?))
        }
        Simple::File(filing) => {
            let filing = resolve_filing(scope, filing)?;
            Ok(Place::Filing(Boxed::new(scope.alloc, filing)?))
        }
        Simple::Transfer(transfer) => resolve_transfer(scope, transfer),
        Simple::Time(timing) => {
            let timing = resolve_timing(scope, timing)?;
            Ok(Place::Timing(Boxed::new(scope.alloc, timing)?))
        }
        Simple::Exchange(exchange) => resolve_exchange(scope, exchange),
    }
}

fn resolve_assign(scope: Scope<'_>, assign: &ss_routines::Assign) -> Result<Assign, AllocError>
    ensures { IfOk result
        (λ x. x ≡ in_scope scope.entry resolved.resolved_assign (view.assign_view assign.now)) }
{
    match assign {
        ss_routines::Assign::Let {
            written,
            target,
            value,
        } => {
            let written = *written;
            let (target, value) = target_and_value(scope, target, value)?;
            Ok(Assign::Let {
                written,
                target,
                value,
            })
        }
        ss_routines::Assign::Add { value, target } => {
            let (target, value) = target_and_value(scope, target, value)?;
            Ok(Assign::Add { value, target })
        }
        ss_routines::Assign::Subtract { value, target } => {
            let (target, value) = target_and_value(scope, target, value)?;
            Ok(Assign::Subtract { value, target })
        }
    }
}

/// The target that an assignment changes, and the value that it takes.
fn target_and_value(
    scope: Scope<'_>,
    target: &Reference,
    value: &ss_routines::Expr,
) -> Result<(Target, Expr), AllocError>
    ensures target { IfOk result
        (λ x. x.0
        ≡ in_scope scope.entry resolved.resolved_target (view.reference_view target.now)) }
    ensures value { IfOk result
        (λ x. x.1 ≡ in_scope scope.entry resolved.resolved_expr (view.expr_view value.now)) }
{
    let target = resolve_target(scope, target)?;
    match resolve_expr(scope, value) {
        Ok(value) => Ok((target, value)),
        Err(fault) => {
            drop(target);
            Err(fault)
        }
    }
}

fn resolve_making(scope: Scope<'_>, making: &ss_routines::Making) -> Result<Making, AllocError>
    ensures { IfOk result
        (λ x. x ≡ in_scope scope.entry resolved.resolved_making (view.making_view making.now)) }
{
    match making {
        ss_routines::Making::Create { class, target } => Ok(Making::Create {
            class: scope.names.class(class.bytes()),
            is_called: target.is_some(),
            target: called_target(scope, class.bytes(), target)?,
        }),
        ss_routines::Making::CreateEvery { class, count } => {
            let variable = scope.names.count(scope.alloc, class.bytes())?;
            Ok(Making::CreateEvery {
                class: scope.names.class(class.bytes()),
                number: resolve_option(scope, count)?,
                count: variable,
            })
        }
        ss_routines::Making::Destroy { class, entity } => Ok(Making::Destroy {
            class: scope.names.class(class.bytes()),
            is_called: entity.is_some(),
            entity: called_value(scope, class.bytes(), entity)?,
        }),
    }
}

fn resolve_position(scope: Scope<'_>, place: &FilePlace) -> Result<Position, AllocError>
    ensures { IfOk result
        (λ x. x ≡ in_scope scope.entry resolved.resolved_position
        (view.file_place_view place.now)) }
{
    match place {
        FilePlace::ByDiscipline => Ok(Position::ByRule),
        FilePlace::AtEnd(end) => Ok(Position::AtEnd(*end)),
        FilePlace::Before(other) => Ok(Position::Before(resolve_expr(scope, other)?)),
        FilePlace::After(other) => Ok(Position::After(resolve_expr(scope, other)?)),
    }
}

fn resolve_filing(scope: Scope<'_>, filing: &ss_routines::Filing) -> Result<Filing, AllocError>
    ensures { IfOk result
        (λ x. x ≡ in_scope scope.entry resolved.resolved_filing (view.filing_view filing.now)) }
{
    match filing {
        ss_routines::Filing::File { member, place, set } => {
            let (member, set) = member_and_set(scope, member, set)?;
            match resolve_position(scope, place) {
                Ok(position) => Ok(Filing::File {
                    member,
                    position,
                    set,
                }),
                Err(fault) => {
                    drop(member);
                    drop(set);
                    Err(fault)
                }
            }
        }
        ss_routines::Filing::FileAt { end, member, set } => {
            let end = *end;
            let (member, set) = member_and_set(scope, member, set)?;
            Ok(Filing::FileAt { end, member, set })
        }
        ss_routines::Filing::RemoveEnd { end, target, set } => {
            let end = *end;
            let (target, set) = target_and_set(scope, target, set)?;
            Ok(Filing::RemoveAt { end, target, set })
        }
        ss_routines::Filing::Remove { member, set } => {
            let (member, set) = member_and_set(scope, member, set)?;
            Ok(Filing::Remove { member, set })
        }
    }
}

/// The entity that is taken out of a set as a target, and the set.
fn target_and_set(
    scope: Scope<'_>,
    target: &Reference,
    set: &Reference,
) -> Result<(Target, SetRef), AllocError>
    ensures target { IfOk result
        (λ x. x.0
        ≡ in_scope scope.entry resolved.resolved_target (view.reference_view target.now)) }
    ensures set { IfOk result
        (λ x. x.1 ≡ in_scope scope.entry resolved.resolved_set (view.reference_view set.now)) }
{
    let set = resolve_set(scope, set)?;
    match resolve_target(scope, target) {
        Ok(target) => Ok((target, set)),
        Err(fault) => {
            drop(set);
            Err(fault)
        }
    }
}

fn resolve_transfer(scope: Scope<'_>, transfer: &Transfer) -> Result<Place, AllocError>
    ensures { IfOk result
        (λ x. x ≡ in_scope scope.entry resolved.resolved_transfer
        (view.transfer_view transfer.now)) }
{
    match transfer {
        Transfer::Call {
            routine,
            values,
            targets,
        } => {
            let call = Call {
                section: scope.names.routine(routine.bytes()),
                given: resolve_listed(scope, values)?,
                targets: resolve_targets(scope, targets)?,
                listing: written_listing(values),
            };
            Ok(Place::Call(Boxed::new(scope.alloc, call)?))
        }
        Transfer::Return => Ok(Place::Control(Control::Return)),
        Transfer::Stop => Ok(Place::Control(Control::Stop)),
    }
}

/// The notice of an event class that is scheduled: a new one, or one that there is.
fn resolve_notice(
    scope: Scope<'_>,
    article: Article,
    event: &[u8],
    called: &Option<Reference>,
) -> Result<Notice, AllocError>
    ensures { IfOk result (λ x. x ≡ in_scope scope.entry resolved.resolved_notice article event.now
        (option_view view.reference_view called.now)) }
{
    let is_called = called.is_some();
    match article {
        Article::A => Ok(Notice::New {
            is_called,
            target: called_target(scope, event, called)?,
        }),
        Article::The => Ok(Notice::Known {
            is_called,
            notice: called_value(scope, event, called)?,
        }),
    }
}

fn resolve_when(scope: Scope<'_>, when: &ss_routines::When) -> Result<When, AllocError>
    ensures { IfOk result
        (λ x. x ≡ in_scope scope.entry resolved.resolved_when (view.when_view when.now)) }
{
    match when {
        ss_routines::When::At(time) => Ok(When::At(resolve_expr(scope, time)?)),
        ss_routines::When::Now => Ok(When::Now),
        ss_routines::When::In(delay) => Ok(When::In(resolve_expr(scope, delay)?)),
    }
}

/// A SCHEDULE of a notice of an event class.
fn resolve_schedule(
    scope: Scope<'_>,
    article: Article,
    event: &[u8],
    details: &Details,
    when: &ss_routines::When,
) -> Result<Timing, AllocError>
    ensures { IfOk result
        (λ x. x ≡ in_scope scope.entry resolved.resolved_schedule article event.now
        (view.details_view details.now) (view.when_view when.now)) }
{
    let (listing, called, arguments) = match details {
        Details::ValuesFirst { values, called } => {
            (
                Listing::InParentheses,
                called,
                resolve_several(scope, values),
            )
        }
        Details::CalledFirst { called, values } => {
            (Listing::Given, called, resolve_values(scope, values))
        }
    };
    let arguments = arguments?;
    match notice_and_time(scope, article, event, called, when) {
        Ok((notice, when)) => Ok(Timing::Schedule(Schedule {
            class: scope.names.class(event),
            notice,
            listing,
            arguments,
            when,
        })),
        Err(fault) => {
            drop(arguments);
            Err(fault)
        }
    }
}

/// The notice that is scheduled, and when.
fn notice_and_time(
    scope: Scope<'_>,
    article: Article,
    event: &[u8],
    called: &Option<Reference>,
    when: &ss_routines::When,
) -> Result<(Notice, When), AllocError>
    ensures notice { IfOk result
        (λ x. x.0 ≡ in_scope scope.entry resolved.resolved_notice article event.now
        (option_view view.reference_view called.now)) }
    ensures when { IfOk result
        (λ x. x.1 ≡ in_scope scope.entry resolved.resolved_when (view.when_view when.now)) }
{
    let when = resolve_when(scope, when)?;
    match resolve_notice(scope, article, event, called) {
        Ok(notice) => Ok((notice, when)),
        Err(fault) => {
            drop(when);
            Err(fault)
        }
    }
}

fn resolve_timing(scope: Scope<'_>, timing: &ss_routines::Timing) -> Result<Timing, AllocError>
    ensures { IfOk result
        (λ x. x ≡ in_scope scope.entry resolved.resolved_timing (view.timing_view timing.now)) }
{
    match timing {
        ss_routines::Timing::Schedule {
            article,
            event,
            details,
            when,
        } => resolve_schedule(scope, *article, event.bytes(), details, when),
        ss_routines::Timing::Cancel { event, called } => Ok(Timing::Cancel {
            class: scope.names.class(event.bytes()),
            is_called: called.is_some(),
            notice: called_value(scope, event.bytes(), called)?,
        }),
        ss_routines::Timing::StartSimulation => Ok(Timing::Start),
    }
}

/// Copies of lines.
fn copied_lines(alloc: Global, lines: &[Vec<u8>]) -> Result<Vec<Vec<u8>>, AllocError>
    ensures { IfOk result
        (λ copies. map (λ l. l.items) copies.items ≡ map (λ l. l.items) lines.now) }
{
    let mut copies = Vec::with_capacity(alloc, lines.len())?;
    for line in lines {
        copies.push(Vec::from_slice(alloc, line)?)?;
    }
    Ok(copies)
}

/// The picture of these lines.
fn resolve_picture(alloc: Global, lines: &[Vec<u8>]) -> Result<Picture, AllocError>
    requires { has_decimal_field (map (λ l. l.items) lines.now) ≡ false }
    ensures { IfOk result (λ picture. picture ≡ map (λ l. l.items) lines.now) }
{
    let copies = copied_lines(alloc, lines)?;
    match Picture::new(alloc, copies) {
        Ok(picture) => Ok(picture),
        Err(PictureFault::Memory) => Err(AllocError),
        Err(PictureFault::DecimalField) => unreachable!(),
    }
}

fn resolve_exchange(scope: Scope<'_>, exchange: &Exchange) -> Result<Place, AllocError>
    requires { has_wrong_picture
        (written.Simply (simple.Exchanges (view.exchange_view exchange.now)))
        ≡ false }
    ensures { IfOk result
        (λ x. x ≡ in_scope scope.entry resolved.resolved_exchange
        (view.exchange_view exchange.now)) }
{
    match exchange {
        Exchange::Read(targets) => Ok(Place::Read(resolve_several_targets(scope, targets)?)),
        Exchange::Print {
            count,
            values,
            picture,
        } => {
            let output = Output::Print {
                count: *count,
                values: resolve_values(scope, values)?,
                picture: resolve_picture(scope.alloc, picture)?,
            };
            Ok(Place::Output(Boxed::new(scope.alloc, output)?))
        }
        Exchange::Skip(lines) => {
            let output = Output::Skip(resolve_expr(scope, lines)?);
            Ok(Place::Output(Boxed::new(scope.alloc, output)?))
        }
    }
}
