//! Which entity a statement names first of those that are missing.
ghost use Rattle.std.specs.Prelude.{◌≡◌, map};
ghost use Rattle.ss_program.specs.ProgramCondition.{any, condition_of, conjunction_of, conjunctions_of, relation_of};
ghost use Rattle.ss_faults.specs.Missing as spec;

use crate::reading::{attribute_told, entity_told, expression_told, index_told, owner_told};
use crate::told::Told;
use ss_links::SetBoard;
use ss_machine::Machine;
use ss_program::{
    Assign, Branch, Condition, Conjunction, Disjunction, Expr, Filing, Listing, Looping, Making,
    Notice, Output, OwnerKept, Place, Position, Question, Relation, Schedule, SetRef, Target,
    Targets, Timing, Values, When,
};

/// A variable, or the entity of an attribute.
fn target_told<S: SetBoard>(machine: &Machine<S>, target: &Target) -> Told
    ensures { result
        ≡ spec.target_told machine.now.input.program machine.now.state target.now }
{
    match target {
        Target::Variable(_) => Told::Untold,
        Target::Attribute {
            class,
            attribute,
            index,
        } => {
            match index_told(machine, index) {
                Told::Value(number) => attribute_told(machine, *class, *attribute, number),
                Told::Missing { class, number } => Told::Missing { class, number },
                _ => Told::Unclear,
            }
        }
    }
}

/// Expressions, after others.
fn values_told<S: SetBoard>(machine: &Machine<S>, before: Told, values: &Values) -> Told
    ensures { result
        ≡ spec.values_told machine.now.input.program machine.now.state before values.now }
{
    let mut told = before;
    for value in &values.list {
        told = told.and(expression_told(machine, value));
    }
    told
}

/// The entity of a class that an expression names.
fn named_told<S: SetBoard>(machine: &Machine<S>, class: usize, e: &Expr) -> Told
    ensures { result
        ≡ spec.named_told machine.now.input.program machine.now.state class e.now }
{
    match expression_told(machine, e) {
        Told::Value(number) => entity_told(machine, class, number),
        Told::Missing { class, number } => Told::Missing { class, number },
        _ => Told::Unclear,
    }
}

/// The owner of a list.
fn list_told<S: SetBoard>(machine: &Machine<S>, list: &SetRef) -> Told
    ensures { result
        ≡ spec.list_told machine.now.input.program machine.now.state list.now }
{
    match index_told(machine, &list.owner) {
        Told::Value(number) => owner_told(machine, OwnerKept::Count, list.set, number),
        Told::Missing { class, number } => Told::Missing { class, number },
        _ => Told::Unclear,
    }
}

fn assign_told<S: SetBoard>(machine: &Machine<S>, assign: &Assign) -> Told
    ensures { result
        ≡ spec.assign_told machine.now.input.program machine.now.state assign.now }
{
    match assign {
        Assign::Let { target, value, .. }
        | Assign::Add { value, target }
        | Assign::Subtract { value, target } => {
            expression_told(machine, value).and(target_told(machine, target))
        }
    }
}

fn making_told<S: SetBoard>(machine: &Machine<S>, making: &Making) -> Told
    ensures { result
        ≡ spec.making_told machine.now.input.program machine.now.state making.now }
{
    match making {
        Making::Create { .. } => Told::Unclear,
        Making::CreateEvery { number: None, .. } => Told::Untold,
        Making::CreateEvery {
            number: Some(e),
            ..
        } => expression_told(machine, e),
        Making::Destroy { class, entity, .. } => named_told(machine, *class, entity),
    }
}

/// The member that BEFORE or AFTER names.
fn position_told<S: SetBoard>(machine: &Machine<S>, position: &Position) -> Told
    ensures { result
        ≡ spec.position_told machine.now.input.program machine.now.state position.now }
{
    match position {
        Position::ByRule | Position::AtEnd(_) => Told::Untold,
        Position::Before(e) | Position::After(e) => expression_told(machine, e),
    }
}

/// That member, as an entity of a class.
fn placed_told<S: SetBoard>(machine: &Machine<S>, class: usize, position: &Position) -> Told
    ensures { result
        ≡ spec.placed_told machine.now.input.program machine.now.state class position.now }
{
    match position {
        Position::ByRule | Position::AtEnd(_) => Told::Untold,
        Position::Before(e) | Position::After(e) => named_told(machine, class, e),
    }
}

/// A member and a list: the values of their subscripts, then the owner, then the member.
fn filed_told<S: SetBoard>(
    machine: &Machine<S>,
    member: &Expr,
    between: Told,
    list: &SetRef,
) -> Told
    ensures { result ≡ spec.filed_told machine.now.input.program machine.now.state member.now
        between list.now }
{
    let values = expression_told(machine, member).and(between);
    let class = machine.program().member_class(list.set);
    values
        .and(list_told(machine, list))
        .and(named_told(machine, class, member))
}

fn filing_told<S: SetBoard>(machine: &Machine<S>, filing: &Filing) -> Told
    ensures { result
        ≡ spec.filing_told machine.now.input.program machine.now.state filing.now }
{
    match filing {
        Filing::File {
            member,
            position,
            set,
        } => {
            let between = position_told(machine, position);
            let class = machine.program().member_class(set.set);
            filed_told(machine, member, between, set).and(placed_told(machine, class, position))
        }
        Filing::FileAt { member, set, .. } => filed_told(machine, member, Told::Untold, set),
        Filing::RemoveAt { set, .. } => list_told(machine, set),
        Filing::Remove { member, set } => filed_told(machine, member, Told::Untold, set),
    }
}

fn output_told<S: SetBoard>(machine: &Machine<S>, output: &Output) -> Told
    ensures { result
        ≡ spec.output_told machine.now.input.program machine.now.state output.now }
{
    match output {
        Output::Print { values, .. } => values_told(machine, Told::Untold, values),
        Output::Skip(e) => expression_told(machine, e),
    }
}

fn relation_told<S: SetBoard>(machine: &Machine<S>, relation: &Relation) -> Told
    ensures { result ≡ spec.relation_told machine.now.input.program machine.now.state
        (relation_of relation.now) }
{
    match relation {
        Relation::Compared { left, right, .. } => {
            expression_told(machine, left).and(expression_told(machine, right))
        }
        Relation::IsEmpty { set, .. } => list_told(machine, set),
        Relation::IsIn { member, set, .. } => filed_told(machine, member, Told::Untold, set),
        Relation::Within(_) => Told::Unclear,
    }
}

/// Relations joined by AND: the fault is in one of them, and those before it hold.
fn conjunction_told<S: SetBoard>(machine: &Machine<S>, conjunction: &Conjunction) -> Told
    ensures { result ≡ spec.conjunction_told machine.now.input.program machine.now.state
        (conjunction_of conjunction.now) }
{
    let mut told = relation_told(machine, &conjunction.first);
    for further in &conjunction.more {
        told = told.and(relation_told(machine, further));
    }
    told
}

/// The first relation of a conjunction.
fn first_told<S: SetBoard>(machine: &Machine<S>, conjunction: &Conjunction) -> Told
    ensures { result ≡ spec.first_told machine.now.input.program machine.now.state
        (conjunction_of conjunction.now) }
{
    relation_told(machine, &conjunction.first)
}

/// A condition: with OR only its first relation, since those after it may have been passed over.
#[tactic(auto, using(crate::proofs::Conditions::conditions))]
fn alternatives_told<S: SetBoard>(
    machine: &Machine<S>,
    first: &Conjunction,
    more: &[Conjunction],
) -> Told
    ensures { result ≡ spec.condition_told machine.now.input.program machine.now.state
        (any (conjunction_of first.now) (conjunctions_of (map conjunction_of more.now))) }
{
    match more {
        [] => conjunction_told(machine, first),
        [_, ..] => first_told(machine, first),
    }
}

fn disjunction_told<S: SetBoard>(machine: &Machine<S>, condition: &Disjunction) -> Told
    ensures { result ≡ spec.condition_told machine.now.input.program machine.now.state
        (condition_of condition.now) }
{
    alternatives_told(machine, &condition.first, &condition.more)
}

fn condition_told<S: SetBoard>(machine: &Machine<S>, condition: &Condition) -> Told
    ensures { result
        ≡ spec.condition_told machine.now.input.program machine.now.state condition.now }
{
    disjunction_told(machine, &condition.any)
}

fn branch_told<S: SetBoard>(machine: &Machine<S>, branch: &Branch) -> Told
    ensures { result
        ≡ spec.branch_told machine.now.input.program machine.now.state branch.now }
{
    match branch {
        Branch::If(Question::Whether(condition)) => condition_told(machine, condition),
        Branch::If(Question::WasFound | Question::WasNone) => Told::Unclear,
        Branch::Else | Branch::Always => Told::Unclear,
    }
}

fn looping_told<S: SetBoard>(machine: &Machine<S>, looping: &Looping) -> Told
    ensures { result
        ≡ spec.looping_told machine.now.input.program machine.now.state looping.now }
{
    match looping {
        Looping::Gather(e) => expression_told(machine, e.value()),
        Looping::For(_) | Looping::Loop | Looping::Find | Looping::Tell(_) => Told::Unclear,
    }
}

/// The value that names the notice of THE.
fn notice_value_told<S: SetBoard>(machine: &Machine<S>, notice: &Notice) -> Told
    ensures { result
        ≡ spec.notice_value_told machine.now.input.program machine.now.state notice.now }
{
    match notice {
        Notice::New { .. } => Told::Untold,
        Notice::Known { notice: e, .. } => expression_told(machine, e),
    }
}

/// That notice; A makes one.
fn notice_told<S: SetBoard>(machine: &Machine<S>, class: usize, notice: &Notice) -> Told
    ensures { result
        ≡ spec.notice_told machine.now.input.program machine.now.state class notice.now }
{
    match notice {
        Notice::New { .. } => Told::Unclear,
        Notice::Known { notice: e, .. } => named_told(machine, class, e),
    }
}

/// The arguments and the value that names the notice, as they are written.
fn listing_told<S: SetBoard>(
    machine: &Machine<S>,
    listing: Listing,
    notice: &Notice,
    arguments: &Values,
) -> Told
    ensures { result ≡ spec.listing_told machine.now.input.program machine.now.state listing
        notice.now arguments.now }
{
    let named = notice_value_told(machine, notice);
    match listing {
        Listing::InParentheses => values_told(machine, Told::Untold, arguments).and(named),
        Listing::Given => values_told(machine, named, arguments),
    }
}

fn when_told<S: SetBoard>(machine: &Machine<S>, when: &When) -> Told
    ensures { result ≡ spec.when_told machine.now.input.program machine.now.state when.now }
{
    match when {
        When::At(e) | When::In(e) => expression_told(machine, e),
        When::Now => Told::Untold,
    }
}

fn schedule_told<S: SetBoard>(machine: &Machine<S>, schedule: &Schedule) -> Told
    ensures { result
        ≡ spec.schedule_told machine.now.input.program machine.now.state schedule.now }
{
    let notice = &schedule.notice;
    listing_told(machine, schedule.listing, notice, &schedule.arguments)
        .and(when_told(machine, &schedule.when))
        .and(notice_told(machine, schedule.class, notice))
}

fn timing_told<S: SetBoard>(machine: &Machine<S>, timing: &Timing) -> Told
    ensures { result
        ≡ spec.timing_told machine.now.input.program machine.now.state timing.now }
{
    match timing {
        Timing::Schedule(schedule) => schedule_told(machine, schedule),
        Timing::Cancel { class, notice, .. } => named_told(machine, *class, notice),
        Timing::Start => Told::Unclear,
    }
}

/// The first target of a READ, since a further one is assigned after it.
fn read_told<S: SetBoard>(machine: &Machine<S>, targets: &Targets) -> Told
    ensures { result
        ≡ spec.read_told machine.now.input.program machine.now.state targets.now }
{
    match targets.list.first() {
        None => Told::Unclear,
        Some(target) => target_told(machine, target),
    }
}

/// The entity that a statement names first of those that are missing, as far as it is known.
pub fn place_told<S: SetBoard>(machine: &Machine<S>, place: &Place) -> Told
    ensures { result
        ≡ spec.place_told machine.now.input.program machine.now.state place.now }
{
    match place {
        Place::Assign(assign) => assign_told(machine, assign),
        Place::Making(making) => making_told(machine, making.value()),
        Place::Filing(filing) => filing_told(machine, filing.value()),
        Place::Output(output) => output_told(machine, output.value()),
        Place::Control(_) => Told::Unclear,
        Place::Branch(branch) => branch_told(machine, branch),
        Place::Looping(looping) => looping_told(machine, looping),
        Place::Call(call) => values_told(machine, Told::Untold, &call.value().given),
        Place::Timing(timing) => timing_told(machine, timing.value()),
        Place::Read(targets) => read_told(machine, targets),
    }
}
