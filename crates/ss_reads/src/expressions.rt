//! What expressions and conditions look at, in written order.
ghost use Rattle.std.specs.Prelude.{◌≡◌, ◌++◌, OnOk, IfOk};
ghost use Rattle.ss_program.specs.ProgramExpr.{expr_of, term_of, factor_of, subscript_of, arguments_of};
ghost use Rattle.ss_program.specs.ProgramCondition.{condition_of, conjunction_of, relation_of};
ghost use Rattle.ss_program.specs.ProgramSound.{IsSoundExpr, IsSoundTerm, IsSoundFactor, IsSoundSubscript};
ghost use Rattle.ss_program.specs.ProgramSound.{AreSoundArguments, IsSoundSetRef, IsSoundCondition};
ghost use Rattle.ss_program.specs.ProgramSound.{IsSoundConjunction, IsSoundRelation};
ghost use Rattle.ss_reads.specs.Scenes.{InScene, IsSoundScene};
ghost use Rattle.ss_reads.specs.SceneView.{scene_of};
ghost use Rattle.ss_reads.specs.Expressions.{variable_reads, selected_read, item_reads, subscript_reads, expr_reads};
ghost use Rattle.ss_reads.specs.Expressions.{term_reads, factor_reads, exprs_reads, list_reads, condition_reads};
ghost use Rattle.ss_reads.specs.Expressions.{conjunction_reads, relation_reads};

use crate::evaluation::subscript_value;
use crate::part::{Item, Part};
use crate::read::{Read, Reference};
use crate::scene::{Scene, is_given};
use crate::written::push_reference;
use ss_links::SetBoard;
use ss_program::{
    Arguments, Condition, Conjunction, Disjunction, Expr, Factor, Relation, SetRef, Subscript, Sum,
    Term, Variable,
};
use std::alloc::AllocError;

/// Looks at a variable, unless it is the one that has another value.
pub fn see_variable<S: SetBoard>(
    scene: &Scene<'_, S>,
    reads: &mut Vec<Read>,
    variable: Variable,
) -> Result<(), AllocError>
    requires scene { IsSoundScene (scene_of scene.now) }
    ensures { OnOk result (reads.new.items
        ≡ reads.old.items ++ variable_reads (scene_of scene.now) variable) }
{
    if is_given(scene, variable) {
        return Ok(());
    }
    reads.push(Read::Part(Part::Variable(variable)))?;
    Ok(())
}

/// What an item with this subscript is.
fn read_of<S: SetBoard>(
    scene: &Scene<'_, S>,
    reads: &Vec<Read>,
    item: Item,
    subscript: &Subscript,
) -> Result<Read, AllocError>
    requires scene { IsSoundScene (scene_of scene.now) }
    requires sound { InScene (scene_of scene.now) IsSoundSubscript
        (subscript_of subscript.now) }
    ensures { IfOk result (λ read. read ≡ selected_read (scene_of scene.now) item
        (subscript_of subscript.now)) }
{
    match subscript_value(scene, subscript) {
        Ok(entity) => Ok(Read::Part(Part::Of(item, entity))),
        Err(_) => {
            let mut text = Vec::new(*reads.allocator());
            let (section, _) = scene.machine.place();
            let program = scene.machine.program();
            push_reference(&mut text, program, section, item, subscript)?;
            Ok(Read::Unvalued(Reference { text }))
        }
    }
}

/// Looks at an item with a subscript, then at what the subscript names.
#[cycle(expressions)]
pub fn see_item<S: SetBoard>(
    scene: &Scene<'_, S>,
    reads: &mut Vec<Read>,
    item: Item,
    subscript: &Subscript,
) -> Result<(), AllocError>
    requires scene { IsSoundScene (scene_of scene.now) }
    requires sound { InScene (scene_of scene.now) IsSoundSubscript
        (subscript_of subscript.now) }
    ensures { OnOk result (reads.new.items ≡ reads.old.items
        ++ item_reads (scene_of scene.now) item (subscript_of subscript.now)) }
{
    let read = read_of(scene, reads, item, subscript)?;
    reads.push(read)?;
    see_subscript(scene, reads, subscript)
}

/// Looks at what a subscript names. Without one the variable of the class is named.
#[cycle(expressions)]
pub fn see_subscript<S: SetBoard>(
    scene: &Scene<'_, S>,
    reads: &mut Vec<Read>,
    subscript: &Subscript,
) -> Result<(), AllocError>
    requires scene { IsSoundScene (scene_of scene.now) }
    requires sound { InScene (scene_of scene.now) IsSoundSubscript (subscript_of subscript.now) }
    ensures { OnOk result (reads.new.items
        ≡ reads.old.items ++ subscript_reads (scene_of scene.now) (subscript_of subscript.now)) }
{
    match subscript {
        Subscript::Implied(number) => see_variable(scene, reads, Variable::Global(*number)),
        Subscript::System => Ok(()),
        Subscript::Written(e) => see_sum(scene, reads, e),
    }
}

#[cycle(expressions)]
fn see_sum<S: SetBoard>(
    scene: &Scene<'_, S>,
    reads: &mut Vec<Read>,
    e: &Sum,
) -> Result<(), AllocError>
    requires scene { IsSoundScene (scene_of scene.now) }
    requires sound { InScene (scene_of scene.now) IsSoundExpr (expr_of e.now) }
    ensures { OnOk result (reads.new.items
        ≡ reads.old.items ++ expr_reads (scene_of scene.now) (expr_of e.now)) }
{
    see_term(scene, reads, &e.first)?;
    for further in &e.more {
        see_term(scene, reads, &further.term)?;
    }
    Ok(())
}

#[cycle(expressions)]
fn see_term<S: SetBoard>(
    scene: &Scene<'_, S>,
    reads: &mut Vec<Read>,
    t: &Term,
) -> Result<(), AllocError>
    requires scene { IsSoundScene (scene_of scene.now) }
    requires sound { InScene (scene_of scene.now) IsSoundTerm (term_of t.now) }
    ensures { OnOk result (reads.new.items
        ≡ reads.old.items ++ term_reads (scene_of scene.now) (term_of t.now)) }
{
    see_factor(scene, reads, &t.first)?;
    for further in &t.more {
        see_factor(scene, reads, further)?;
    }
    Ok(())
}

#[cycle(expressions)]
fn see_factor<S: SetBoard>(
    scene: &Scene<'_, S>,
    reads: &mut Vec<Read>,
    f: &Factor,
) -> Result<(), AllocError>
    requires scene { IsSoundScene (scene_of scene.now) }
    requires sound { InScene (scene_of scene.now) IsSoundFactor (factor_of f.now) }
    ensures { OnOk result (reads.new.items
        ≡ reads.old.items ++ factor_reads (scene_of scene.now) (factor_of f.now)) }
{
    match f {
        Factor::Number(_) => Ok(()),
        Factor::Variable(x) => see_variable(scene, reads, *x),
        Factor::Absolute(e) | Factor::Within(e) => see_sum(scene, reads, e),
        Factor::Greatest(arguments) | Factor::Least(arguments) => {
            see_arguments(scene, reads, arguments)
        }
        Factor::Quotient(x, y) | Factor::Remainder(x, y) => {
            see_sum(scene, reads, x)?;
            see_sum(scene, reads, y)
        }
        Factor::Attribute { class, attribute } => {
            let item = Item::Attribute {
                class: *class,
                attribute: attribute.number,
            };
            see_item(scene, reads, item, &attribute.subscript)
        }
        Factor::OwnerKept { kept, set } => {
            let item = Item::OwnerKept {
                kept: *kept,
                set: set.number,
            };
            see_item(scene, reads, item, &set.subscript)
        }
        Factor::MemberKept { kept, set } => {
            let item = Item::MemberKept {
                kept: *kept,
                set: set.number,
            };
            see_item(scene, reads, item, &set.subscript)
        }
    }
}

#[cycle(expressions)]
fn see_arguments<S: SetBoard>(
    scene: &Scene<'_, S>,
    reads: &mut Vec<Read>,
    arguments: &Arguments,
) -> Result<(), AllocError>
    requires scene { IsSoundScene (scene_of scene.now) }
    requires first { InScene (scene_of scene.now) IsSoundExpr
        (arguments_of arguments.now).0 }
    requires more { InScene (scene_of scene.now) AreSoundArguments
        (arguments_of arguments.now).1 }
    ensures { OnOk result (reads.new.items ≡ reads.old.items
        ++ (expr_reads (scene_of scene.now) (arguments_of arguments.now).0
        ++ exprs_reads (scene_of scene.now) (arguments_of arguments.now).1)) }
{
    see_sum(scene, reads, &arguments.first)?;
    for further in &arguments.more {
        see_sum(scene, reads, further)?;
    }
    Ok(())
}

/// Looks at what an expression names.
pub fn see_expression<S: SetBoard>(
    scene: &Scene<'_, S>,
    reads: &mut Vec<Read>,
    e: &Expr,
) -> Result<(), AllocError>
    requires scene { IsSoundScene (scene_of scene.now) }
    requires sound { InScene (scene_of scene.now) IsSoundExpr e.now }
    ensures { OnOk result (reads.new.items
        ≡ reads.old.items ++ expr_reads (scene_of scene.now) e.now) }
{
    see_sum(scene, reads, e.sum())
}

/// Looks at a list, then at what the subscript of its owner names.
pub fn see_list<S: SetBoard>(
    scene: &Scene<'_, S>,
    reads: &mut Vec<Read>,
    list: &SetRef,
) -> Result<(), AllocError>
    requires scene { IsSoundScene (scene_of scene.now) }
    requires sound { InScene (scene_of scene.now) IsSoundSetRef list.now }
    ensures { OnOk result (reads.new.items
        ≡ reads.old.items ++ list_reads (scene_of scene.now) list.now) }
{
    let item = Item::Members { set: list.set };
    see_item(scene, reads, item, &list.owner.subscript)
}

/// Looks at what a condition names, also after AND and OR.
pub fn see_condition<S: SetBoard>(
    scene: &Scene<'_, S>,
    reads: &mut Vec<Read>,
    c: &Condition,
) -> Result<(), AllocError>
    requires scene { IsSoundScene (scene_of scene.now) }
    requires sound { InScene (scene_of scene.now) IsSoundCondition c.now }
    ensures { OnOk result (reads.new.items
        ≡ reads.old.items ++ condition_reads (scene_of scene.now) c.now) }
{
    see_any(scene, reads, &c.any)
}

#[cycle(conditions)]
fn see_any<S: SetBoard>(
    scene: &Scene<'_, S>,
    reads: &mut Vec<Read>,
    c: &Disjunction,
) -> Result<(), AllocError>
    requires scene { IsSoundScene (scene_of scene.now) }
    requires sound { InScene (scene_of scene.now) IsSoundCondition (condition_of c.now) }
    ensures { OnOk result (reads.new.items
        ≡ reads.old.items ++ condition_reads (scene_of scene.now) (condition_of c.now)) }
{
    see_all(scene, reads, &c.first)?;
    for further in &c.more {
        see_all(scene, reads, further)?;
    }
    Ok(())
}

#[cycle(conditions)]
fn see_all<S: SetBoard>(
    scene: &Scene<'_, S>,
    reads: &mut Vec<Read>,
    c: &Conjunction,
) -> Result<(), AllocError>
    requires scene { IsSoundScene (scene_of scene.now) }
    requires sound { InScene (scene_of scene.now) IsSoundConjunction (conjunction_of c.now) }
    ensures { OnOk result (reads.new.items
        ≡ reads.old.items ++ conjunction_reads (scene_of scene.now) (conjunction_of c.now)) }
{
    see_relation(scene, reads, &c.first)?;
    for further in &c.more {
        see_relation(scene, reads, further)?;
    }
    Ok(())
}

#[cycle(conditions)]
fn see_relation<S: SetBoard>(
    scene: &Scene<'_, S>,
    reads: &mut Vec<Read>,
    r: &Relation,
) -> Result<(), AllocError>
    requires scene { IsSoundScene (scene_of scene.now) }
    requires sound { InScene (scene_of scene.now) IsSoundRelation (relation_of r.now) }
    ensures { OnOk result (reads.new.items
        ≡ reads.old.items ++ relation_reads (scene_of scene.now) (relation_of r.now)) }
{
    match r {
        Relation::Compared { left, right, .. } => {
            see_expression(scene, reads, left)?;
            see_expression(scene, reads, right)
        }
        Relation::IsEmpty { set, .. } => see_list(scene, reads, set),
        Relation::IsIn { member, set, .. } => {
            see_expression(scene, reads, member)?;
            see_list(scene, reads, set)
        }
        Relation::Within(c) => see_any(scene, reads, c),
    }
}
