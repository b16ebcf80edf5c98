//! The values of the trees of expressions.
ghost use Rattle.std.specs.Prelude.{◌≡◌, ◌<◌, ℤ, pos, neg_ℤ, ◌+ℤ◌, ◌-ℤ◌, ◌*ℤ◌, unsigned_abs, length, Ok};
ghost use Rattle.ss_program.specs.ProgramExpr.{expr_of, arguments_of, term_of, factor_of, subscript_of};
ghost use Rattle.ss_program.specs.ProgramExpr as tree;
ghost use Rattle.ss_program.specs.ProgramSound.{IsSoundExpr, IsSoundTerm, IsSoundFactor, IsSoundSubscript};
ghost use Rattle.ss_program.specs.ProgramSound.{AreSoundArguments};
ghost use Rattle.ss_store.specs.Tables.{tables_of};
ghost use Rattle.ss_values.specs.Values.{result_in_range, with_sign, sum_or_difference, value_of};
ghost use Rattle.ss_values.specs.Values as terms;
ghost use Rattle.ss_state.specs.Readings.{readings};
ghost use Rattle.ss_reads.specs.Scenes.{sources, InScene, IsSoundScene};
ghost use Rattle.ss_reads.specs.SceneView.{scene_of};

use crate::scene::{Scene, variable_value};
use ss_links::SetBoard;
use ss_machine::Machine;
use ss_program::{
    Arguments, Factor, MemberKept, OwnerKept, Subscript, Sum, Term, TermSign, Variable,
};
use ss_words::RunFault;

fn sum(x: i64, y: i64) -> Result<i64, RunFault>
    ensures { result ≡ result_in_range (x +ℤ y) }
{
    x.checked_add(y).ok_or(RunFault::OutOfRange)
}

fn difference(x: i64, y: i64) -> Result<i64, RunFault>
    ensures { result ≡ result_in_range (x -ℤ y) }
{
    x.checked_sub(y).ok_or(RunFault::OutOfRange)
}

fn product(x: i64, y: i64) -> Result<i64, RunFault>
    ensures { result ≡ result_in_range (x *ℤ y) }
{
    x.checked_mul(y).ok_or(RunFault::OutOfRange)
}

fn negation(x: i64) -> Result<i64, RunFault>
    ensures { result ≡ result_in_range (neg_ℤ x) }
{
    x.checked_neg().ok_or(RunFault::OutOfRange)
}

fn size(x: i64) -> Result<i64, RunFault>
    ensures { result ≡ result_in_range (pos (unsigned_abs x)) }
{
    x.checked_abs().ok_or(RunFault::OutOfRange)
}

fn quotient(x: i64, y: i64) -> Result<i64, RunFault>
    ensures { result ≡ terms.quotient_value x y }
{
    if y == 0 {
        return Err(RunFault::ZeroDivisor);
    }
    x.checked_div(y).ok_or(RunFault::OutOfRange)
}

fn remainder(x: i64, y: i64) -> Result<i64, RunFault>
    ensures { result ≡ terms.remainder_value x y }
{
    if y == 0 {
        return Err(RunFault::ZeroDivisor);
    }
    Ok(x.wrapping_rem(y))
}

fn number(n: u64) -> Result<i64, RunFault>
    ensures { result ≡ result_in_range (pos n) }
{
    i64::try_from(n).map_err(|_| RunFault::OutOfRange)
}

fn signed(sign: Option<TermSign>, x: i64) -> Result<i64, RunFault>
    ensures { result ≡ with_sign sign x }
{
    match sign {
        None | Some(TermSign::Plus) => Ok(x),
        Some(TermSign::Minus) => negation(x),
    }
}

fn join(sign: TermSign, x: i64, y: i64) -> Result<i64, RunFault>
    ensures { result ≡ sum_or_difference sign x y }
{
    match sign {
        TermSign::Plus => sum(x, y),
        TermSign::Minus => difference(x, y),
    }
}

fn number_or_none(member: Option<u32>) -> i64
    ensures { Ok result ≡ terms.number_or_none member }
{
    match member {
        None => 0,
        Some(number) => i64::from(number),
    }
}

/// `F.s`, `L.s` or `N.s` of a set for the owner that a value names.
#[tactic(auto, using(ss_debug::proofs::Tables::sets_kept))]
pub fn owner_kept<S: SetBoard>(
    machine: &Machine<S>,
    kept: OwnerKept,
    set: usize,
    owner: i64,
) -> Result<i64, RunFault>
    requires { set < length machine.now.input.program.sets }
    ensures { result ≡ terms.owner_kept_value
        (readings (tables_of machine.now.input.program) machine.now.state) kept set owner }
{
    machine.known();
    let store = machine.store();
    match kept {
        OwnerKept::First => Ok(number_or_none(store.walk_first(set, owner)?)),
        OwnerKept::Last => Ok(number_or_none(store.walk_last(set, owner)?)),
        OwnerKept::Count => Ok(i64::from(store.count(set, owner)?)),
    }
}

/// `P.s`, `S.s` or `M.s` of a set for the member that a value names.
#[tactic(auto, using(ss_debug::proofs::Tables::sets_kept))]
pub fn member_kept<S: SetBoard>(
    machine: &Machine<S>,
    kept: MemberKept,
    set: usize,
    member: i64,
) -> Result<i64, RunFault>
    requires { set < length machine.now.input.program.sets }
    ensures { result ≡ terms.member_kept_value
        (readings (tables_of machine.now.input.program) machine.now.state) kept set member }
{
    machine.known();
    let store = machine.store();
    match kept {
        MemberKept::Predecessor => Ok(number_or_none(store.predecessor(set, member)?)),
        MemberKept::Successor => Ok(number_or_none(store.successor(set, member)?)),
        MemberKept::Membership => Ok(i64::from(store.membership(set, member)?)),
    }
}

#[cycle(value)]
fn sum_value<S: SetBoard>(scene: &Scene<'_, S>, e: &Sum) -> Result<i64, RunFault>
    requires scene { IsSoundScene (scene_of scene.now) }
    requires sound { InScene (scene_of scene.now) IsSoundExpr (expr_of e.now) }
    ensures { result ≡ value_of (sources (scene_of scene.now)) (expr_of e.now) }
{
    let first = term_value(scene, &e.first)?;
    let mut total = signed(e.sign, first)?;
    for further in &e.more {
        let next = term_value(scene, &further.term)?;
        total = join(further.sign, total, next)?;
    }
    Ok(total)
}

#[cycle(value)]
fn term_value<S: SetBoard>(scene: &Scene<'_, S>, t: &Term) -> Result<i64, RunFault>
    requires scene { IsSoundScene (scene_of scene.now) }
    requires sound { InScene (scene_of scene.now) IsSoundTerm (term_of t.now) }
    ensures { result ≡ terms.term_value (sources (scene_of scene.now)) (term_of t.now) }
{
    let mut total = factor_value(scene, &t.first)?;
    for further in &t.more {
        let next = factor_value(scene, further)?;
        total = product(total, next)?;
    }
    Ok(total)
}

#[cycle(value)]
fn factor_value<S: SetBoard>(scene: &Scene<'_, S>, f: &Factor) -> Result<i64, RunFault>
    requires scene { IsSoundScene (scene_of scene.now) }
    requires sound { InScene (scene_of scene.now) IsSoundFactor (factor_of f.now) }
    ensures { result ≡ terms.factor_value (sources (scene_of scene.now)) (factor_of f.now) }
{
    match f {
        Factor::Number(n) => number(*n),
        Factor::Variable(x) => Ok(variable_value(scene, *x)),
        Factor::Absolute(e) => size(sum_value(scene, e)?),
        Factor::Greatest(arguments) => greatest_value(scene, arguments),
        Factor::Least(arguments) => least_value(scene, arguments),
        Factor::Quotient(dividend, divisor) => {
            let x = sum_value(scene, dividend)?;
            quotient(x, sum_value(scene, divisor)?)
        }
        Factor::Remainder(dividend, divisor) => {
            let x = sum_value(scene, dividend)?;
            remainder(x, sum_value(scene, divisor)?)
        }
        Factor::Attribute { class, attribute } => {
            let entity = subscript_value(scene, &attribute.subscript)?;
            scene.machine.store().get(*class, attribute.number, entity)
        }
        Factor::OwnerKept { kept, set } => {
            let owner = subscript_value(scene, &set.subscript)?;
            owner_kept(scene.machine, *kept, set.number, owner)
        }
        Factor::MemberKept { kept, set } => {
            let member = subscript_value(scene, &set.subscript)?;
            member_kept(scene.machine, *kept, set.number, member)
        }
        Factor::Within(e) => sum_value(scene, e),
    }
}

/// The number that a subscript means: without one that of the class's variable.
#[cycle(value)]
pub fn subscript_value<S: SetBoard>(
    scene: &Scene<'_, S>,
    subscript: &Subscript,
) -> Result<i64, RunFault>
    requires scene { IsSoundScene (scene_of scene.now) }
    requires sound { InScene (scene_of scene.now) IsSoundSubscript (subscript_of subscript.now) }
    ensures { result ≡ terms.subscript_value (sources (scene_of scene.now))
        (subscript_of subscript.now) }
{
    match subscript {
        Subscript::Implied(number) => Ok(variable_value(scene, Variable::Global(*number))),
        Subscript::System => Ok(0),
        Subscript::Written(e) => sum_value(scene, e),
    }
}

#[cycle(value)]
fn greatest_value<S: SetBoard>(scene: &Scene<'_, S>, arguments: &Arguments) -> Result<i64, RunFault>
    requires scene { IsSoundScene (scene_of scene.now) }
    requires first { InScene (scene_of scene.now) IsSoundExpr
        (arguments_of arguments.now).0 }
    requires more { InScene (scene_of scene.now) AreSoundArguments
        (arguments_of arguments.now).1 }
    ensures { result ≡ terms.factor_value (sources (scene_of scene.now))
        (tree.greatest (arguments_of arguments.now).0 (arguments_of arguments.now).1) }
{
    let mut greatest = sum_value(scene, &arguments.first)?;
    for further in &arguments.more {
        let next = sum_value(scene, further)?;
        greatest = greatest.max(next);
    }
    Ok(greatest)
}

#[cycle(value)]
fn least_value<S: SetBoard>(scene: &Scene<'_, S>, arguments: &Arguments) -> Result<i64, RunFault>
    requires scene { IsSoundScene (scene_of scene.now) }
    requires first { InScene (scene_of scene.now) IsSoundExpr
        (arguments_of arguments.now).0 }
    requires more { InScene (scene_of scene.now) AreSoundArguments
        (arguments_of arguments.now).1 }
    ensures { result ≡ terms.factor_value (sources (scene_of scene.now))
        (tree.least (arguments_of arguments.now).0 (arguments_of arguments.now).1) }
{
    let mut least = sum_value(scene, &arguments.first)?;
    for further in &arguments.more {
        let next = sum_value(scene, further)?;
        least = least.min(next);
    }
    Ok(least)
}
