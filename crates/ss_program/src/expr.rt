//! An expression as places hold it: its tree, and operations that are faster if it is linear.
ghost use Rattle.std.specs.Prelude.{◌≡◌, IfOk};
ghost use Rattle.ss_program.specs.ProgramExpr.{expr_of};
ghost use Rattle.ss_program.specs.Lowering.{code_of};

use crate::lowering::{is_plain, lower_sum};
use crate::op::Op;
use crate::sum::Sum;
use std::alloc::{AllocError, Global};
use std::marker::Model;

/// An expression of a place. If it is linear, it has its operations, too. Contracts see it as the
/// tree of its text, with variables in place of names.
#[derive(Drop)]
pub struct Expr {
    sum: Sum,
    // No operations if the tree is to be read.
    code: Vec<Op>,
}

impl Model for Expr {
    ghost use Rattle.std.specs.Prelude.{◌≡◌};
    ghost use Rattle.ss_program.specs.ProgramExpr.{Expr as Tree, expr_of};
    ghost use Rattle.ss_program.specs.ProgramExprCode.{expr_code};
    ghost use Rattle.ss_program.specs.Lowering.{code_of};

    ghost Value = { Tree };

    ghost coded = { expr_code };

    ghost view = { λ a. expr_of a.sum };

    ghost invariant = { λ a. a.code.items ≡ code_of (expr_of a.sum) };
}

impl Expr {
    /// The expression of a tree.
    pub fn new(alloc: Global, sum: Sum) -> Result<Expr, AllocError>
        ensures { IfOk result (λ e. e ≡ expr_of sum) }
    {
        let mut code = Vec::new(alloc);
        if !is_plain(&sum) && !lower_sum(&mut code, &sum)? {
            code.clear();
        }
        Ok(Expr { sum, code })
    }

    /// The tree.
    #[inline(always)]
    pub fn sum(&self) -> &Sum
        ensures { expr_of result.now ≡ self.now }
    {
        &self.sum
    }

    /// The operations that have the value of the expression. There are none if the expression is
    /// not linear, or is a single number or variable: that is read from the tree faster.
    #[inline(always)]
    pub fn code(&self) -> &[Op]
        ensures { result.now ≡ code_of self.now }
    {
        &self.code
    }
}

/// The expressions of a list, in order.
#[derive(Drop)]
pub struct Values {
    pub list: Vec<Expr>,
}

impl Model for Values {
    ghost use Rattle.std.specs.Prelude.{List};
    ghost use Rattle.std.specs.Coded.{coded_list};
    ghost use Rattle.ss_program.specs.ProgramExpr.{Expr as Tree};
    ghost use Rattle.ss_program.specs.ProgramExprCode.{expr_code};

    ghost Value = { List Tree };

    ghost coded = { coded_list expr_code };

    ghost view = { λ a. a.list.items };
}
