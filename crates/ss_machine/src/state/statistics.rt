//! The statistics that a COMPUTE gathers case by case.

ghost use Rattle.std.specs.Prelude.{◌≡◌, MatchBool};
ghost use Rattle.ss_state.specs.Statements.Looping as steps;
ghost use Rattle.ss_state.specs.State as states;

use ss_program::Statistic;
use ss_values::sum;
use ss_words::RunFault;
use std::marker::Model;

/// The values gathered by a COMPUTE: how many, their sum, the greatest and the least; all 0 over no
/// case.
#[derive(Clone, Copy)]
pub struct Statistics {
    pub number: i64,
    pub sum: i64,
    pub greatest: i64,
    pub least: i64,
}

impl Model for Statistics {
    ghost use Rattle.ss_state.specs.State.{Statistics};

    ghost Value = { Statistics };

    ghost view = { λ a. record {
      number = a.number;
      sum = a.sum;
      greatest = a.greatest;
      least = a.least;
    } };

    ghost inverse = { λ g. record {
      number = g.number;
      sum = g.sum;
      greatest = g.greatest;
      least = g.least;
    } };
}

impl Statistics {
    /// Whether these are the statistics over no case.
    #[inline(always)]
    pub fn are_none(&self) -> bool
        ensures { MatchBool result (self.now ≡ states.no_statistics) (Unit {0}) }
    {
        self.number == 0 && self.sum == 0 && self.greatest == 0 && self.least == 0
    }
}

/// The statistics over no case.
#[inline(always)]
pub fn no_statistics() -> Statistics
    ensures { result ≡ states.no_statistics }
{
    Statistics {
        number: 0,
        sum: 0,
        greatest: 0,
        least: 0,
    }
}

/// The statistics with one value more, or F1.
pub fn statistics_with(g: Statistics, x: i64) -> Result<Statistics, RunFault>
    ensures { result ≡ steps.statistics_with g x }
{
    let number = sum(g.number, 1)?;
    let total = sum(g.sum, x)?;
    Ok(Statistics {
        number,
        sum: total,
        greatest: greatest_with(g, x),
        least: least_with(g, x),
    })
}

fn greatest_with(g: Statistics, x: i64) -> i64
    ensures { result ≡ steps.greatest_with g x }
{
    if 0 < g.number { g.greatest.max(x) } else { x }
}

fn least_with(g: Statistics, x: i64) -> i64
    ensures { result ≡ steps.least_with g x }
{
    if 0 < g.number { g.least.min(x) } else { x }
}

/// One of the statistics.
pub fn statistic_value(g: Statistics, statistic: Statistic) -> i64
    ensures { result ≡ steps.statistic_value g statistic }
{
    match statistic {
        Statistic::Number => g.number,
        Statistic::Sum => g.sum,
        Statistic::Maximum => g.greatest,
        Statistic::Minimum => g.least,
    }
}
