//! Runs that nothing stands against.

ghost use Rattle.run_laws.specs.Complete.{MakingsAreWhole, RunsAreWhole};

use dasd_pool::Pool;

/// A run whose words agree, whose texts and journal are right, and of which nothing fails, ends with the greatest code of its statements, unless memory runs
/// out. One that is to make a journal, that nothing stands against and of which nothing fails, makes it, unless memory runs out.
pub fn run_laws<P: Pool>()
    ensures texts { RunsAreWhole P.Pool }
    ensures makings { MakingsAreWhole P.Pool }
{}
