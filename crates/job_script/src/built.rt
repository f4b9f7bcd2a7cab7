//! Whether a script has only commands that are built.

ghost use Rattle.std.specs.Prelude.{◌≡◌, ◌↔◌, ◌-◌, ◌<◌, List, drop, get_or, reverse, true, IsTrue, OnOk, IfOk};
ghost use Rattle.sysin_lang.specs.Script.{plan_of_script, plans_at};
ghost use Rattle.sysin_lang.specs.Flow.{Plan};
ghost use Rattle.job_script.specs.Built.{AreBuilt};
ghost use Rattle.job_script.specs.Backward.{TellPlans};

use ckd_image::NoMemory;
use job_ops::is_built;
use std::alloc::{AllocError, Global};
use sysin_lang::{Script, Step};

/// Takes the last answer; beyond the first one nothing may run, and so nothing that isn't built.
fn take(answers: &mut Vec<bool>) -> bool
    ensures answer { result ≡ get_or (reverse answers.old.items) 0 true }
    ensures others { reverse answers.new.items ≡ drop 1 (reverse answers.old.items) }
{
    answers.pop().unwrap_or(true)
}

/// The answer that is so many from behind, 1 for the last, or true where there are fewer.
fn last(answers: &[bool], behind: usize) -> bool
    requires { 0 < behind }
    ensures { result ≡ get_or (reverse answers.now) (behind - 1) true }
{
    match answers.len().checked_sub(behind) {
        Some(place) => answers[place],
        None => true,
    }
}

/// From the answers for what may run behind a step, and from behind each bracket that ends what it stands in, the last of them first, makes those
/// for the step.
fn step_back(answers: &mut Vec<bool>, step: &Step) -> Result<(), AllocError>
    ensures { OnOk result ((plans : List Plan) → TellPlans answers.old.items plans → TellPlans answers.new.items (plans_at step.now plans)) }
{
    let answer = match step {
        Step::Run(statement) => take(answers) && is_built(&statement.command),
        Step::Set(..) => take(answers),
        Step::If(..) => {
            let first = take(answers);
            let second = take(answers);
            let _behind = take(answers);
            first && second
        }
        Step::Else => last(answers, 2),
        Step::End => last(answers, 1),
    };
    Ok(answers.push(answer)?)
}

/// Whether all commands that may run of a script are built.
pub fn are_built(alloc: Global, script: &Script) -> Result<bool, NoMemory>
    ensures { IfOk result (λ built. IsTrue built ↔ AreBuilt (plan_of_script script.now)) }
{
    let steps = script.steps();
    let mut answers = Vec::new(alloc);
    let mut place = steps.len();
    'steps: while place > 0 {
        place -= 1;
        step_back(&mut answers, &steps[place])?;
    }
    Ok(last(&answers, 1))
}
