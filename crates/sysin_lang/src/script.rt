//! A text that was read, and which command of it runs next.

ghost use Rattle.std.specs.Prelude.{◌≡◌, ◌≤◌, ◌<◌, ◌+◌, ◌^◌, drop, length, get_or};
ghost use Rattle.sysin_lang.specs.Flow.{Done, next_of, answered};
ghost use Rattle.sysin_lang.specs.Script.{first_plan, plans_at, plans_of, plan_of, plan_of_script, left_of, codes_of, IsNoCommand, Gives};

use crate::command::Statement;
use crate::flow::{Flow, compares};
use by_rules::Op;
use ckd_image::Listed;
use sysin_words::Which;

/// A statement, or a bracket of one: between an `If` and its `Else` stands what runs where the comparison holds, and from there to its `End`
/// what runs otherwise.
#[derive(Debug, Drop)]
pub enum Step {
    Run(Statement),
    Set(Which, u8),
    If(Which, Op, u8),
    Else,
    End,
}

/// A SYSIN text that was read.
#[derive(Debug, Drop)]
pub struct Script {
    steps: Listed<Step>,
}

impl Script {
    /// The script of these steps.
    pub fn of(steps: Listed<Step>) -> Script
        ensures { plan_of_script result ≡ plan_of steps }
    {
        Script { steps }
    }

    /// Its steps, in the order of the text.
    pub fn steps(&self) -> &[Step]
        ensures { plan_of result.now ≡ plan_of_script self.now }
    {
        self.steps.as_slice()
    }

    /// The next command to run, and none at the end.
    pub fn next(&self, flow: &mut Flow) -> Option<&Statement>
        ensures { Gives (next_of (left_of self.now flow.old) (codes_of flow.old)) result (left_of self.now flow.new) (codes_of flow.new) }
    {
        next_step(self.steps.as_slice(), flow)
    }

    /// The command that was given last has answered a code.
    pub fn after(&self, flow: &mut Flow, code: u8)
        ensures codes { codes_of flow.new ≡ answered code (codes_of flow.old) }
        ensures left { left_of self.now flow.new ≡ left_of self.now flow.old }
    {
        flow.lastcc = code;
        flow.maxcc = flow.maxcc.max(code);
    }
}

fn next_step<'a>(steps: &'a [Step], flow: &mut Flow) -> Option<&'a Statement>
    ensures { Gives (next_of (plan_of (drop flow.old.place steps.now)) (codes_of flow.old)) result (plan_of (drop flow.new.place steps.now)) (codes_of flow.new) }
{
    'steps: while flow.place < steps.len() {
        let step = &steps[flow.place];
        flow.place += 1;
        match step {
            Step::Run(statement) => return Some(statement),
            _ => pass(steps, step, flow),
        }
    }
    None
}

/// Passes a step that is no command, behind which the flow stands.
fn pass(steps: &[Step], step: &Step, flow: &mut Flow)
    requires place { flow.old.place ≤ length steps.now }
    requires step { IsNoCommand step.now }
    ensures from { flow.old.place ≤ flow.new.place }
    ensures within { flow.new.place ≤ length steps.now }
    ensures next { next_of (plan_of (drop flow.new.place steps.now)) (codes_of flow.new) ≡ next_of (first_plan (plans_at step.now (plans_of (drop flow.old.place steps.now)))) (codes_of flow.old) }
{
    match step {
        Step::Set(which, code) => flow.set(*which, *code),
        Step::If(which, op, code) => {
            if !compares(*op, flow.code(*which), *code) {
                flow.place = behind_part(steps, flow.place);
            }
        }
        Step::Else => flow.place = behind_part(steps, flow.place),
        _ => {}
    }
}

/// The place behind the bracket that ends what stands here.
fn behind_part(steps: &[Step], place: usize) -> usize
    requires { place ≤ length steps.now }
    ensures from { place ≤ result }
    ensures within { result ≤ length steps.now }
    ensures behind { plan_of (drop result steps.now) ≡ get_or (plans_of (drop place steps.now)) 1 Done }
{
    let mut ends = 1;
    let mut place = place;
    'ends: while ends > 0 && place < steps.len() {
        ends = ends_behind(&steps[place], ends);
        place += 1;
    }
    place
}

/// How many brackets end what stands behind a step, where so many end what stands from it on.
fn ends_behind(step: &Step, ends: usize) -> usize
    requires some { 0 < ends }
    requires room { ends + 2 < 2 ^ 64 }
    ensures { result ≡ Rattle.sysin_lang.specs.Script.ends_behind step.now ends }
{
    match step {
        Step::If(..) => ends + 2,
        Step::Else | Step::End => ends - 1,
        _ => ends,
    }
}
