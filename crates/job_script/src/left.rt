//! What a run leaves.

use dump_fmt::OutDd;
use move_core::Step;
use run_lines::RunEnd;

/// The pool and the outputs as a run left them, the steps that were done, the step that was under way, and how the run ended.
#[derive(Drop)]
pub struct Left<P> {
    pub pool: P,
    pub outs: Vec<OutDd>,
    pub steps: Vec<Step>,
    pub pending: Option<Step>,
    pub end: RunEnd,
}
