//! What is read in front of a statement.

ghost use Rattle.std.specs.Prelude.{◌≡◌, ◌+◌, ◌<◌, true, false, [], ◌∷◌, ◌++◌, IfOk, IfSome, IfNone};
ghost use Rattle.sysin_lang.specs.declared.script.Step.TheVariants as steps;
ghost use Rattle.sysin_read.specs.declared.outline.Frame.TheVariants as frames;
ghost use Rattle.sysin_read.specs.Reading.{open_in, IsFresh};
ghost use Rattle.sysin_read.specs.Why.{around, wants_else};
ghost use Rattle.sysin_read.specs.Progress.{closing, closing_to_else, behind_then, IsOutline};

use ckd_image::{Listed, NoMemory};
use std::alloc::Global;
use sysin_lang::Step;

/// What an IF or DO that isn't ended waits for.
#[derive(Clone, Copy, Debug, PartialEq, Eq)]
pub enum Frame {
    /// The end of the statement behind THEN, or ELSE.
    Then,
    /// The end of the statement behind ELSE.
    Else,
    /// END.
    Do,
}

/// The IFs and DOs that aren't ended, the innermost last; the steps of what is read; and how many commands these have.
#[derive(Drop)]
pub struct Outline {
    pub frames: Listed<Frame>,
    pub steps: Listed<Step>,
    pub commands: u32,
}

impl Outline {
    pub(crate) fn new(alloc: Global) -> Outline
        ensures { IsFresh result }
    {
        Outline {
            frames: Listed::new(alloc),
            steps: Listed::new(alloc),
            commands: 0,
        }
    }

    /// With one step more.
    pub(crate) fn with_step(self, step: Step) -> Result<Outline, NoMemory>
        ensures { IfOk result (λ new. IsOutline new (open_in self) (self.steps ++ step ∷ []) self.commands) }
    {
        let Outline {
            frames,
            mut steps,
            commands,
        } = self;
        steps.push(step)?;
        Ok(Outline {
            frames,
            steps,
            commands,
        })
    }

    /// Within one IF or DO more.
    pub(crate) fn with_frame(self, frame: Frame) -> Result<Outline, NoMemory>
        ensures { IfOk result (λ new. IsOutline new (frame ∷ open_in self) self.steps self.commands) }
    {
        let Outline {
            mut frames,
            steps,
            commands,
        } = self;
        frames.push(frame)?;
        Ok(Outline {
            frames,
            steps,
            commands,
        })
    }

    /// Without its innermost IF or DO, and what that waits for.
    fn pop(self) -> (Outline, Option<Frame>)
        ensures some { IfSome result.1 (λ frame. (open_in self ≡ frame ∷ open_in result.0) × (result.0.steps ≡ self.steps) × (result.0.commands ≡ self.commands)) }
        ensures none { IfNone result.1 ((open_in self ≡ []) × IsOutline result.0 [] self.steps self.commands) }
    {
        let Outline {
            frames,
            steps,
            commands,
        } = self;
        let mut list = frames.into_vec();
        let last = list.pop();
        let outer = Outline {
            frames: Listed::from_vec(list),
            steps,
            commands,
        };
        (outer, last)
    }
}

/// Ends the IFs within the innermost DO.
pub(crate) fn close_parts(outline: Outline) -> Result<Outline, NoMemory>
    ensures { IfOk result (λ new. IsOutline new (around (open_in outline)) (outline.steps ++ closing (open_in outline)) outline.commands) }
{
    let (outer, innermost) = outline.pop();
    match innermost {
        None => Ok(outer),
        Some(Frame::Do) => outer.with_frame(Frame::Do),
        Some(Frame::Else) => close_parts(outer.with_step(Step::End)?),
        Some(Frame::Then) => close_parts(outer.with_step(Step::Else)?.with_step(Step::End)?),
    }
}

/// Within the ELSE of the innermost IF that has none, if there is one within the innermost DO.
pub(crate) fn take_else(outline: Outline) -> Result<Option<Outline>, NoMemory>
    ensures some { IfOk result (λ found. IfSome found (λ new. (wants_else (open_in outline) ≡ true) × IsOutline new (frames.Else ∷ behind_then (open_in outline)) (outline.steps ++ closing_to_else (open_in outline)) outline.commands)) }
    ensures none { IfOk result (λ found. IfNone found (wants_else (open_in outline) ≡ false)) }
{
    let (outer, innermost) = outline.pop();
    match innermost {
        None | Some(Frame::Do) => Ok(None),
        Some(Frame::Else) => take_else(outer.with_step(Step::End)?),
        Some(Frame::Then) => {
            let within = outer.with_step(Step::Else)?.with_frame(Frame::Else)?;
            Ok(Some(within))
        }
    }
}

/// Behind the innermost DO, if there is one.
pub(crate) fn take_end(outline: Outline) -> Result<Option<Outline>, NoMemory>
    ensures some { IfOk result (λ found. IfSome found (λ new. (around (open_in outline) ≡ frames.Do ∷ open_in new) × (new.steps ≡ outline.steps ++ closing (open_in outline)) × (new.commands ≡ outline.commands))) }
    ensures none { IfOk result (λ found. IfNone found (around (open_in outline) ≡ [])) }
{
    let (outer, innermost) = close_parts(outline)?.pop();
    match innermost {
        Some(_) => Ok(Some(outer)),
        None => Ok(None),
    }
}
