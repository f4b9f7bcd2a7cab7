//! What a statement says of a data set.

ghost use Rattle.std.specs.Prelude.{◌≡◌, ◌∷◌, ◌++◌, [], List, IfOk, IfErr};
ghost use Rattle.job_lines.specs.declared.message.Message.{Message as MessageOf};
ghost use Rattle.dump_sets.specs.job_turns.job_steps.declared.cut.Cut.TheVariants as cuts;
ghost use Rattle.job_ops.specs.Asked.{said_of};
ghost use Rattle.job_ops.specs.Task.{severity_for};

use crate::asking::Candidate;
use crate::task::Task;
use dasd_pool::Pool;
use dump_sets::job_turns::job_steps::Cut;
use dump_sets::job_turns::job_steps::unit_session::Session;
use dump_sets::job_turns::{Log, say};
use job_lines::{Message, Reason};

/// Says that a data set isn't processed.
pub(crate) fn refuse<P: Pool>(
    session: Session<P>,
    log: &mut Log,
    task: Task,
    name: [u8; 44],
    reason: Reason,
) -> Result<Session<P>, Cut<P>>
    ensures steps { log.new.steps ≡ log.old.steps }
    ensures said { IfOk result (λ next. (next ≡ session) × (log.new.messages.items ≡ log.old.messages.items ++ (Message.NotProcessed name reason (severity_for task reason) ∷ []))) }
    ensures short { IfErr result (λ cut. (cut ≡ cuts.Short session) × (log.new.messages.items ≡ log.old.messages.items)) }
{
    let message = Message::NotProcessed(name, reason, task.severity(reason));
    say(session, &mut log.messages, message)
}

/// Says what was done with a data set, and before it that the free space was stated, if it was.
pub(crate) fn say_done<P: Pool>(
    session: Session<P>,
    candidate: Candidate,
    message: Message,
    log: &mut Log,
) -> Result<Session<P>, Cut<P>>
    ensures steps { log.new.steps ≡ log.old.steps }
    ensures said { IfOk result (λ next. (next ≡ session) × (log.new.messages.items ≡ log.old.messages.items ++ said_of candidate message)) }
    ensures short { IfErr result (λ cut. cut ≡ cuts.Short session) }
    ensures grows { (said : List MessageOf) × (log.new.messages.items ≡ log.old.messages.items ++ said) }
{
    let mut session = session;
    if candidate.repair {
        session = say(
            session,
            &mut log.messages,
            Message::Rebuilt(candidate.serial),
        )?;
    }
    say(session, &mut log.messages, message)
}
