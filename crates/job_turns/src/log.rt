//! What a statement did and said so far.

ghost use Rattle.std.specs.Prelude.{◌≡◌, ◌∷◌, ◌++◌, [], List, IfOk, IfErr};
ghost use Rattle.job_lines.specs.declared.message.Message.{Message as MessageOf};
ghost use Rattle.job_acts.specs.job_steps.declared.cut.Cut.TheVariants as cuts;

use dasd_pool::Pool;
use job_acts::job_steps::Cut;
use job_acts::job_steps::unit_session::Session;
use job_lines::Message;
use move_core::Step;

/// The steps of the run, and the messages of the statement.
#[derive(Drop)]
pub struct Log {
    pub steps: Vec<Step>,
    pub messages: Vec<Message>,
}

/// Adds a message.
pub fn say<P: Pool>(
    session: Session<P>,
    messages: &mut Vec<Message>,
    message: Message,
) -> Result<Session<P>, Cut<P>>
    ensures said { IfOk result (λ next. (next ≡ session) × (messages.new.items ≡ messages.old.items ++ (message ∷ []))) }
    ensures short { IfErr result (λ cut. (cut ≡ cuts.Short session) × (messages.new.items ≡ messages.old.items)) }
{
    match messages.push(message) {
        Ok(()) => Ok(session),
        Err(_) => Err(Cut::Short(session)),
    }
}

/// Adds messages.
pub fn say_all<P: Pool>(
    session: Session<P>,
    messages: &[Message],
    log: &mut Log,
) -> Result<Session<P>, Cut<P>>
    ensures steps { log.new.steps ≡ log.old.steps }
    ensures said { IfOk result (λ next. (next ≡ session) × (log.new.messages.items ≡ log.old.messages.items ++ messages.now)) }
    ensures short { IfErr result (λ cut. cut ≡ cuts.Short session) }
    ensures grows { (said : List MessageOf) × (log.new.messages.items ≡ log.old.messages.items ++ said) }
{
    let mut session = session;
    for message in messages {
        session = say(session, &mut log.messages, *message)?;
    }
    Ok(session)
}
