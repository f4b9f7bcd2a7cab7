//! The jobs of a desk, which contracts see as a list.

ghost use Rattle.std.specs.Prelude.{◌≡◌, ◌<◌, ◌+◌, [], ◌∷◌, ◌++◌, length, Some, slice_set, OnOk, OnErr, get_or, slice_get};
ghost use Rattle.desk_state.specs.Ends.{with_end};

use ckd_image::{Bytes, NoMemory};
use desk_text::Job;
use std::alloc::Global;
use std::marker::Model;

/// Jobs in the order of their numbers.
#[derive(Debug, Drop)]
pub struct Jobs {
    items: Vec<Job>,
}

impl Model for Jobs {
    ghost use Rattle.std.specs.Prelude.{List};
    ghost use Rattle.desk_text.specs.declared.job.Job.{Job};

    ghost Value = { List Job };

    ghost view = { λ l. l.items.items };
}

impl Jobs {
    /// Of no job.
    pub fn new(alloc: Global) -> Jobs
        ensures { result ≡ [] }
    {
        Jobs {
            items: Vec::new(alloc),
        }
    }

    /// The jobs in order.
    pub fn as_slice(&self) -> &[Job]
        ensures { result.now ≡ self.now }
    {
        self.items.as_slice()
    }

    pub fn len(&self) -> usize
        ensures { result ≡ length self.now }
    {
        self.items.len()
    }

    /// On `Err` nothing is added.
    pub fn push(&mut self, job: Job) -> Result<(), NoMemory>
        ensures ok { OnOk result (self.new ≡ self.old ++ job ∷ []) }
        ensures err { OnErr result (self.new ≡ self.old) }
    {
        self.items.push(job)?;
        Ok(())
    }

    /// Ends the job at a place.
    pub fn end(&mut self, place: usize, code: u8, print: Bytes)
        requires { place < length self.old }
        ensures { self.new ≡ with_end self.old place code print }
    {
        end_at(self.items.as_mut_slice(), place, code, print);
    }
}

fn end_at(jobs: &mut [Job], place: usize, code: u8, print: Bytes)
    requires { place < length jobs.old }
    ensures { jobs.new ≡ with_end jobs.old place code print }
{
    jobs[place].ended = Some((code, print));
}
