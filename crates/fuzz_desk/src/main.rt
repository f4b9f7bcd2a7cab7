//! The program `fuzz_desk`: it asks a desk in memory many requests that are torn and stretched, and looks at each answer. Its words are a seed and how many requests
//! there are. It prints one line with how often each status was answered, and ends with 1 where an answer isn't one that a stranger may rely on.
#![tactic(auto)]

mod answer;
mod asking;
mod dice;
mod lawful;
mod torn;

use crate::answer::STATUSES;
use crate::asking::{Counts, Wrong, asked};
use std::process::ExitCode;
use std::{env, io};

/// What is asked: the seed of the requests, and how many there are.
#[derive(Clone, Copy)]
struct Plan {
    seed: u64,
    count: u32,
}

/// The words after the program's name, in place of which stand 1 and 100.
fn words_of(rt: &HostRuntime) -> io::Result<Plan> {
    let mut words = env::args(rt)?.skip(1);
    let seed = words.next().and_then(|word| word.parse::<u64>().ok());
    let count = words.next().and_then(|word| word.parse::<u32>().ok());
    Ok(Plan {
        seed: seed.unwrap_or(1),
        count: count.unwrap_or(100),
    })
}

/// Prints how often each status was answered.
fn say(rt: &HostRuntime, plan: Plan, counts: &Counts) -> io::Result<()> {
    let Plan { seed, count } = plan;
    print!(rt; "seed {seed}, {count} requests:")?;
    for (status, times) in STATUSES.iter().zip(counts.as_slice()) {
        print!(rt; " {status} {times}")?;
    }
    println!(rt; "")
}

/// Prints what was answered wrong.
fn say_wrong(rt: &HostRuntime, plan: Plan, wrong: &Wrong) -> io::Result<()> {
    let Plan { seed, count } = plan;
    println!(rt; "seed {seed}, {count} requests: {wrong}")
}

fn main(rt: HostRuntime) -> ExitCode {
    let Ok(plan) = words_of(&rt) else {
        return ExitCode::FAILURE;
    };
    match asked(rt.alloc(), plan.seed, plan.count) {
        Ok(counts) => match say(&rt, plan, &counts) {
            Ok(()) => ExitCode::SUCCESS,
            Err(_) => ExitCode::FAILURE,
        },
        Err(wrong) => {
            let _ = say_wrong(&rt, plan, &wrong);
            ExitCode::FAILURE
        }
    }
}
