//! How many jobs and files some members have.

ghost use Rattle.std.specs.Prelude.{◌≡◌, ◌-◌, ◌^◌, min};
ghost use Rattle.peg_json.specs.declared.read_fault.Counted.TheVariants as counted;
ghost use Rattle.ensemble.specs.Joining.{are_few, few};
ghost use Rattle.ensemble.specs.Member.{count_files, count_jobs};

use crate::join_fault::JoinFault;
use crate::member::Member;
use peg_json::Counted;

const MAX_JOBS: u64 = 10_000;

const MAX_FILES: u64 = 50_000;

fn count_jobs(members: &[Member]) -> u64
    ensures { result ≡ min (count_jobs members.now) (2 ^ 64 - 1) }
{
    let mut count: u64 = 0;
    for member in members {
        count = count.saturating_add(member.survey.workflow.jobs.as_slice().len() as u64);
    }
    count
}

fn count_files(members: &[Member]) -> u64
    ensures { result ≡ min (count_files members.now) (2 ^ 64 - 1) }
{
    let mut count: u64 = 0;
    for member in members {
        count = count.saturating_add(member.survey.workflow.files.as_slice().len() as u64);
    }
    count
}

#[tactic(auto, using(crate::proofs::CountLemmas::past, crate::proofs::CountLemmas::within))]
fn check_jobs(members: &[Member]) -> Result<(), JoinFault>
    ensures { result ≡ few counted.Jobs 10000 (count_jobs members.now) }
{
    let count = count_jobs(members);
    if MAX_JOBS < count {
        return Err(JoinFault::TooMany(Counted::Jobs, count, MAX_JOBS));
    }
    Ok(())
}

#[tactic(auto, using(crate::proofs::CountLemmas::past, crate::proofs::CountLemmas::within))]
fn check_files(members: &[Member]) -> Result<(), JoinFault>
    ensures { result ≡ few counted.Files 50000 (count_files members.now) }
{
    let count = count_files(members);
    if MAX_FILES < count {
        return Err(JoinFault::TooMany(Counted::Files, count, MAX_FILES));
    }
    Ok(())
}

/// Refuses more jobs than a workflow may have, and then more files.
pub fn check_counts(members: &[Member]) -> Result<(), JoinFault>
    ensures { result ≡ are_few members.now }
{
    check_jobs(members)?;
    check_files(members)
}
