//! The joint workflow.

ghost use Rattle.std.specs.Prelude.{◌≡◌, ◌≤◌, ◌++◌, IfOk, OnOk};
ghost use Rattle.std.specs.List.{All};
ghost use Rattle.workflow_core.specs.code.WellFormed.{IsWellFormed};
ghost use Rattle.ensemble.specs.Member.{AreMembers, IsMember, count_files, count_jobs};
ghost use Rattle.ensemble.specs.Workflows.{IsJointWorkflow, joint_files, joint_jobs, joint_pairs, joint_stated};

use crate::jobs::{add_jobs, add_pairs};
use crate::member::Member;
use crate::prefix::add_names;
use std::alloc::Global;
use values::{Items, JobId, Memory, Text};
use workflow_core::{Inlined, Job, Workflow};

fn joint_jobs(alloc: Global, members: &[Member]) -> Result<Items<Job>, Memory>
    requires members { All IsMember members.now }
    requires few { count_files members.now ≤ 50000 }
    ensures { IfOk result (λ jobs. jobs ≡ joint_jobs 0 members.now) }
{
    let mut jobs = Vec::new(alloc);
    let mut first: u32 = 0;
    for member in members {
        let workflow = &member.survey.workflow;
        add_jobs(
            alloc,
            &mut jobs,
            &member.name,
            first,
            workflow.jobs.as_slice(),
        )?;
        first += workflow.files.as_slice().len() as u32;
    }
    Ok(Items::new(jobs))
}

fn joint_pairs(alloc: Global, members: &[Member]) -> Result<Items<(JobId, JobId)>, Memory>
    requires members { All IsMember members.now }
    requires few { count_jobs members.now ≤ 10000 }
    ensures { IfOk result (λ pairs. pairs ≡ joint_pairs 0 members.now) }
{
    let mut pairs = Vec::new(alloc);
    let mut first: u32 = 0;
    for member in members {
        let workflow = &member.survey.workflow;
        add_pairs(&mut pairs, first, workflow.pairs.as_slice())?;
        first += workflow.jobs.as_slice().len() as u32;
    }
    Ok(Items::new(pairs))
}

fn joint_files(alloc: Global, members: &[Member]) -> Result<Items<Text>, Memory>
    ensures { IfOk result (λ files. files ≡ joint_files members.now) }
{
    let mut files = Vec::new(alloc);
    for member in members {
        add_names(
            alloc,
            &mut files,
            &member.name,
            member.survey.workflow.files.as_slice(),
        )?;
    }
    Ok(Items::new(files))
}

fn add_stated(sizes: &mut Vec<Option<u64>>, more: &[Option<u64>]) -> Result<(), Memory>
    ensures { OnOk result (sizes.new.items ≡ sizes.old.items ++ more.now) }
{
    for size in more {
        sizes.push(*size)?;
    }
    Ok(())
}

fn joint_stated(alloc: Global, members: &[Member]) -> Result<Items<Option<u64>>, Memory>
    ensures { IfOk result (λ sizes. sizes ≡ joint_stated members.now) }
{
    let mut sizes = Vec::new(alloc);
    for member in members {
        add_stated(&mut sizes, member.survey.workflow.sizes.as_slice())?;
    }
    Ok(Items::new(sizes))
}

/// The workflow of all members.
pub fn joint_workflow(alloc: Global, members: &[Member]) -> Result<Workflow, Memory>
    requires members { AreMembers members.now }
    requires few_jobs { count_jobs members.now ≤ 10000 }
    requires few_files { count_files members.now ≤ 50000 }
    ensures joint { IfOk result (λ w. IsJointWorkflow members.now w) }
    ensures well_formed { IfOk result (λ w. IsWellFormed w) }
{
    let jobs = joint_jobs(alloc, members)?;
    let pairs = joint_pairs(alloc, members)?;
    let files = joint_files(alloc, members)?;
    let sizes = joint_stated(alloc, members)?;
    let name = Text::copy_of(alloc, "")?;
    Ok(Workflow {
        name,
        jobs,
        pairs,
        files,
        sizes,
        inlined: Inlined {
            sites: None,
            replicas: None,
            transformations: None,
        },
        ignored: Items::new(Vec::new(alloc)),
    })
}
