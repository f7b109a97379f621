//! A workflow of two jobs.

use outside::{FileId, Items, Memory, Text};
use std::alloc::Global;
use workflow_core::{Inlined, Job, Output, Transformation, Workflow};

fn transformation(alloc: Global, name: &str) -> Result<Transformation, Memory> {
    Ok(Transformation {
        namespace: None,
        name: Text::copy_of(alloc, name)?,
        version: None,
    })
}

/// A job. What it makes is requested or not.
fn job(
    alloc: Global,
    id: &str,
    name: &str,
    inputs: &[FileId],
    outputs: &[FileId],
    asked: bool,
) -> Result<Job, Memory> {
    let mut made = Vec::new(alloc);
    for file in outputs {
        made.push(Output {
            file: *file,
            stage_out: asked,
            register: false,
        })?;
    }
    Ok(Job {
        id: Text::copy_of(alloc, id)?,
        transformation: transformation(alloc, name)?,
        arguments: Items::new(Vec::new(alloc)),
        inputs: Items::new(inputs.to_vec(alloc)?),
        outputs: Items::new(made),
        label: None,
        cluster_size: None,
        cluster_num: None,
        pinned: None,
    })
}

fn workflow_of(
    alloc: Global,
    jobs: Vec<Job>,
    files: Vec<Text>,
    sizes: Vec<Option<u64>>,
) -> Result<Workflow, Memory> {
    Ok(Workflow {
        name: Text::copy_of(alloc, "w")?,
        jobs: Items::new(jobs),
        pairs: Items::new(Vec::new(alloc)),
        files: Items::new(files),
        sizes: Items::new(sizes),
        inlined: Inlined {
            sites: None,
            replicas: None,
            transformations: None,
        },
        ignored: Items::new(Vec::new(alloc)),
    })
}

fn files(alloc: Global) -> Result<Vec<Text>, Memory> {
    let mut files = Vec::new(alloc);
    for name in ["p", "q", "r"] {
        files.push(Text::copy_of(alloc, name)?)?;
    }
    Ok(files)
}

/// A job writes p and q; the second reads both and makes r, which is requested.
fn jobs(alloc: Global) -> Result<Vec<Job>, Memory> {
    let mut jobs = Vec::new(alloc);
    jobs.push(job(alloc, "first", "t", &[], &[FileId(0), FileId(1)], false)?)?;
    jobs.push(job(
        alloc,
        "second",
        "t",
        &[FileId(0), FileId(1)],
        &[FileId(2)],
        true,
    )?)?;
    Ok(jobs)
}

/// The workflow of the two jobs.
pub fn workflow(alloc: Global) -> Result<Workflow, Memory> {
    let sizes = vec![in alloc; None, Some(2), Some(3)]?;
    workflow_of(alloc, jobs(alloc)?, files(alloc)?, sizes)
}
