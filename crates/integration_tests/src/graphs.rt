//! Calls that no crate makes: on a workflow and its graph, for values of any kind in a document, and for texts and bytes given
//! back.

ghost use Rattle.std.specs.Prelude.{◌≡◌, length};
ghost use Rattle.workflow_core.specs.code.WellFormed.{IsWellFormed};

use crate::by_hand::workflow;
use dependency_graph::build;
use digraph::Digraph;
use outside::{Blob, Items, JobId, Memory, Text};
use peg_json::{TreeFault, parse, root, typed};
use std::alloc::Global;
use std::test::Fail;
use workflow_core::{Workflow, is_well_formed};

/// Whether the second job is the first one's child.
fn is_linked(alloc: Global, workflow: &Workflow) -> bool
    requires well_formed { IsWellFormed workflow.now }
    requires jobs { length workflow.now.jobs ≡ 2 }
{
    match build(alloc, workflow) {
        Ok(graph) => graph.children(JobId(0)) == [JobId(1)].as_slice(),
        Err(_) => false,
    }
}

fn is_as_stated(alloc: Global, workflow: &Workflow) -> Result<bool, Memory> {
    if !is_well_formed(alloc, workflow)? || workflow.jobs.as_slice().len() != 2 {
        return Ok(false);
    }
    Ok(is_linked(alloc, workflow))
}

/// The same, and that the workflow isn't well formed without its sizes.
fn are_told(alloc: Global) -> Result<bool, Memory> {
    let mut workflow = workflow(alloc)?;
    let is_stated = is_as_stated(alloc, &workflow)?;
    workflow.sizes = Items::new(Vec::new(alloc));
    Ok(is_stated && !is_well_formed(alloc, &workflow)?)
}

#[test]
fn a_workflow_of_two_jobs(rt: HostRuntime) -> Result<(), Fail> {
    assert!(rt; are_told(rt.alloc()).ok() == Some(true));
    Ok(())
}

fn are_any(alloc: Global) -> Result<bool, TreeFault> {
    let value = parse(alloc, br#"{"x":[1]}"#)?;
    let path = root(alloc)?;
    let found = typed::any(alloc, &value, &path, "x")?;
    let none = typed::optional_any(alloc, &value, &path, "y")?;
    Ok(found.is_array() && none.is_none())
}

fn are_given_back(alloc: Global) -> Result<bool, Memory> {
    let text = Text::copy_of(alloc, "abc")?;
    let blob = Blob::copy_of(alloc, b"xy")?;
    Ok(text.into_string().as_str() == "abc" && blob.into_vec().as_slice() == b"xy".as_slice())
}

fn are_shortest(alloc: Global) -> Result<bool, Memory> {
    let chain = Digraph::from_edges(alloc, 4, &[(0, 1), (1, 2), (3, 1), (3, 2)])?;
    let distances = chain.distances_to(alloc, 2)?;
    Ok(distances.as_slice() == [Some(2), Some(1), Some(0), Some(1)].as_slice())
}

#[test]
fn values_and_distances(rt: HostRuntime) -> Result<(), Fail> {
    let alloc = rt.alloc();
    assert!(rt; are_any(alloc).ok() == Some(true));
    assert!(rt; are_given_back(alloc).ok() == Some(true));
    assert!(rt; are_shortest(alloc).ok() == Some(true));
    Ok(())
}
