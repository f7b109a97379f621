//! The reader of whole workflows.

ghost use Rattle.std.specs.Prelude.{◌≡◌, IfOk};
ghost use Rattle.std.specs.List.Sorted.{IsPermutation, IsSorted};
ghost use Rattle.std.specs.Ordering.{nat_cmp};
ghost use Rattle.std.specs.Cmp.Lexicographic.{slice_cmp};
ghost use Rattle.serde_json.specs.View.{view as tree_view};
ghost use Rattle.peg_json.specs.code.ReadFault.{GivesRead};
ghost use Rattle.workflow_core.specs.View.{workflow_view};
ghost use Rattle.workflow_core.specs.code.WellFormed.{IsWellFormed};
ghost use Rattle.workflow_reader.specs.Linking.{workflow_from_tree, workflow_from_text};
ghost use Rattle.workflow_reader.specs.code.Unknown.{unknown_in_text};
ghost use Rattle.workflow_reader.specs.code.Unknown.{unknown_of};

use crate::document::Document;
use crate::linking::workflow_of;
use peg_json::{FromTree, ReadFault, ignored_below, parse, root};
use serde_json::Value;
use std::alloc::Global;
use values::{Memory, Text};
use workflow_core::Workflow;

/// Reads the tree of a workflow's document, which stands under a path.
#[tactic(auto, unfolding(crate::specs::Linking::workflow_from_tree))]
pub fn from_tree(alloc: Global, value: &Value, path: &Text) -> Result<Workflow, ReadFault>
    ensures answer { GivesRead workflow_view result (workflow_from_tree path.now (tree_view value.now)) }
    ensures ignored { IfOk result
        (λ w. IsPermutation (unknown_of path.now (tree_view value.now)) w.ignored) }
    ensures order { IfOk result (λ w. IsSorted (slice_cmp nat_cmp) w.ignored) }
    ensures well_formed { IfOk result (λ w. IsWellFormed w) }
{
    let document = Document::from_tree(alloc, value, path)?;
    let Ok(ignored) = ignored_below::<Document>(alloc, value, path) else {
        drop(document);
        return Err(ReadFault::from(Memory));
    };
    let workflow = workflow_of(alloc, document, ignored)?;
    Ok(workflow)
}

/// Reads a workflow's document of at most 10,000 jobs and 50,000 files.
#[tactic(auto, unfolding(crate::specs::Linking::workflow_from_text, crate::specs::code::Unknown::unknown_in_text))]
pub fn read(alloc: Global, bytes: &[u8]) -> Result<Workflow, ReadFault>
    ensures answer { GivesRead workflow_view result (workflow_from_text bytes.now) }
    ensures ignored { IfOk result
        (λ w. IsPermutation (unknown_in_text bytes.now) w.ignored) }
    ensures order { IfOk result (λ w. IsSorted (slice_cmp nat_cmp) w.ignored) }
    ensures well_formed { IfOk result (λ w. IsWellFormed w) }
{
    let value = parse(alloc, bytes)?;
    let Ok(start) = root(alloc) else {
        drop(value);
        return Err(ReadFault::from(Memory));
    };
    let workflow = from_tree(alloc, &value, &start);
    drop(start);
    drop(value);
    workflow
}
