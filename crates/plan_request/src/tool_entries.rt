//! The tools of transformations that a request states.

ghost use Rattle.std.specs.Prelude.{◌≡◌, IfOk, map};
ghost use Rattle.serde_json.specs.View.{view as tree_view};
ghost use Rattle.peg_json.specs.code.Tree.{Gives};
ghost use Rattle.plan_request.specs.Request.{tool_entry, tools_or_none};

use crate::request::ToolOf;
use peg_json::{FromTree, Name, TreeFault, entries_at, row};
use serde_json::Value;
use std::alloc::Global;
use values::{Items, Memory, Text};

/// Tools by the names of their transformations.
#[derive(Drop)]
struct ToolsOf(Items<ToolOf>);

impl FromTree for ToolsOf {
    ghost use Rattle.std.specs.Prelude.{List};
    ghost use Rattle.plan_request.specs.declared.request.ToolOf as declared;
    ghost use Rattle.plan_request.specs.Request.{tools_of};

    ghost Seen = { List declared.ToolOf };

    ghost seen = { λ t. t.0 };

    ghost reads = { tools_of };

    #[tactic(auto, unfolding(crate::specs::Request::tools_of), using(crate::proofs::EntryLemmas::mapped_twice))]
    fn from_tree(alloc: Global, value: &Value, path: &Text) -> Result<ToolsOf, TreeFault> {
        let entries = entries_at::<Name>(alloc, value, path)?;
        Ok(ToolsOf(stated_tools(alloc, entries)?))
    }
}

/// Each transformation with its tool.
fn stated_tools(alloc: Global, entries: Vec<(Text, Name)>) -> Result<Items<ToolOf>, Memory>
    ensures { IfOk result (λ tools. tools ≡ map (λ e. tool_entry (e.0, e.1.0)) entries.items) }
{
    let tools: Vec<ToolOf> = entries
        .into_iter()
        .map(|entry| ToolOf {
            transformation: entry.0,
            tool: entry.1.0,
        })
        .collect(alloc)?;
    Ok(Items::new(tools))
}

/// The tools at a key, or none where they are absent.
pub fn tools_or_none(
    alloc: Global,
    value: &Value,
    path: &Text,
    key: &str,
) -> Result<Items<ToolOf>, TreeFault>
    ensures { Gives (λ tools. tools) result
        (tools_or_none path.now (tree_view value.now) key.now) }
{
    match row!(alloc, value, path, key, optional Object ToolsOf) {
        Some(tools) => Ok(tools.0),
        None => Ok(Items::new(Vec::new(alloc))),
    }
}
