//! The tools of transformations.

ghost use Rattle.std.specs.Prelude.{◌≡◌, List, [], map, IfOk};
ghost use Rattle.plan_request.specs.declared.request.ToolOf as declared;
ghost use Rattle.plan_request.specs.code.Index.{with_entries};
ghost use Rattle.plan_request.specs.JobTools.{named_tool, tool_of};

use crate::index::Index;
use crate::request::{PlanRequest, ToolOf};
use std::alloc::Global;
use std::marker::Model;
use values::{Memory, Text};

/// The tools of a request, seen as their list, with an index of them.
#[derive(Drop)]
pub struct Tools<'a> {
    listed: &'a [ToolOf],
    by_name: Index<Text>,
}

impl<'a> Model for Tools<'a> {
    ghost Value = { List declared.ToolOf };

    ghost view = { λ t. t.listed.now };

    ghost invariant = { λ t. t.by_name ≡ with_entries [] (map named_tool t.listed.now) };
}

fn tools_by_name(alloc: Global, tools: &[ToolOf]) -> Result<Index<Text>, Memory>
    ensures { IfOk result (λ index. index ≡ with_entries [] (map named_tool tools.now)) }
{
    let mut index = Index::new(alloc);
    for entry in tools {
        index.add(alloc, &entry.transformation, entry.tool.copied(alloc)?)?;
    }
    Ok(index)
}

impl<'a> Tools<'a> {
    pub fn new(alloc: Global, request: &'a PlanRequest) -> Result<Tools<'a>, Memory>
        ensures { IfOk result (λ tools. tools ≡ request.now.tools) }
    {
        let listed = request.tools.as_slice();
        let by_name = tools_by_name(alloc, listed)?;
        Ok(Tools { listed, by_name })
    }

    /// The name of the tool that does the work of a transformation: the request's, else the transformation's own.
    #[tactic(auto, using(crate::proofs::IndexLemmas::all_found))]
    pub fn tool_of<'b>(&'b self, transformation: &'b Text) -> &'b Text
        ensures { result.now ≡ tool_of self.now transformation.now }
    {
        match self.by_name.get(transformation) {
            Some(tool) => tool,
            None => transformation,
        }
    }
}
