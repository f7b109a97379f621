//! The arguments of a job.

ghost use Rattle.std.specs.Prelude.{◌≡◌};
ghost use Rattle.serde_json.specs.View.{view as tree_view};
ghost use Rattle.peg_json.specs.code.Tree.{Gives};
ghost use Rattle.workflow_reader.specs.Workflow.{argument_of};
ghost use Rattle.peg_json.specs.Typed.{list_or_none};

use peg_json::{FromTree, TreeFault, list_or_none};
use serde_json::Value;
use std::alloc::Global;
use values::{Items, Text};

/// A text, or a whole number as its decimal text.
#[derive(Drop)]
pub struct Argument(pub Text);

impl FromTree for Argument {
    ghost use Rattle.std.specs.Prelude.{List, ℕ};

    ghost Seen = { List ℕ };

    ghost seen = { λ a. a.0 };

    ghost reads = { argument_of };

    #[tactic(auto, unfolding(crate::specs::Workflow::argument_of))]
    fn from_tree(alloc: Global, value: &Value, path: &Text) -> Result<Argument, TreeFault> {
        if let Some(text) = value.as_str() {
            return Ok(Argument(Text::copy_of(alloc, text)?));
        }
        if let Some(n) = value.as_u64() {
            return Ok(Argument(Text::new(format!(in alloc; "{n}")?)));
        }
        if let Some(n) = value.as_i64() {
            return Ok(Argument(Text::new(format!(in alloc; "{n}")?)));
        }
        if value.is_number() {
            let what = Text::copy_of(alloc, "number")?;
            Err(TreeFault::Unsupported(path.copied(alloc)?, what))
        } else {
            Err(TreeFault::WrongKind(path.copied(alloc)?))
        }
    }
}

/// The texts of the arguments at a key, or none where they are absent.
pub fn arguments(
    alloc: Global,
    value: &Value,
    path: &Text,
    key: &str,
) -> Result<Items<Text>, TreeFault>
    ensures { Gives (λ texts. texts) result
        (list_or_none argument_of path.now (tree_view value.now) key.now) }
{
    let arguments = list_or_none::<Argument>(alloc, value, path, key)?;
    let arguments = arguments.into_vec();
    let texts: Vec<Text> = arguments
        .into_iter()
        .map(|argument| argument.0)
        .collect(alloc)?;
    Ok(Items::new(texts))
}
