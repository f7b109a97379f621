//! How jobs are put together, and when files are removed.

ghost use Rattle.std.specs.Prelude.{◌≡◌};
ghost use Rattle.serde_json.specs.View.{view as tree_view};
ghost use Rattle.peg_json.specs.code.Tree.{Gives};
ghost use Rattle.plan_request.specs.Request.{cluster_at, cleanup_at};

use crate::request::{Cleanup, ClusterMode};
use peg_json::{TreeFault, at_key, row};
use serde_json::Value;
use std::alloc::Global;
use values::Text;

/// The clustering at a key, or none where it is absent.
pub fn cluster(
    alloc: Global,
    value: &Value,
    path: &Text,
    key: &str,
) -> Result<ClusterMode, TreeFault>
    ensures { Gives (λ m. m) result (cluster_at path.now (tree_view value.now) key.now) }
{
    match row!(alloc, value, path, key, optional Text) {
        Some(named) => match named.as_str() {
            "none" => Ok(ClusterMode::None),
            "horizontal" => Ok(ClusterMode::Horizontal),
            "label" => Ok(ClusterMode::Label),
            _ => Err(TreeFault::Unsupported(at_key(alloc, path, key)?, named)),
        },
        None => Ok(ClusterMode::None),
    }
}

/// The cleanup at a key, or that in place where it is absent.
pub fn cleanup(alloc: Global, value: &Value, path: &Text, key: &str) -> Result<Cleanup, TreeFault>
    ensures { Gives (λ c. c) result (cleanup_at path.now (tree_view value.now) key.now) }
{
    match row!(alloc, value, path, key, optional Text) {
        Some(named) => match named.as_str() {
            "inplace" => Ok(Cleanup::Inplace),
            "constraint" => Ok(Cleanup::Constraint),
            "none" => Ok(Cleanup::None),
            _ => Err(TreeFault::Unsupported(at_key(alloc, path, key)?, named)),
        },
        None => Ok(Cleanup::Inplace),
    }
}
