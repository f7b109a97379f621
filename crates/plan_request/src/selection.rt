//! How sites are chosen, and what that is estimated by.

ghost use Rattle.std.specs.Prelude.{◌≡◌};
ghost use Rattle.serde_json.specs.View.{view as tree_view};
ghost use Rattle.peg_json.specs.code.Tree.{Gives};
ghost use Rattle.plan_request.specs.Request.{positive};
ghost use Rattle.plan_request.specs.Request.{selector_at, rate_at, runtimes_or_none};

use crate::request::{Runtime, Selector};
use peg_json::{TreeFault, at_key, row};
use serde_json::Value;
use std::alloc::Global;
use values::{Items, Text};

/// Refuses 0.
pub fn positive(alloc: Global, path: &Text, number: u64) -> Result<u64, TreeFault>
    ensures { Gives (λ n. n) result (positive path.now number) }
{
    if number == 0 {
        return Err(TreeFault::OutOfRange(path.copied(alloc)?, number));
    }
    Ok(number)
}

/// The way of choosing sites at a key, or in turns where it is absent.
pub fn selector(alloc: Global, value: &Value, path: &Text, key: &str) -> Result<Selector, TreeFault>
    ensures { Gives (λ s. s) result (selector_at path.now (tree_view value.now) key.now) }
{
    match row!(alloc, value, path, key, optional Text) {
        Some(named) => match named.as_str() {
            "roundrobin" => Ok(Selector::RoundRobin),
            "heft" => Ok(Selector::Heft),
            _ => Err(TreeFault::Unsupported(at_key(alloc, path, key)?, named)),
        },
        None => Ok(Selector::RoundRobin),
    }
}

/// The rate at a key, or 1 where it is absent.
pub fn rate(alloc: Global, value: &Value, path: &Text, key: &str) -> Result<u64, TreeFault>
    ensures { Gives (λ n. n) result (rate_at path.now (tree_view value.now) key.now) }
{
    match row!(alloc, value, path, key, optional Number up to 1 << 40) {
        Some(number) => positive(alloc, &at_key(alloc, path, key)?, number),
        None => Ok(1),
    }
}

/// The runtimes at a key, or none where they are absent.
pub fn runtimes_or_none(
    alloc: Global,
    value: &Value,
    path: &Text,
    key: &str,
) -> Result<Items<Runtime>, TreeFault>
    ensures { Gives (λ runtimes. runtimes) result
        (runtimes_or_none path.now (tree_view value.now) key.now) }
{
    match row!(alloc, value, path, key, optional List Runtime) {
        Some(runtimes) => Ok(Items::new(runtimes)),
        None => Ok(Items::new(Vec::new(alloc))),
    }
}
