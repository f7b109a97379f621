//! Copies of parts of documents.

ghost use Rattle.std.specs.Prelude.{◌≡◌, IfOk};

use plan_request::Execution;
use std::alloc::Global;
use values::{Items, Memory, Policy, Text};

pub fn executions_copied(alloc: Global, execute: &[Execution]) -> Result<Items<Execution>, Memory>
    ensures { IfOk result (λ copy. copy ≡ execute.now) }
{
    let mut copies = Vec::new(alloc);
    for execution in execute {
        copies.push(Execution {
            site: execution.site.copied(alloc)?,
            bound: execution.bound,
        })?;
    }
    Ok(Items::new(copies))
}

pub fn policy_copied(policy: &Policy) -> Policy
    ensures { result ≡ policy.now }
{
    Policy {
        retries: policy.retries,
        fresh: policy.fresh,
        output: policy.output,
    }
}

pub fn option_copied(alloc: Global, text: &Option<Text>) -> Result<Option<Text>, Memory>
    ensures { IfOk result (λ copy. copy ≡ text.now) }
{
    match text {
        Some(text) => Ok(Some(text.copied(alloc)?)),
        None => Ok(None),
    }
}
