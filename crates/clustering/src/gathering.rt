//! Jobs put together by keys.

ghost use Rattle.std.specs.Prelude.{◌≡◌, List, length, map, IfOk, OnOk};
ghost use Rattle.std.specs.List.{position_or_len};
ghost use Rattle.indexmap.specs.IndexSet.{insert_key};
ghost use Rattle.values.specs.declared.numbers.JobId.{JobId};
ghost use Rattle.dependency_graph.specs.code.Graph.{job_lists};
ghost use Rattle.clustering.specs.Gathering.{gathered};
ghost use Rattle.clustering.specs.code.Gathering.{with_at};

use indexmap::IndexSet;
use std::alloc::Global;
use std::hash::Hash;
use values::{JobId, Memory};

/// Adds a job to the part of its key, or to a new one at the end.
fn add_job<K: Eq + Hash + Drop>(
    alloc: Global,
    known: &mut IndexSet<K>,
    parts: &mut Vec<Vec<JobId>>,
    key: K,
    job: JobId,
) -> Result<(), Memory>
    requires { length known.old.keys ≡ length parts.old.items }
    ensures keys { OnOk result (known.new.keys ≡ insert_key K.eq known.old.keys key) }
    ensures parts { OnOk result (job_lists parts.new.items
        ≡ with_at (job_lists parts.old.items) (position_or_len (K.eq key) known.old.keys) job) }
{
    let (place, _) = known.insert_full(key)?;
    if place < parts.len() {
        parts[place].push(job)?;
    } else {
        let mut part = Vec::new(alloc);
        part.push(job)?;
        parts.push(part)?;
    }
    Ok(())
}

/// The parts of jobs that have equal keys.
pub fn gather<K: Eq + Hash + Drop>(
    alloc: Global,
    keyed: Vec<(JobId, K)>,
) -> Result<Vec<Vec<JobId>>, Memory>
    ensures { IfOk result (λ v. (key_of : JobId → K) (jobs : List JobId)
        → keyed.items ≡ map (λ (j : JobId). (j, key_of j)) jobs
        → job_lists v.items ≡ gathered (λ j first. K.eq (key_of j) (key_of first)) jobs) }
{
    let mut known = IndexSet::new(alloc);
    let mut parts = Vec::new(alloc);
    for (job, key) in keyed {
        add_job(alloc, &mut known, &mut parts, key, job)?;
    }
    Ok(parts)
}
