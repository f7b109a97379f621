//! What a yard has delivered.

ghost use Rattle.std.specs.Prelude.{◌≡◌, ◌<◌, ◌^◌, ◌++◌, is_some, length, true, vec_capacity};
ghost use Rattle.plan_core.specs.Words.{count_tasks, kind};
ghost use Rattle.site_yard.specs.code.Delivered.{count_deliveries, delivery_of};
ghost use Rattle.site_yard.specs.Delivered.{delivered_file};

use outside::{FileId, TaskId};
use plan_core::{Plan, Target, TaskKind};
use storage_simulation::is_delivery;

/// A file that was delivered, its length in bytes and its SHA-256.
#[derive(Clone, Copy)]
pub struct Delivered {
    pub file: FileId,
    pub length: u64,
    pub digest: [u8; 32],
}

/// How many tasks of a plan deliver a file.
#[tactic(auto, unfolding(crate::specs::code::Delivered::count_deliveries))]
pub(crate) fn count_deliveries(plan: &Plan) -> usize
    requires { count_tasks plan.now < 2 ^ 32 }
    ensures { result ≡ count_deliveries plan.now }
{
    let mut count = 0;
    for k in 0..plan.tasks.as_slice().len() {
        if is_delivery(plan, TaskId(k as u32)) {
            count += 1;
        }
    }
    count
}

/// The file that a task delivers.
fn delivered_file(plan: &Plan, task: TaskId) -> Option<FileId>
    ensures { result ≡ delivered_file (kind plan.now task.0) }
{
    match plan.kind(task) {
        Some(
            TaskKind::Transfer {
                file,
                to: Target::Delivery,
                ..
            },
        ) => Some(*file),
        _ => None,
    }
}

/// Adds a delivery of so many bytes with this digest, where the task is one. It takes no memory.
pub(crate) fn keep(
    plan: &Plan,
    delivered: &mut Vec<Delivered>,
    task: TaskId,
    size: u64,
    digest: Option<[u8; 32]>,
)
    requires room { is_some (delivered_file (kind plan.now task.0)) ≡ true
        → length delivered.old.items < vec_capacity delivered.old }
    ensures items { delivered.new.items ≡ delivered.old.items
        ++ delivery_of (kind plan.now task.0) size digest }
    ensures room { vec_capacity delivered.new ≡ vec_capacity delivered.old }
{
    match digest {
        None => {}
        Some(digest) => match delivered_file(plan, task) {
            Some(file) => delivered.push_reserved(Delivered {
                file,
                length: size,
                digest,
            }),
            None => {}
        },
    }
}
