//! Why no plan is made of a request and its documents.

ghost use Rattle.std.specs.Prelude.{◌≡◌};
ghost use Rattle.planner.specs.code.PlanFault.{cluster_fault, graph_fault, read_fault, refine_fault, tree_fault};

use crate::document::Document;
use clustering::ClusterFault;
use dependency_graph::GraphFault;
use peg_json::{Counted, ReadFault, TreeFault};
use transfer_refiner::RefineFault;
use values::{Items, Memory, TaskId, Text};

/// The first fault in the course of planning.
#[derive(Drop)]
pub enum PlanFault {
    Tree(Document, TreeFault),
    /// How many there are, and the limit.
    TooMany(Counted, u64, u64),
    DuplicateJob(Text),
    /// The job's id and the file's name.
    DuplicateUse(Text, Text),
    UnknownJob(Text),
    DuplicateSite(Text),
    DuplicateTransformation(Text),
    /// The catalogue that is neither named nor inlined.
    NoCatalogue(Document),
    /// An execution site that the site catalogue doesn't list.
    UnknownSite(Text),
    /// A file's name, and the ids of the first two jobs that make it.
    TwoProducers(Text, Text, Text),
    /// The ids of the jobs of a cycle.
    Cycle(Items<Text>),
    /// A job whose transformation no execution site has.
    NoTransformation(Text),
    /// A job, and the site that it is pinned to, which is no execution site.
    NoSite(Text, Text),
    /// A job, and the key of its profile that is no number.
    BadNumber(Text, Text),
    /// A label, and two jobs with it at different sites.
    LabelOverSites(Text, Text, Text),
    /// The first jobs of the clusters of a cycle.
    ClusterCycle(Items<Text>),
    /// A file that is read, and neither made nor registered.
    NoReplica(Text),
    /// A file that is moved or made, and has no declared size.
    NoSize(Text),
    /// A job, and its tool, which isn't known.
    ToolUnknown(Text, Text),
    /// No order fits: the first task that doesn't, its site, and the bytes that it would need there.
    Exceeds {
        site: Text,
        task: TaskId,
        needed: u64,
        bound: u64,
    },
    Memory,
}

impl From<Memory> for PlanFault {
    ghost use Rattle.planner.specs.declared.plan_fault.PlanFault.TheVariants as faults;

    ghost from_gives = { λ _ e. e ≡ faults.Memory };

    fn from(_e: Memory) -> PlanFault {
        PlanFault::Memory
    }
}

impl From<GraphFault> for PlanFault {
    ghost from_gives = { λ x e. e ≡ graph_fault x };

    fn from(fault: GraphFault) -> PlanFault {
        match fault {
            GraphFault::TwoProducers(lfn, one, two) => PlanFault::TwoProducers(lfn, one, two),
            GraphFault::Cycle(ids) => PlanFault::Cycle(ids),
            GraphFault::Memory => PlanFault::Memory,
        }
    }
}

impl From<ClusterFault> for PlanFault {
    ghost from_gives = { λ x e. e ≡ cluster_fault x };

    fn from(fault: ClusterFault) -> PlanFault {
        match fault {
            ClusterFault::BadNumber(id, key) => PlanFault::BadNumber(id, key),
            ClusterFault::LabelOverSites(label, one, two) => {
                PlanFault::LabelOverSites(label, one, two)
            }
            ClusterFault::ClusterCycle(ids) => PlanFault::ClusterCycle(ids),
            ClusterFault::Memory => PlanFault::Memory,
        }
    }
}

impl From<RefineFault> for PlanFault {
    ghost from_gives = { λ x e. e ≡ refine_fault x };

    fn from(fault: RefineFault) -> PlanFault {
        match fault {
            RefineFault::NoReplica(lfn) => PlanFault::NoReplica(lfn),
            RefineFault::NoSize(lfn) => PlanFault::NoSize(lfn),
            RefineFault::TooMany(count, limit) => PlanFault::TooMany(Counted::Tasks, count, limit),
            RefineFault::Memory => PlanFault::Memory,
        }
    }
}

#[tactic(auto, using(crate::proofs::PlanFaultLemmas::tree_fault_but_memory))]
fn of_tree_fault(which: Document, fault: TreeFault) -> PlanFault
    ensures { result ≡ tree_fault which fault }
{
    if let TreeFault::Memory = fault {
        return PlanFault::Memory;
    }
    PlanFault::Tree(which, fault)
}

/// The fault of a document that can't be read.
pub fn of_read_fault(which: Document, fault: ReadFault) -> PlanFault
    ensures { result ≡ read_fault which fault }
{
    match fault {
        ReadFault::Tree(fault) => of_tree_fault(which, fault),
        ReadFault::TooMany(counted, count, limit) => PlanFault::TooMany(counted, count, limit),
        ReadFault::DuplicateJob(id) => PlanFault::DuplicateJob(id),
        ReadFault::DuplicateUse(id, lfn) => PlanFault::DuplicateUse(id, lfn),
        ReadFault::UnknownJob(id) => PlanFault::UnknownJob(id),
        ReadFault::DuplicateSite(name) => PlanFault::DuplicateSite(name),
        ReadFault::DuplicateTransformation(name) => PlanFault::DuplicateTransformation(name),
    }
}
