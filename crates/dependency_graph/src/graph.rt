//! The graph of a workflow.

ghost use Rattle.std.specs.Prelude.{◌≡◌, ◌<◌, ℕ, length, map, is_some, IfOk};
ghost use Rattle.workflow_core.specs.declared.workflow.Workflow.{Workflow};
ghost use Rattle.digraph.specs.code.Adjacency.{lists_of};
ghost use Rattle.digraph.specs.Adjacency.{AreNeighbours};
ghost use Rattle.digraph.specs.code.Digraph.{count, edge};
ghost use Rattle.dependency_graph.specs.Edges.{producer};
ghost use Rattle.dependency_graph.specs.Graph.{numbers, jobs_at, producer_of_file, IsGraphOf};
ghost use Rattle.dependency_graph.specs.code.Graph.{job_lists};

use digraph::Digraph;
use std::alloc::Global;
use std::marker::Model;
use values::{FileId, JobId, Memory};

/// The jobs before and after each job, the job that makes each file, and an order of all jobs.
pub struct Graph {
    producers: Vec<Option<JobId>>,
    parents: Vec<Vec<JobId>>,
    children: Vec<Vec<JobId>>,
    ordered: Vec<JobId>,
}

impl Drop for Graph {
    fn drop(self) {
        let Graph {
            producers,
            parents,
            children,
            ordered,
        } = self;
    }
}

impl Model for Graph {
    ghost use Rattle.dependency_graph.specs.Graph.{Links};
    ghost use Rattle.dependency_graph.specs.code.Graph.{job_lists};

    ghost Value = { Links };

    ghost view = { λ g. record {
      producers = g.producers.items;
      parents = job_lists g.parents.items;
      children = job_lists g.children.items;
      ordered = g.ordered.items;
    } };
}

impl Graph {
    /// The jobs from which an edge leads to this one, in rising order.
    pub fn parents(&self, job: JobId) -> &[JobId]
        requires { job.0 < length self.now.parents }
        ensures { result.now ≡ jobs_at self.now.parents job.0 }
    {
        &self.parents[job.0 as usize]
    }

    /// The jobs to which an edge leads from this one, in rising order.
    pub fn children(&self, job: JobId) -> &[JobId]
        requires { job.0 < length self.now.children }
        ensures { result.now ≡ jobs_at self.now.children job.0 }
    {
        &self.children[job.0 as usize]
    }

    /// The job that makes a file.
    pub fn producer(&self, file: FileId) -> Option<JobId>
        requires { file.0 < length self.now.producers }
        ensures { result ≡ producer_of_file self.now.producers file.0 }
    {
        self.producers[file.0 as usize]
    }

    /// Whether a job makes the file.
    pub fn is_made(&self, file: FileId) -> bool
        requires { file.0 < length self.now.producers }
        ensures { (w : Workflow) → IsGraphOf w self.now → result ≡ is_some (producer w.jobs file.0) }
    {
        self.producer(file).is_some()
    }

    /// Every job once, each after its parents.
    pub fn ordered(&self) -> &[JobId]
        ensures { result.now ≡ self.now.ordered }
    {
        &self.ordered
    }
}

fn job_ids(alloc: Global, nodes: &[u32]) -> Result<Vec<JobId>, Memory>
    ensures { IfOk result (λ ids. numbers ids.items ≡ nodes.now) }
{
    let mut ids = Vec::new(alloc);
    for node in nodes {
        ids.push(JobId(*node))?;
    }
    Ok(ids)
}

fn job_lists(alloc: Global, lists: &[Vec<u32>]) -> Result<Vec<Vec<JobId>>, Memory>
    ensures { IfOk result (λ jobs. map numbers (job_lists jobs.items) ≡ lists_of lists.now) }
{
    let mut jobs = Vec::new(alloc);
    for list in lists {
        jobs.push(job_ids(alloc, list)?)?;
    }
    Ok(jobs)
}

/// The graph of jobs that are numbers in a directed graph, with an order of them.
pub fn graph_of(
    alloc: Global,
    producers: Vec<Option<JobId>>,
    digraph: &Digraph,
    order: &[u32],
) -> Result<Graph, Memory>
    ensures producers { IfOk result (λ g. g.producers ≡ producers.items) }
    ensures parents { IfOk result (λ g. AreNeighbours (λ b a. edge digraph.now a b) (count digraph.now)
        (map numbers g.parents)) }
    ensures children { IfOk result (λ g. AreNeighbours (edge digraph.now) (count digraph.now)
        (map numbers g.children)) }
    ensures ordered { IfOk result (λ g. numbers g.ordered ≡ order.now) }
{
    let parents = job_lists(alloc, digraph.predecessors())?;
    let children = job_lists(alloc, digraph.successors())?;
    let ordered = job_ids(alloc, order)?;
    Ok(Graph {
        producers,
        parents,
        children,
        ordered,
    })
}
