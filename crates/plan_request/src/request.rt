//! What a request asks for.

ghost use Rattle.std.specs.Prelude.{◌≡◌};

use values::{Items, Policy, Text};

/// A whole request. Sizes are in bytes.
pub struct PlanRequest {
    /// The documents' names.
    pub workflow: Text,
    pub sites: Option<Text>,
    pub replicas: Option<Text>,
    pub transformations: Option<Text>,
    pub execute: Items<Execution>,
    /// In byte order of the files' names.
    pub sizes: Items<SizeOf>,
    pub default_size: Option<u64>,
    pub cluster: ClusterMode,
    pub cleanup: Cleanup,
    /// Whether files that are registered are made again.
    pub force: bool,
    /// In byte order of the transformations' names.
    pub tools: Items<ToolOf>,
    pub policy: Policy,
    pub selector: Selector,
    /// Bytes that are moved from one site to another in a second, from 1 to 2^40.
    pub rate: u64,
    pub runtimes: Items<Runtime>,
}

impl Drop for PlanRequest {
    fn drop(self) {
        let PlanRequest {
            workflow,
            sites,
            replicas,
            transformations,
            execute,
            sizes,
            default_size,
            cluster,
            cleanup,
            force,
            tools,
            policy,
            selector,
            rate,
            runtimes,
        } = self;
    }
}

impl PlanRequest {
    /// The request with other sites, and with these keys in place of its own.
    pub fn with_execution(
        self,
        execute: Items<Execution>,
        cluster: ClusterMode,
        cleanup: Cleanup,
        force: bool,
        policy: Policy,
    ) -> PlanRequest
        ensures { result ≡ record self {
          execute = execute;
          cluster = cluster;
          cleanup = cleanup;
          force = force;
          policy = policy;
        } }
    {
        let PlanRequest {
            workflow,
            sites,
            replicas,
            transformations,
            execute: own_execute,
            sizes,
            default_size,
            cluster: _,
            cleanup: _,
            force: _,
            tools,
            policy: own_policy,
            selector,
            rate,
            runtimes,
        } = self;
        drop(own_execute);
        PlanRequest {
            workflow,
            sites,
            replicas,
            transformations,
            execute,
            sizes,
            default_size,
            cluster,
            cleanup,
            force,
            tools,
            policy,
            selector,
            rate,
            runtimes,
        }
    }
}

/// A site that runs jobs, with the bound on the bytes that it holds.
#[derive(Drop)]
pub struct Execution {
    pub site: Text,
    pub bound: u64,
}

/// The size of a file, whatever its uses state.
#[derive(Drop)]
pub struct SizeOf {
    pub lfn: Text,
    pub size: u64,
}

/// The tool that does the work of a transformation.
#[derive(Drop)]
pub struct ToolOf {
    pub transformation: Text,
    pub tool: Text,
}

/// How long the jobs of a transformation run at a site, in seconds, from 1 to 2^32. Of two such
/// entries the first one holds.
#[derive(Drop)]
pub struct Runtime {
    pub transformation: Text,
    pub site: Text,
    pub seconds: u64,
}

/// How sites are chosen: in turns, or each job's where it would be finished first.
#[derive(Clone, Copy, PartialEq, Eq)]
pub enum Selector {
    RoundRobin,
    Heft,
}

/// Which jobs are put together into one task.
#[derive(Clone, Copy, PartialEq, Eq)]
pub enum ClusterMode {
    None,
    Horizontal,
    Label,
}

/// When files are removed from a site.
#[derive(Clone, Copy, PartialEq, Eq)]
pub enum Cleanup {
    None,
    Inplace,
    Constraint,
}
