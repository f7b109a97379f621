//! How many images a workload has.

ghost use Rattle.std.specs.Prelude.{◌≤◌};

/// How many images a workload has.
#[derive(Clone, Copy)]
pub(crate) struct Images {
    pub(crate) count: u32,
    ghost some: { 2 ≤ count },
    ghost few: { count ≤ 3000 },
}
