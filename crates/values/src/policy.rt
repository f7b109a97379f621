//! How a run goes on where a task fails or waits.

ghost use Rattle.std.specs.Prelude.{◌≡◌};
ghost use Rattle.values.specs.code.Policy.{plain};

/// A run's policy.
#[derive(Drop)]
pub struct Policy {
    /// How often a task that failed may be tried again.
    pub retries: u32,
    /// Whether a new order is tried where no task of the stated one can start.
    pub fresh: bool,
    /// The bound on the bytes of what is delivered, where there is one.
    pub output: Option<u64>,
}

impl Policy {
    /// No second try, the stated order alone, and no bound on what is delivered.
    pub fn plain() -> Policy
        ensures { result ≡ plain }
    {
        Policy {
            retries: 0,
            fresh: false,
            output: None,
        }
    }
}
