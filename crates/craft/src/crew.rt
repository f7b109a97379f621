//! What one worker works with.

use crate::gate::Gate;
use outside::Tool;

/// A worker's tool and gate.
#[derive(Drop)]
pub struct Crew<T: Tool, G: Gate> {
    pub tool: T,
    pub gate: G,
}
