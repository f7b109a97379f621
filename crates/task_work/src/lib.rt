//! What a task's bytes become, over readings and drafts.
//!
//! [`fill`] moves a Transfer's bytes in pieces and compares their digest, or reads what a Run reads, computes its jobs,
//! looks at the sizes and writes what they make (`specs/Filling.antt`). It knows a plan and the parts of a host, but
//! neither host nor store nor lock: a worker calls it while others do their own.
#![tactic(auto)]

mod computing;
mod filling;
mod law;
mod making;
mod moving;
mod names;
mod overlong;
mod pieces;
mod running;
mod table;

pub use filling::{Filled, fill};
pub use law::runs_carry_what_they_compute;
pub use pieces::{Moved, move_pieces, read_whole, write_whole};
