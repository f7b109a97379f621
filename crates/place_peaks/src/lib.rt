//! What the places of a plan hold along its order, in one tree for each place, and the Choice found by these trees.
//!
//! To the layer above this is the state of a record (`lease_rules`) once more: the order that is kept, a mark for each
//! task that is left in it, and a stack of the tasks that wait again. A tree has a position for each task of the order
//! that changes its place, with what the place holds after that task and all that are left before it
//! (`specs/Values.antt`, `Places.antt`). `AreTied` of `specs/Entries.antt` ties all of it to a state; for each entry
//! there is a call that keeps the tie, whether the task stands in the order or on the stack, and a Fail changes
//! nothing. [`Peaks::choose`] answers the Choice of every state to which they are tied: of each place it asks the ready
//! task that needs least, and then those before it alone, by an index of what the ready tasks need
//! (`specs/Ready.antt`). A call costs some logarithms of the number of tasks for each good that it settles and each
//! child of its task; an opening, and a fresh order, is walked along for each place.
#![tactic(auto)]

mod asking;
mod choosing;
mod cleaning;
mod entries;
mod front;
mod goods;
mod granting;
mod law;
mod links;
mod opening;
mod peaks;
mod ready;
mod renewing;
mod searching;
mod seating;
mod settling;
mod stack;
mod tree;
mod waiting;

pub use law::{fails_keep_peaks, peaks_are_seated};
pub use links::Links;
pub use peaks::Peaks;
pub use renewing::held_size;
