//! Whether a record is legal for an ordered plan, and what its entries come to.
//!
//! A record is replayed on a book of the plan, entry by entry: the first entry that isn't allowed
//! there is the first illegal one. What is allowed, and when a record is complete, are definitions
//! of `lease_book`; what is said of a record here is in `specs/Verdict.antt` and `specs/Sums.antt`,
//! and which part of a document is read as a record in `specs/Part.antt`.
//!
//! [`audit`] answers the [`Verdict`]: complete, legal, or the first illegal entry; [`statistics`] what the entries of a
//! legal record come to; [`replay`] adds one entry to a book. A law says that a legal and complete record has no other
//! verdict, and one that what a run printed is read as its record.
#![tactic(auto)]

mod causes;
mod counting;
mod holdings;
mod law;
mod part;
mod replaying;
mod sums;
mod text;
mod verdict;

pub use counting::statistics;
pub use law::{complete_records_are_judged_so, printed_records_are_read};
pub use part::record_part;
pub use replaying::replay;
pub use sums::Statistics;
pub use text::{push_statistics, push_verdict};
pub use verdict::{Verdict, audit};
