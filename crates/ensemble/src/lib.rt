//! Ensembles: several workflows that are planned and run under the same bounds as one.
//!
//! `read` reads an ensemble's document (`specs/Reader.antt`): its members by name, and the keys that take the place of
//! those of each member's request (`specs/Applying.antt`). `join` makes one request and one survey of the members'
//! (`specs/Joining.antt`), in which each name of a member begins with the member's and a `/`; what it gives is a
//! `Surveyed` of `planner`, from which planning goes on. `joint_means_the_members` says that each part of the joint is
//! worth what it is worth to its member alone (`specs/Law.antt`).
#![tactic(auto)]

mod applying;
mod catalogues;
mod copying;
mod counting;
mod document;
mod entries;
mod fault;
mod jobs;
mod join_fault;
mod joining;
mod law;
mod member;
mod member_entry;
mod member_names;
mod prefix;
mod reader;
mod requests;
mod root;
mod site_copies;
mod stated;
mod workflows;

pub use applying::{ensemble_request, member_request};
pub use document::{Ensemble, MemberEntry};
pub use fault::EnsembleFault;
pub use join_fault::JoinFault;
pub use joining::join;
pub use law::{joint_means_the_members, joint_workflows_are_sound, surveyed_members_are_members};
pub use member::Member;
pub use reader::read;
