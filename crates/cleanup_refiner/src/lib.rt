//! Cleans: after whom each pair of a plan is removed from its site.
//!
//! [`add_cleans`] adds one Clean for each pair (`specs/Cleans.antt`), after the pair's writer and all its readers.
#![tactic(auto)]

mod cleans;
mod law;
mod touching;

pub use cleans::{CleanRefused, add_cleans};
pub use law::{
    cleaned_plan_carries_the_same, cleaned_plan_is_proper, cleaned_plan_means_the_same,
    cleans_carry_nothing,
};
