//! The transformations that come with the product.
//!
//! `Shipped` is a tool that never fails: a run makes what `specs/Shipped.antt` defines, or
//! declines exactly where that is undefined.
#![tactic(auto)]

pub mod law;
mod lines;
mod number;
mod shipped;
mod transformation;

pub use shipped::Shipped;
pub use transformation::Transformation;
