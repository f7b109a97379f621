//! What a rehearsal needs beside planning and running: its workload, and the text that tells of it.
//!
//! [`prepare`] makes the workload of so many images, surveys its documents and puts the images into a store in memory
//! (`specs/Preparing.antt`). It looks whether the catalogue registers the images alone (`registered`) and whether
//! mosaic.txt is the one requested file (`mosaic`). [`summary`] makes the text of a rehearsal that is done
//! (`specs/Summary.antt`), and a [`Rehearsal`] is what it gives back.
#![tactic(auto)]

mod figures;
mod mosaic;
mod preparing;
mod registered;
mod rehearsal;

pub use figures::{Figures, summary};
pub use preparing::{Prepared, prepare};
pub use rehearsal::Rehearsal;
