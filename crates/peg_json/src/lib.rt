//! Documents that are JSON texts: their trees, and the keys of their objects.
//!
//! [`parse`] answers the tree of a text. Of an object [`checked`] looks at every row of a [`KeyTable`] and answers the
//! first fault, and [`gather`] adds the paths of the keys that no row has. What stands at a key is read by [`FromTree`]:
//! one value, a list ([`list_at`], [`list_or_none`]) or the members of an object whose keys are free ([`entries_at`]). A
//! [`TreeFault`] names the path (RFC 6901) where it was found, a [`ReadFault`] has besides what is wrong between
//! elements: too many of them, or a name twice ([`check_sites`]).
#![tactic(auto)]

mod count;
mod entries;
mod fault;
mod kinds;
mod list;
mod listed;
mod lists;
mod member;
mod name;
mod path;
mod pegasus_profiles;
mod profiles;
mod read_fault;
mod refused;
mod row;
mod selector_profiles;
mod sites;
mod table;
mod tree;
pub mod typed;
mod versions;

pub use count::at_most;
pub use entries::entries_at;
pub use fault::TreeFault;
pub use list::list_at;
pub use listed::{Listed, gather_list, gather_object, ignored_below};
pub use lists::list_or_none;
pub use member::{checked, gather, ignored, present};
pub use name::{Name, number_at};
pub use path::{at_key, root};
pub use pegasus_profiles::PegasusProfiles;
pub use profiles::{Profiles, profiles_or_none};
pub use read_fault::{Counted, ReadFault};
pub use refused::{refuse_elements, refuse_flag, refuse_value};
pub use row::{KeyRow, Kind};
pub use selector_profiles::SelectorProfiles;
pub use sites::{SiteNamed, check_sites};
pub use table::KeyTable;
pub use tree::{FromTree, parse};
pub use versions::{optional_version, version};
