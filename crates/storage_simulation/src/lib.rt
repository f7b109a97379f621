//! What a plan's sites hold after a front of an order, whether an order fits, and the stated order.
//!
//! To the layer above this is usage and fit as `specs/Usage.antt`, `Following.antt` and `Fitting.antt` define them,
//! over the goods and places of `specs/Goods.antt`: a good is a pair or a delivery, a place is a site or the output.
//! The plan is asked by number, in the words of `plan_core`. The stated order is that of `specs/Ordering.antt`, from
//! any standing; it is made on a [`Bench`], which takes its memory once. Inside a bench are the front of the order and
//! an index of the tasks that may be placed next (`specs/code/Front.antt`, `Index.antt`).
//!
//! [`order`] takes a proper plan and answers it with its order and each place's peak ([`Ordered`]), or why there is
//! none; [`order_from`] does so from a standing. [`follows`] tells whether a list is an order of what is left, [`fits`]
//! the first task after which a place passes its bound, and [`usage_after`] what a place holds after a front. Laws say
//! that an order is determined, that it fits, and that what is held is a sum over goods.
#![tactic(auto)]

mod advancing;
mod bench;
mod change;
mod choosing;
mod fitting;
mod following;
mod front;
mod goods;
mod index;
mod keying;
mod law;
mod laying;
mod order_law;
mod ordered;
mod ordering;
mod placing;
mod refreshing;
mod resetting;
mod room;
mod scoring;
mod standing;
mod upkeep;
mod usage;

pub use bench::Bench;
pub use change::size_at;
pub use fitting::{Exceeds, fits};
pub use following::follows;
pub use front::{children_of, parent_graph};
pub use goods::{
    cleaned_by, finds_made, good_size, is_delivery, lies_at, place_bound, place_of, places,
};
pub use law::{
    pairs_are_few, plain_policy_counts_pairs, proper_plans_keep_goods, sums_are_small,
    usage_is_a_sum,
};
pub use order_law::{
    order_fits, order_is_a_function, order_is_determined, some_task_is_next, steps_fit,
};
pub use ordered::{OrderFault, OrderRefused, Ordered, order};
pub use ordering::order_from;
pub use placing::count_down;
pub use standing::{Held, Phase, Standing};
pub use usage::usage_after;
