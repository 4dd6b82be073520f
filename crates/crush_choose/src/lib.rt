//! Running the rules of a CRUSH map: the items that their steps choose, and what lowered reweights
//! leave as it was.
//!
//! Sources: Weil et al., 'CRUSH: Controlled, Scalable, Decentralized Placement of Replicated Data'
//! (SC 2006), and `crush_do_rule` of Ceph's `src/crush/mapper.c`. A rule that runs allocates
//! nothing and can't fail. The tests are in the crate `choosing_tests`.
//!
//! A scratch gives the tables that it is of (`Scratch::tables`), so what chooses takes the scratch
//! alone. Public calls take the tables too, since their contracts name them.
#![tactic(auto)]

mod ahead;
mod effort;
mod firstn;
mod indep;
pub mod laws;
pub mod limits;
mod mark;
mod plan;
mod reachable;
mod row;
mod rule;
pub mod stability;
mod walk;
mod weights;

pub use ahead::{can_look_ahead, look_ahead};
pub use firstn::{FirstnCall, choose_firstn, has, slot_has};
pub use indep::{IndepCall, choose_indep};
pub use mark::{Mark, Spot};
pub use row::{Row, Slot};
pub use rule::{Out, run_rule, touches};
pub use walk::WalkEnd;
pub use weights::{FULL, Weights, is_in};
