//! What has to be affine in a source, with terms and intervals within their limits: the refusals S9 to S12 at an item and at the head.
#![tactic(auto)]

mod affine;
mod bounds;
mod demand;
mod head;
mod narrow;
mod parts;
mod small;
mod statement;

pub use affine::is_affine;
pub use head::{extents_not_affine, extents_not_positive, extents_too_large, extents_too_wide};
pub use statement::{interval_of_loop, is_not_affine, is_too_large, is_too_wide};
