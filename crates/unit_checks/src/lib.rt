//! Which refusals of a unit hold at its head and at each item, but for those of affine expressions.
#![tactic(auto)]

mod counts;
mod dimensions;
mod index_arrays;
mod kinds;
mod known;
mod literals;
mod name_lists;
mod names_twice;
mod ranges;
mod reserved_names;
mod targets;
mod totals;
mod wrong_kinds;

pub use counts::{array_count, assignments_in, int_count, loop_depth, reads_in};
pub use dimensions::has_wrong_dimensions;
pub use index_arrays::has_bad_index_array;
pub use known::{has_unknown_name, head_has_unknown_name};
pub use literals::has_bad_literal;
pub use names_twice::{has_name_twice, head_has_name_twice};
pub use ranges::head_has_bad_range;
pub use reserved_names::{has_reserved_name, head_has_reserved_name};
pub use targets::{has_irregular_write, writes_to_const};
pub use wrong_kinds::{has_wrong_kind, head_has_wrong_kind};
