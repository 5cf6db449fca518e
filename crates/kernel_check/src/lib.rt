//! Which units are accepted, and what is known of one that is.
#![tactic(auto)]

mod conditions;
mod count;
mod counts;
mod heads;
mod judge;
mod kernel;
mod laws;
mod refusing;
mod top;
mod walk;

pub use judge::{judge_printed, judge_source};
pub use kernel::{Kernel, Printed, check, check_printed, class_of, frame};
pub use laws::refused_or_not;
pub use sites::{
    Class, LoopInfo, Loops, Sides, SiteInfo, SiteTests, Subscript, Subscripts, TestInfo,
};
