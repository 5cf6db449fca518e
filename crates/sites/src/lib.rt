//! The sites of a source, which are its reads and writes of arrays, and the classes of its arrays.
//! `specs/Sites` says which the sites are, and `specs/Classes` which class an array has.
#![tactic(auto)]

mod around;
mod class;
mod collect;
mod form;
mod frames;
mod good;
mod info;
mod laws;
mod lists;
mod numbers;
mod occurs;
mod outers;
mod question;
mod report;
mod small;
mod subscripts;
mod variables;
mod walk;

pub use class::Class;
pub use info::{
    LoopInfo, Loops, Sides, SiteInfo, SiteList, SiteLists, SiteTests, Subscript, Subscripts,
    TestInfo,
};
pub use laws::{worked_arrays, worked_classes, worked_sites};
pub use lists::sites_of;
pub use report::{class_of, reads_of, writes_of};
