//! What is known of a site.

use c_tree::{Affine, Affines, Rel, Site};
use sqlite_items::Items;

/// A site of an array. Variables are numbered from 1: the `int64_t` parameters in declared order, and then the loops in
/// text order.
#[derive(Drop)]
pub struct SiteInfo {
    pub site: Site,
    /// The number of the item that makes the access.
    pub statement: u32,
    /// The place of the access among those of its statement, from 0.
    pub position: u32,
    pub write: bool,
    /// The loops around the site, the outermost first.
    pub loops: Loops,
    /// The conditions around the site, the outermost first.
    pub tests: SiteTests,
    pub subscripts: Subscripts,
}

pub type Loops = Items<LoopInfo>;

pub type SiteTests = Items<TestInfo>;

pub type Subscripts = Items<Subscript>;

/// Each comparison of a condition with its sides.
pub type Sides = Items<(Rel, Affine, Affine)>;

/// A loop around a site.
#[derive(Drop)]
pub struct LoopInfo {
    pub item: u32,
    /// The number of its variable.
    pub var: u32,
    pub lo: Affine,
    pub rel: Rel,
    pub hi: Affine,
}

/// A condition around a site.
#[derive(Drop)]
pub struct TestInfo {
    pub item: u32,
    /// Whether the site stands in the branch that the condition chooses, and not under its `else`.
    pub first_branch: bool,
    pub sides: Sides,
}

#[derive(Drop)]
pub enum Subscript {
    Plain(Affine),
    /// A cell of the index array of this number, counted from 0 in declared order, with the subscripts of that cell.
    Index(u32, Affines),
}

/// The sites of an array, in text and access order.
pub type SiteList = Items<SiteInfo>;

/// The sites of each array, in declared order.
pub type SiteLists = Items<SiteList>;
