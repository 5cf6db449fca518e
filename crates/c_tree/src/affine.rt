//! Affine sums.

ghost use Rattle.std.specs.Prelude.{◌≡◌, IfOk};

use crate::copied::Copied;
use crate::memory::OutOfMemory;
use sqlite_items::Items;
use std::alloc::Global;

/// The sum of a constant and of terms. In a [`Frame`](crate::Frame) the variables are numbered from
/// 1: the `int64_t` parameters in declared order.
#[derive(Drop)]
pub struct Affine {
    pub constant: i64,
    pub terms: Terms,
}

/// A term is a variable and its coefficient. Terms stand in the order of their variables, and no
/// coefficient is 0.
pub type Terms = Items<(u32, i64)>;

pub type Affines = Items<Affine>;

impl Affine {
    /// The same constant and the same terms.
    pub fn copy(&self, alloc: Global) -> Result<Affine, OutOfMemory>
        ensures { IfOk result (λ copied. copied ≡ self.now) }
    {
        Ok(Affine {
            constant: self.constant,
            terms: Items::from_slice(alloc, self.terms.as_slice())?,
        })
    }
}

/// The same sums.
impl Copied for Items<Affine> {
    ghost same = { λ copied sums. copied ≡ sums };

    fn copy(&self, alloc: Global) -> Result<Items<Affine>, OutOfMemory> {
        let mut copies = Items::new(alloc);
        for sum in self.as_slice() {
            copies.push(sum.copy(alloc)?)?;
        }
        Ok(copies)
    }
}
