//! Numbers that may run out.

ghost use Rattle.std.specs.Prelude.{◌≡◌, IfOk, suc};

use c_tree::OutOfMemory;

/// The number after this one. Where that is too large, the answer is that memory is wanting.
pub fn after(n: u32) -> Result<u32, OutOfMemory>
    ensures { IfOk result (λ m. m ≡ suc n) }
{
    match n.checked_add(1) {
        Some(m) => Ok(m),
        None => Err(OutOfMemory),
    }
}
