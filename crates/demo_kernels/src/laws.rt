//! What the kernels are good for.

ghost use Rattle.std.specs.Prelude.{ℕ, ◌≤◌};
ghost use Rattle.acceptance.specs.Sources.{IsAcceptedSource};
ghost use Rattle.demo_kernels.specs.Demos.{IsUsable};
ghost use Rattle.demo_kernels.specs.Kernels.{kernel_of};

use acceptance::{worked_limits, worked_sources};
use data_file::{fits_as_frame, written_is_read};
use fault_plan::{flip_is_read_back, flips_fit_units};

/// The kernel of each number is accepted. That of each number up to 399 has sound inputs and a flip that fits them, which
/// are what their texts mean.
pub fn kernels_are_usable()
    ensures accepted { (number : ℕ) → IsAcceptedSource (kernel_of number).unit }
    ensures usable { (number : ℕ) → number ≤ 399 → IsUsable (kernel_of number) number }
{
    worked_sources();
    worked_limits();
    fits_as_frame();
    written_is_read();
    flips_fit_units();
    flip_is_read_back();
}
