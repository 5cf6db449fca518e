//! A demonstration: the kernel of a number.

ghost use Rattle.std.specs.Prelude.{◌≤◌, IfOk};
ghost use Rattle.demo_kernels.specs.Demos.{IsDemo, IsUsable};
ghost use Rattle.demo_kernels.specs.Kernels.{kernel_of as kernel_with};

use crate::data::data_of;
use crate::flip::flip_of;
use crate::laws::kernels_are_usable;
use crate::source::source_of;
use c_tree::OutOfMemory;
use edge::ByteList;
use std::alloc::Global;

/// The texts of a source, of inputs and of a flip.
#[derive(Drop)]
pub struct Demo {
    pub source: ByteList,
    pub inputs: ByteList,
    pub flip: ByteList,
}

fn texts_of(alloc: Global, number: u32) -> Result<Demo, OutOfMemory>
    requires { number ≤ 399 }
    ensures { IfOk result (IsDemo number) }
{
    let flip = ByteList::new(flip_of(alloc, number)?.into_bytes());
    let source = Vec::from_slice(alloc, source_of(number))?;
    Ok(Demo {
        source: ByteList::new(source),
        inputs: data_of(alloc, number)?,
        flip,
    })
}

/// The texts of the kernel of a number up to 399.
pub fn kernel_of(alloc: Global, number: u32) -> Result<Demo, OutOfMemory>
    requires { number ≤ 399 }
    ensures texts { IfOk result (IsDemo number) }
    ensures usable { IsUsable (kernel_with number) number }
{
    kernels_are_usable();
    texts_of(alloc, number)
}
