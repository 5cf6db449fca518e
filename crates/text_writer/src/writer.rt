//! A text that is being written.

ghost use Rattle.std.specs.Prelude.{◌≡◌, [], false, IfOk, decimal};
ghost use Rattle.text_writer.specs.Written.{Adds, fixed};

use std::alloc::{AllocError, Global};

/// A text that is being written.
#[derive(Drop)]
pub struct Writer {
    pub bytes: Vec<u8>,
    /// Memory ran out, so that bytes are missing.
    pub failed: bool,
}

impl Writer {
    /// A text without bytes. Takes no memory.
    pub fn new(alloc: Global) -> Writer
        ensures { (result.bytes.items ≡ []) × (result.failed ≡ false) }
    {
        Writer {
            bytes: Vec::new(alloc),
            failed: false,
        }
    }

    /// Appends bytes.
    pub fn put(&mut self, piece: &[u8])
        ensures { Adds self.old self.new (fixed piece.now) }
    {
        if !self.failed {
            self.failed = self.bytes.extend_from_slice(piece).is_err();
        }
    }

    /// Appends the decimal digits of a number.
    pub fn put_number(&mut self, number: u64)
        ensures { Adds self.old self.new (fixed (decimal number)) }
    {
        match format!(in *self.bytes.allocator(); "{number}") {
            Ok(digits) => self.put(digits.as_bytes()),
            Err(_) => self.failed = true,
        }
    }

    /// The text, or an error where memory ran out.
    pub fn finish(self) -> Result<Vec<u8>, AllocError>
        ensures { IfOk result (λ bytes. (bytes ≡ self.bytes) × (self.failed ≡ false)) }
    {
        if self.failed {
            return Err(AllocError);
        }
        Ok(self.bytes)
    }
}
