// Byte strings.
ghost use Rattle.std.specs.Prelude.{◌≡◌, IfOk};

use crate::OutOfMemory;
use std::alloc::Global;
use std::marker::Model;
use std::rc::Rc;

/// Any bytes. Copies share them.
#[derive(Drop)]
pub struct Bytes {
    bytes: Rc<Vec<u8>>,
}

impl Model for Bytes {
    ghost use Rattle.std.specs.Prelude.{List, ℕ};

    ghost Value = { List ℕ };

    ghost view = { λ a. a.bytes.value.items };
}

impl Bytes {
    /// These bytes, copied.
    pub fn new(alloc: Global, b: &[u8]) -> Result<Bytes, OutOfMemory>
        ensures { IfOk result (λ t. t ≡ b.now) }
    {
        let bytes = Rc::new(alloc, Vec::from_slice(alloc, b)?)?;
        Ok(Bytes { bytes })
    }

    /// The bytes.
    pub fn as_slice(&self) -> &[u8]
        ensures { result.now ≡ self.now }
    {
        self.bytes.as_slice()
    }

    /// Equal bytes, which are shared.
    pub fn copy(&self) -> Result<Bytes, OutOfMemory>
        ensures { IfOk result (λ t. t ≡ self.now) }
    {
        Ok(Bytes {
            bytes: self.bytes.clone()?,
        })
    }
}
