//! What one packet carries of a message.
ghost use Rattle.std.specs.Prelude.{◌≡◌, ◌≤◌, ◌++◌, length, IfOk, IfSome, IfNone};
ghost use Rattle.std.specs.Int.{w64, to_be_bytes};
ghost use Rattle.fs_frag.specs.Segment.{IsSegment};

use fs_ident::{Memory, Twin};
use std::alloc::Global;
use std::marker::Model;
use std::rc::Rc;

/// The most bytes of a segment.
pub const SEGMENT: usize = 1024;

/// From 1 to 1,024 bytes. Copies share them, and take no memory.
#[derive(Debug, Drop)]
pub struct Segment {
    bytes: Rc<Vec<u8>>,
}

impl Model for Segment {
    ghost use Rattle.std.specs.Prelude.{List, ℕ};
    ghost use Rattle.fs_frag.specs.Segment.{IsSegment};

    ghost Value = { List ℕ };

    ghost view = { λ s. s.bytes.value.items };

    ghost invariant = { λ s. IsSegment s.bytes.value.items };
}

impl Segment {
    /// The segment of these bytes; `None` exactly where there are none or more than 1,024.
    pub fn new(alloc: Global, bytes: &[u8]) -> Result<Option<Segment>, Memory>
        ensures some { IfOk result (λ made. IfSome made (λ s. s ≡ bytes.now)) }
        ensures valid { IfOk result (λ made. IfSome made (λ _. IsSegment bytes.now)) }
        ensures none { IfOk result (λ made. IfNone made (IsSegment bytes.now → ⊥)) }
    {
        if bytes.is_empty() || bytes.len() > SEGMENT {
            return Ok(None);
        }
        Ok(Some(Segment {
            bytes: Rc::new(alloc, Vec::from_slice(alloc, bytes)?)?,
        }))
    }

    /// A message's first segment: its length as eight bytes, and the bytes at its front.
    pub(crate) fn behind_length(alloc: Global, len: u64, front: &[u8]) -> Result<Segment, Memory>
        requires { length front.now ≤ 1016 }
        ensures { IfOk result (λ s. s ≡ to_be_bytes w64 len ++ front.now) }
    {
        let mut bytes = Vec::with_capacity(alloc, 8 + front.len())?;
        bytes.extend_from_slice(&len.to_be_bytes())?;
        bytes.extend_from_slice(front)?;
        Ok(Segment {
            bytes: Rc::new(alloc, bytes)?,
        })
    }

    /// Its bytes.
    pub fn bytes(&self) -> &[u8]
        ensures same { result.now ≡ self.now }
        ensures valid { IsSegment self.now }
    {
        &self.bytes
    }
}

impl Twin for Segment {
    fn copy(&self, _: Global) -> Result<Segment, Memory> {
        Ok(Segment {
            bytes: self.bytes.clone()?,
        })
    }

    fn discard(self) {}
}
