//! What happened on a medium in memory: writes and syncs.
ghost use Rattle.std.specs.Prelude.{◌≡◌, IfOk};

use crate::stops::Stop;
use std::alloc::{AllocError, Global};
use std::marker::Model;

// The bytes of a write, which contracts see as a list.
#[derive(Drop)]
pub struct WrittenBytes {
    inner: Vec<u8>,
}

impl Model for WrittenBytes {
    ghost use Rattle.std.specs.Prelude.{List, ℕ};

    ghost Value = { List ℕ };

    ghost view = { λ b. b.inner.items };
}

impl WrittenBytes {
    pub fn copy_of(alloc: Global, bytes: &[u8]) -> Result<WrittenBytes, AllocError>
        ensures { IfOk result (λ b. b ≡ bytes.now) }
    {
        let inner = bytes.to_vec(alloc)?;
        Ok(WrittenBytes { inner })
    }

    pub fn as_slice(&self) -> &[u8]
        ensures { result.now ≡ self.now }
    {
        self.inner.as_slice()
    }
}

// What was done to a medium.
#[derive(Drop)]
pub enum Event {
    Wrote(u32, u16, WrittenBytes),
    Synced,
    // After this stop, where there was one.
    Reopened(Option<Stop>),
}
