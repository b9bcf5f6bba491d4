// A sink that keeps the bytes in memory, until there is too little of it.
ghost use Rattle.std.specs.Prelude.{◌≡◌, ℕ, true, List, [], is_ok, IfOk};
ghost use Rattle.sink.specs.Keeping.{Keeps};

use crate::sink::Sink;
use std::alloc::{AllocError, Global};

// After a failure nothing more is kept.
#[derive(Drop)]
pub struct VecSink {
    kept: Result<Vec<u8>, AllocError>,
}

impl VecSink {
    pub fn new(heap: Global) -> VecSink
        ensures empty { Keeps result [] }
        ensures ready { is_ok result.kept ≡ true }
    {
        VecSink {
            kept: Ok(Vec::new(heap)),
        }
    }

    // What is put comes after these bytes, in the room that they have.
    pub fn from_vec(bytes: Vec<u8>) -> VecSink
        ensures kept { Keeps result bytes.items }
        ensures ready { is_ok result.kept ≡ true }
    {
        VecSink { kept: Ok(bytes) }
    }

    // The bytes, unless memory ran out.
    pub fn finish(self) -> Result<Vec<u8>, AllocError>
        ensures { (m : List ℕ) → Keeps self m → IfOk result (λ v. v.items ≡ m) }
    {
        self.kept
    }
}

impl Sink for VecSink {
    ghost holds = { Keeps };

    fn put(&mut self, bytes: &[u8]) {
        if let Ok(kept) = &mut self.kept {
            if let Err(failure) = kept.extend_from_slice(bytes) {
                self.kept = Err(failure);
            }
        }
    }
}
