// The walk's own recording.
use recordings::cutting::byte_at;
use std::alloc::{AllocError, Global};

// How many bytes it has.
pub const RECORDED: u16 = 12_000;

// The recording.
pub fn made(heap: Global) -> Result<Vec<u8>, AllocError> {
    (0..RECORDED).map(byte_at).collect(heap)
}

// The recording with that many zeros behind it.
pub fn pad(bytes: &mut Vec<u8>, zeros: usize) -> Result<(), AllocError> {
    let len = bytes.len().saturating_add(zeros);
    bytes.resize(len, 0)
}
