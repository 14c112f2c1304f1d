// How freed memory is kept.
use std::alloc::Global;

/// 16 MiB, the size of a block in bytes.
const BLOCK: usize = 1 << 24;

/// Asks for a large block and gives it back untouched; without memory for it nothing happens.
///
/// The GNU C library gives a block of 128 KiB or more back to the system as soon as it is freed, and the next one costs new pages, each of
/// them a fault. It raises that threshold to the size of the largest block that was freed so far, up to 32 MiB. From here on what the lists
/// of a source leave is taken again for its program and its values.
pub(crate) fn keep_freed_memory(alloc: Global) {
    let _block: Result<Vec<u8>, _> = Vec::with_capacity(alloc, BLOCK);
}
