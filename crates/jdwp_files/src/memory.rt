//! Memory that sessions ask for and give back in each turn.
use jdwp_wire::Limits;
use std::alloc::Global;

/// How many packets, as long as the limits let them be, are given back at once. With twice as many at hand the longest data of a reply fit.
const PACKETS: usize = 8;

/// Has the C library keep what the turns of a session give back, for those that come: with glibc, so much as 16 packets take.
///
/// glibc gives the end of its heap back to the system once it is more than twice as large as the largest block that came from the system by
/// itself and was given back, 128 KB at first (`M_MMAP_THRESHOLD` in mallopt(3)); and each page of it that is asked for anew costs a fault. So
/// such a block is asked for and given back here. Nothing is written to it, so that it takes no memory; where there is none, nothing is lost.
pub(crate) fn keep_freed_memory(alloc: Global, limits: &Limits) {
    let _ = Vec::<u8>::with_capacity(alloc, PACKETS * limits.packet() as usize);
}
