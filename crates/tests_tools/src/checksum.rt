//! Times the checksum of 1 MiB. `tools/bench` sets it beside zlib's.

use envimage::crc32;
use std::alloc::{AllocError, Global};
use std::io;
use std::time::Instant;

/// What is timed, in bytes.
const SIZE: u32 = 1 << 20;

/// How often; the best time counts.
const TURNS: u32 = 21;

/// Bytes that tools/bench.d/zlib_crc32.c makes too.
fn pattern(alloc: Global) -> Result<Vec<u8>, AllocError> {
    let mut bytes = Vec::with_capacity(alloc, SIZE as usize)?;
    for index in 0..SIZE {
        bytes.push((index.wrapping_mul(31).wrapping_add(index >> 8) & 0xff) as u8)?;
    }
    Ok(bytes)
}

/// The checksum of bytes, and the nanoseconds of the fastest turn.
fn fastest(rt: &HostRuntime, bytes: &[u8]) -> io::Result<(u32, u128)> {
    let mut best = u128::MAX;
    let mut crc = 0;
    for _ in 0..TURNS {
        let start = Instant::now(rt)?;
        crc = crc32(bytes);
        best = best.min(start.elapsed(rt)?.as_nanos());
    }
    Ok((crc, best))
}

/// Writes the checksum, and on the error output the nanoseconds of the fastest turn.
pub fn time_checksum(rt: &HostRuntime) -> io::Result<()> {
    let bytes = pattern(rt.alloc())?;
    let (crc, best) = fastest(rt, &bytes)?;
    println!(rt; "crc32 of the pattern: {crc:08x}")?;
    eprintln!(rt; "{best}")
}
