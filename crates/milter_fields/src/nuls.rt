//! The first NUL of bytes, found some bytes at a time.

ghost use Rattle.std.specs.Prelude.{◌≡◌, ◌==◌, ◌<◌, ◌≤◌, length, map, position};
ghost use Rattle.std.specs.Simd.Lanes.{mask_l};
ghost use Rattle.milter_fields.specs.declared.nuls.TheConstants.{LANES_MAX};

use std::simd::prelude::*;

/// The most bytes that a mask has bits for.
const LANES_MAX: usize = 64;

/// The index of the first NUL, found by the widest lanes that the bytes fill.
pub(crate) fn first_nul(bytes: &[u8]) -> Option<usize>
    ensures { result ≡ position (λ byte. byte == 0) bytes.now }
{
    match bytes.len() {
        0..4 => bytes.iter().position(|byte| *byte == 0),
        4..8 => first_nul_by::<4>(bytes),
        8..16 => first_nul_by::<8>(bytes),
        _ => first_nul_by::<16>(bytes),
    }
}

/// The same, `N` bytes at a time; the last `N` are looked at together, although some of them were already.
#[inline(always)]
fn first_nul_by<const N: usize>(bytes: &[u8]) -> Option<usize>
    requires { (0 < N) × (N ≤ LANES_MAX) × (N ≤ length bytes.now) }
    ensures { result ≡ position (λ byte. byte == 0) bytes.now }
{
    let last = bytes.len() - N;
    let mut start = 0;
    while start < last {
        let nuls = nuls_of(Simd::<u8, N>::from_slice(&bytes[start..]));
        if nuls != 0 {
            return Some(start + nuls.trailing_zeros() as usize);
        }
        start += N;
    }
    let nuls = nuls_of(Simd::<u8, N>::from_slice(&bytes[last..]));
    if nuls == 0 {
        return None;
    }
    Some(last + nuls.trailing_zeros() as usize)
}

/// A bit for each of the bytes, which is set where it is NUL; that of the first byte is the lowest.
#[inline(always)]
fn nuls_of<const N: usize>(bytes: Simd<u8, N>) -> u64
    requires { N ≤ LANES_MAX }
    ensures { result ≡ mask_l (map (λ byte. byte == 0) bytes.entry) }
{
    bytes.simd_eq(Simd::splat(0)).to_bitmask()
}
