//! Which points stand on one chain.

ghost use Rattle.std.specs.Prelude.{◌≡◌, ◌<◌, ◌≤◌};
ghost use Rattle.tracepoints.specs.Chains.{chain_at, chain_of, earlier};

use tracer_lang::Point;

/// What an address is multiplied by to tell its chain: 2^32 over the golden ratio, so that
/// addresses that lie close together, or at equal distances, stand on different chains.
const MULTIPLIER: u32 = 0x9e37_79b9;

/// The chain of the watched ranges, behind those of the addresses.
pub(crate) const WATCHED: usize = 4096;

/// The chain of an address.
#[inline(always)]
pub(crate) fn chain_at(address: u32) -> usize
    ensures chain { result ≡ chain_at address }
    ensures below { result < WATCHED }
{
    (address.wrapping_mul(MULTIPLIER) >> 20) as usize
}

/// The chain of a point.
pub(crate) fn chain_of(point: Point) -> usize
    ensures chain { result ≡ chain_of point }
    ensures within { result ≤ WATCHED }
{
    match point {
        Point::Addr(address) | Point::Enter(address) => chain_at(address),
        Point::Store { .. } => WATCHED,
    }
}

/// The lower of two numbers, where there is one.
pub(crate) fn earlier(one: Option<u8>, other: Option<u8>) -> Option<u8>
    ensures { result ≡ earlier one other }
{
    match (one, other) {
        (Some(one), Some(other)) => Some(one.min(other)),
        (one, None) => one,
        (None, other) => other,
    }
}
