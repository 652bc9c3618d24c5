//! The nim-values of heaps and positions of any size, by a search.

ghost use Rattle.std.specs.Prelude.{◌≡◌, IfOk};
ghost use Rattle.oct_mex.specs.NimValues.{nim_value, position_value as nim_sum};
ghost use Rattle.oct_period.specs.Periods.{position_value_from};
ghost use Rattle.oct_search.specs.Found.{IsFound};
ghost use Rattle.oct_reach.specs.Reaching.{value_told, IsTold};

use oct_mex::SeenPeriod;
use oct_period::Unknown;
use oct_search::Search;
use std::alloc::Allocator;

/// The nim-value of a heap, where a period is found, or where it is computed. `found` is what the search has found. Takes no
/// memory.
pub fn heap_value<A: Allocator + Copy>(
    game: &Search<A>,
    found: Option<SeenPeriod>,
    heap: u64,
) -> Option<u16>
    requires { IsFound game.now.code game.now.len found }
    ensures { result ≡ value_told game.now.code found game.now.len heap }
{
    match found {
        Some(seen) => Some(game.value_by(seen, heap)),
        None => game.value(heap as usize),
    }
}

/// The nim-value of a heap that has one by the search.
pub(crate) fn told_value<A: Allocator + Copy>(
    game: &Search<A>,
    found: Option<SeenPeriod>,
    heap: u64,
) -> u32
    requires found { IsFound game.now.code game.now.len found }
    requires told { IsTold found game.now.len heap }
    ensures { result ≡ nim_value game.now.code heap }
{
    match found {
        Some(seen) => u32::from(game.value_by(seen, heap)),
        None => u32::from(game.known(heap as usize)),
    }
}

/// The nim-value of a position, the exclusive or of those of its heaps, where a period is found or they are computed; else the
/// first heap that has none. `found` is what the search has found. Takes no memory.
pub fn position_value<A: Allocator + Copy>(
    game: &Search<A>,
    found: Option<SeenPeriod>,
    heaps: &[u64],
) -> Result<u32, Unknown>
    requires { IsFound game.now.code game.now.len found }
    ensures value { result ≡ position_value_from (value_told game.now.code found game.now.len) 0 heaps.now }
    ensures right { IfOk result (λ value. value ≡ nim_sum game.now.code heaps.now) }
{
    let mut total = 0;
    for (index, heap) in heaps.iter().enumerate() {
        let Some(value) = heap_value(game, found, *heap) else {
            return Err(Unknown { index });
        };
        total ^= u32::from(value);
    }
    Ok(total)
}
