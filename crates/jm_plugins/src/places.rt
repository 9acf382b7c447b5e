ghost use Rattle.std.specs.Prelude.{◌≡◌, IfOk};
ghost use Rattle.std.specs.List.{range_with_len};

use jm_bytes::{List, NoMemory};
use std::alloc::Global;

/// The places of that many items, in order.
pub fn places_below(alloc: Global, count: usize) -> Result<List<usize>, NoMemory>
    ensures { IfOk result (λ places. places ≡ range_with_len 0 count) }
{
    let mut places = List::new(alloc);
    for place in 0..count {
        places.push(place)?;
    }
    Ok(places)
}
