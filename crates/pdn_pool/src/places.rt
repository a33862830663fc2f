//! A place for each job's result.
ghost use Rattle.std.specs.Prelude.{◌≡◌, ℕ, ◌<◌, List, length, map, replicate, slice_set, IfOk, All, IsSome, Some, None};
ghost use Rattle.pdn_pool.specs.Results.{placed};

use pdn_base::Memory;
use std::alloc::Global;

/// As many empty places.
pub fn empty_places<X: Drop>(alloc: Global, count: usize) -> Result<Vec<Option<X>>, Memory>
    ensures { IfOk result (λ places. places.items ≡ replicate count None) }
{
    let mut places = Vec::with_capacity(alloc, count)?;
    for _ in 0..count {
        places.push(None)?;
    }
    Ok(places)
}

/// Puts each result at the place of its number.
pub fn place<X: Drop>(places: &mut Vec<Option<X>>, outs: Vec<(u64, X)>)
    requires { All (λ p. p.0 < length places.old.items) outs.items }
    ensures { places.new.items ≡ placed places.old.items outs.items }
{
    for (number, out) in outs {
        put(places, number as usize, out);
    }
}

fn put<X: Drop>(places: &mut Vec<Option<X>>, number: usize, out: X)
    requires { number < length places.old.items }
    ensures { places.new.items ≡ slice_set places.old.items number (Some out) }
{
    places[number] = Some(out);
}

/// The results, of places that are all taken.
pub fn results<X: Drop>(alloc: Global, places: Vec<Option<X>>) -> Result<Vec<X>, Memory>
    requires { All IsSome places.items }
    ensures { IfOk result (λ outs. map Some outs.items ≡ places.items) }
{
    let mut outs = Vec::with_capacity(alloc, places.len())?;
    for place in places {
        outs.push(place.unwrap())?;
    }
    Ok(outs)
}
