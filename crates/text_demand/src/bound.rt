//! The number of a `least` or `most` line at a period.

ghost use Rattle.std.specs.Prelude.{◌≡◌, slice_index_or};
ghost use Rattle.text_demand.specs.InstanceOf.{bound_of};

use text_demand_lines::Bound;

// The number of the period at a place, from 0, or this number past the last.
fn count_or(bound: &Bound, place: usize, otherwise: u32) -> u32
    ensures { result ≡ slice_index_or bound.now.counts place otherwise }
{
    match bound.counts.as_slice().get(place) {
        Some(count) => *count,
        None => otherwise,
    }
}

/// Returns the bound of a code in the period at a place, from 0, or this number where no line bounds
/// the code.
pub fn bound_of(bounds: &[Bound], code: u8, place: usize, otherwise: u32) -> u32
    ensures { result ≡ bound_of bounds.now code place otherwise }
{
    for bound in bounds {
        if bound.code == code {
            return count_or(bound, place, otherwise);
        }
    }
    otherwise
}
