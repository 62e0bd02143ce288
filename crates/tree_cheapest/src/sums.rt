//! Sums that may be missing, compared and added.

ghost use Rattle.std.specs.Prelude.{◌≡◌, ◌^◌, IfSome, Some};
ghost use Rattle.model_rosters.specs.Sums.{plus, Within};

/// Returns the sum of a price and a sum, none where the sum is not there.
pub fn add_price(price: i128, sum: Option<i128>) -> Option<i128>
    requires price { Within (2 ^ 96) price }
    requires sum { IfSome sum (Within (2 ^ 112)) }
    ensures { result ≡ plus (Some price) sum }
{
    match sum {
        Some(x) => Some(price + x),
        None => None,
    }
}

/// Returns the sum of a first part, its arc and what follows it, none where either sum is not there.
pub fn add_part(first: Option<i128>, arc: i128, rest: Option<i128>) -> Option<i128>
    requires first { IfSome first (Within (2 ^ 110)) }
    requires arc { Within (2 ^ 96) arc }
    requires rest { IfSome rest (Within (2 ^ 110)) }
    ensures sum { result ≡ plus first (plus (Some arc) rest) }
    ensures within { IfSome result (Within (2 ^ 112)) }
{
    match (first, rest) {
        (Some(x), Some(y)) => Some(x + (arc + y)),
        _ => None,
    }
}
