//! Rows that are listed in another order, by their places in the list.

ghost use Rattle.std.specs.Prelude.{◌≡◌, ◌<◌, ◌++◌, All, OnOk, length, map};
ghost use Rattle.std.specs.List.{concat};
ghost use Rattle.pf_levels.specs.Order.{row_pair_at, place_at};

use crate::level::Level;
use crate::pair::RowPair;
use std::alloc::AllocError;

/// Adds the places of the rows of levels, one level after the other.
pub(crate) fn add_places(order: &mut Vec<usize>, levels: &[Level]) -> Result<(), AllocError>
    ensures { OnOk result (order.new.items ≡ order.old.items ++ concat levels.now) }
{
    for level in levels {
        order.extend_from_slice(level.places())?;
    }
    Ok(())
}

/// Lists the pairs of the rows at these places.
pub(crate) fn list_pairs(
    found: &mut Vec<RowPair>,
    pairs: &[RowPair],
    order: &[usize],
) -> Result<(), AllocError>
    requires { All (λ place. place < length pairs.now) order.now }
    ensures { OnOk result (found.new.items ≡ map (row_pair_at pairs.now) order.now) }
{
    found.clear();
    for place in order {
        found.push(pairs[*place])?;
    }
    Ok(())
}

/// The rows that a level has in this order, by their places in the list.
fn level_in_order(order: &[usize], level: &Level) -> Level
    requires { All (λ number. number < length order.now) level.now }
    ensures { result ≡ map (place_at order.now) level.now }
{
    let mut found = Level::new();
    for number in level.places() {
        found.push(order[*number]);
    }
    found
}

/// Lists the rows that each level has in this order, by their places in the list.
pub(crate) fn list_levels(
    found: &mut Vec<Level>,
    order: &[usize],
    levels: &[Level],
) -> Result<(), AllocError>
    requires { All (All (λ number. number < length order.now)) levels.now }
    ensures { OnOk result (found.new.items ≡ map (map (place_at order.now)) levels.now) }
{
    found.clear();
    for level in levels {
        found.push(level_in_order(order, level))?;
    }
    Ok(())
}
