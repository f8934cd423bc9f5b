//! Levels of a few rows by hand: what no contract says of them.

ghost use Rattle.std.specs.Prelude.{◌≡◌, ◌≤◌, IfOk};
ghost use Rattle.pf_levels.specs.Levels.{ArePairsOf};

use pf_levels::{Level, Levels, RowPair, laws};
use pf_rows::Side;
use std::alloc::AllocError;
use std::test::Fail;

/// A row of two dynamic bodies.
fn pair(first: usize, second: usize) -> RowPair
    ensures { result ≡ record { first = Side.Dynamic first; second = Side.Dynamic second } }
{
    RowPair {
        first: Side::Dynamic(first),
        second: Side::Dynamic(second),
    }
}

/// A row of a static body and a dynamic one.
fn ground(second: usize) -> RowPair
    ensures { result ≡ record { first = Side.Static; second = Side.Dynamic second } }
{
    RowPair {
        first: Side::Static,
        second: Side::Dynamic(second),
    }
}

/// Whether levels have rows at these places.
fn are(levels: &[Level], expected: &[&[usize]]) -> bool {
    levels.len() == expected.len()
        && levels
            .iter()
            .zip(expected.iter())
            .all(|(level, places)| level.places() == *places)
}

/// Finds the levels of pairs of bodies, and says whether they have rows at these places.
fn are_found(
    levels: &mut Levels,
    pairs: &[RowPair],
    bodies: usize,
    expected: &[&[usize]],
) -> Result<bool, AllocError>
    requires { ArePairsOf bodies pairs.now }
{
    levels.update(pairs, bodies)?;
    Ok(are(levels.levels(), expected))
}

/// Adds rows of a static body and these bodies.
fn add_grounds(pairs: &mut Vec<RowPair>, first: usize, end: usize) -> Result<(), AllocError>
    requires end { end ≤ 19 }
    requires pairs { ArePairsOf 19 pairs.old.items }
    ensures { IfOk result (λ done. ArePairsOf 19 pairs.new.items) }
{
    for body in first..end {
        pairs.push(ground(body))?;
    }
    Ok(())
}

/// Whether rows go to the first level that has room for them.
fn are_passed_over(levels: &mut Levels, pairs: &mut Vec<RowPair>) -> Result<bool, AllocError>
    requires { ArePairsOf 19 pairs.old.items }
{
    add_grounds(pairs, 0, 13)?;
    pairs.push(pair(0, 13))?;
    add_grounds(pairs, 14, 19)?;
    let expected: [&[usize]; 5] = [
        &[0, 1, 2, 3],
        &[4, 5, 6, 7],
        &[8, 9, 10, 11],
        &[12, 13, 14, 15],
        &[16, 17, 18],
    ];
    are_found(levels, pairs, 19, &expected)
}

#[test]
fn full_levels_are_passed_over(rt: HostRuntime) -> Result<(), Fail> {
    let mut pairs = Vec::new(rt.alloc());
    let mut levels = Levels::new(rt.alloc());
    let is_so = are_passed_over(&mut levels, &mut pairs)?;
    assert!(rt; is_so);
    Ok(())
}

#[test]
fn laws_are_called(_rt: HostRuntime) {
    laws::named_limits();
}
