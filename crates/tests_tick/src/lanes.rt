//! Products in lanes against those of fixed-point numbers; each call and each law once.

ghost use Rattle.std.specs.Prelude.{◌<◌, ◌≤◌, ◌^◌};
ghost use Rattle.std.specs.Int.RustNames.{unsigned_abs};
ghost use Rattle.pf_lanes.specs.Lanes.{Lane, number_in, lanes_of};

use pf_lanes::{EXACT_LIMIT, ExactDouble, Lanes, Scaled, laws};
use pf_num::Fx;

/// The greatest whole number that a double counts without a gap, less 1.
const MOST: i64 = (1 << 53) - 1;

/// The raw product of two fixed-point numbers.
fn raw_product(a: i64, b: i64) -> Option<i64> {
    Some(Fx::from_raw(a)?.mul(Fx::from_raw(b)?).raw())
}

/// The raw numbers in lanes.
fn raw(lanes: Lanes) -> [i64; 4] {
    let [first, second, third, fourth] = lanes.parts();
    [first.raw(), second.raw(), third.raw(), fourth.raw()]
}

/// Whether products in lanes are those of `pf_num`, and these numbers.
fn are_products(numbers: [i64; 4], factors: [i64; 4], expected: [i64; 4]) -> bool
    requires numbers { (k : Lane) → unsigned_abs (number_in k (lanes_of numbers)) ≤ 2 ^ 53 }
    requires factors { (k : Lane) → unsigned_abs (number_in k (lanes_of factors)) ≤ 2 ^ 53 }
{
    let lanes = Lanes::of(numbers);
    let scaled = Scaled::of(factors);
    if !lanes.product_is_below(scaled, EXACT_LIMIT) {
        return false;
    }
    let products = raw(lanes.product(scaled));
    products == expected
        && (0..4usize).all(|i| raw_product(numbers[i], factors[i]) == Some(products[i]))
}

#[test]
fn ties_go_to_the_even_number(rt: HostRuntime) {
    let half = [1 << 23; 4];
    assert!(rt; are_products([1, 3, 5, 7], half, [0, 2, 2, 4]));
    assert!(rt; are_products([-1, -3, -5, -7], half, [0, -2, -2, -4]));
    assert!(rt; are_products([1, 3, -5, 7], [-(1 << 23); 4], [0, -2, 2, -4]));
    assert!(rt; are_products(half, [1, 3, -5, -7], [0, 2, -2, -4]));
}

#[test]
fn numbers_round_to_the_nearest(rt: HostRuntime) {
    let near_half = [(1 << 23) - 1, (1 << 23) + 1, -(1 << 23) + 1, -(1 << 23) - 1];
    assert!(rt; are_products([1; 4], near_half, [0, 1, 0, -1]));
    assert!(rt; are_products([-3; 4], near_half, [-1, -2, 1, 2]));
    assert!(rt;
        are_products(
            [0, 0, -1, 1],
            [-1, 1 << 53, 1 << 24, -(1 << 24)],
            [0, 0, -1, -1],
        )
    );
}

#[test]
fn the_greatest_products_are_exact(rt: HostRuntime) {
    let great = 1 << 29;
    assert!(rt;
        are_products(
            [MOST, -MOST, 1, -1],
            [1, 1, MOST, MOST],
            [great, -great, great, -great],
        )
    );
    let factors = [1 << 24, -(1 << 24), 1, (1 << 24) - 1];
    assert!(rt;
        are_products(
            [great - 1; 4],
            factors,
            [great - 1, 1 - great, 32, great - 33],
        )
    );
}

/// Whether it is told which products are below a limit.
fn are_limits_told() -> bool {
    let (one, great) = (Scaled::of([1; 4]), Scaled::of([1 << 53; 4]));
    let small = Lanes::of([9, -9, 0, 1]);
    !Lanes::of([0, 0, 1 << 53, 0]).product_is_below(one, EXACT_LIMIT)
        && !Lanes::of([0, 0, 0, -(1 << 53)]).product_is_below(one, EXACT_LIMIT)
        && !Lanes::of([-(1 << 53), 0, 0, 0]).product_is_below(great, EXACT_LIMIT)
        && small.product_is_below(one, 10)
        && !small.product_is_below(one, 9)
}

#[test]
fn products_at_the_limit_are_told(rt: HostRuntime) {
    assert!(rt; are_limits_told());
}

/// Whether sums, differences and the ends of two numbers in each lane are right.
fn are_sums() -> bool {
    let (a, b) = (Lanes::of([7, -7, 0, 5]), Lanes::of([-2, 3, 0, 5]));
    raw(a.plus(b)) == [5, -4, 0, 10]
        && raw(a.minus(b)) == [9, -10, 0, 0]
        && raw(a.negated()) == [-7, 7, 0, -5]
        && raw(a.least(b)) == [-2, -7, 0, 5]
        && raw(a.greatest(b)) == [7, 3, 0, 5]
}

/// Whether it is told what is within one limit, and within a limit for each lane.
fn are_ends_told() -> bool {
    let a = Lanes::of([7, -7, 0, 5]);
    a.are_within(7)
        && !a.are_within(6)
        && !a.negated().are_within(6)
        && a.are_within_each(Lanes::of([7, 7, 0, 6]))
        && !a.are_within_each(Lanes::of([7, 6, 0, 6]))
        && !Lanes::zero().are_within_each(Lanes::of([0, 0, -1, 0]))
}

#[test]
fn each_call_once(rt: HostRuntime) {
    assert!(rt; are_sums() && are_ends_told());
}

#[test]
fn numbers_go_in_and_out_as_doubles(rt: HostRuntime) {
    let great = 1 << 53;
    let numbers = [
        ExactDouble::of(-great),
        ExactDouble::zero(),
        ExactDouble::of(great),
        ExactDouble::of(-1),
    ];
    assert!(rt; raw(Lanes::gather(numbers)) == [-great, 0, great, -1]);
    assert!(rt; raw(Lanes::zero()) == [0; 4]);
}

#[test]
fn each_law_once(rt: HostRuntime) {
    laws::sums_are_those_of_numbers();
    laws::products_are_those_of_numbers();
    laws::doubles_are_exact();
    assert!(rt; laws::named_limits() == EXACT_LIMIT);
}
