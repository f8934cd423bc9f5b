//! Chains of one operation: each step depends on the number of the step before, so none can be
//! computed early.

ghost use Rattle.std.specs.Prelude.{◌≡◌, ◌%◌, pos};
ghost use Rattle.pf_num.specs.Fx.{IsRaw};
ghost use Rattle.pf_bench.specs.Chain.{chain, last_of, factor_near_one, add_step, mul_step, div_step, root_step, length_step, rotation_after};

use crate::operation::Operation;
use pf_num::Fx;
use pf_rot::{Rot, V2};

/// The number of this raw value.
#[inline]
pub fn units(raw: i64) -> Fx
    requires { IsRaw raw }
    ensures { result ≡ raw }
{
    Fx::from_raw(raw).unwrap()
}

/// The last 16 bits of a step's index, of which its operand is made.
#[inline]
fn low_bits(i: u64) -> i64
    ensures { result ≡ pos (i % 65536) }
{
    (i & 0xffff) as i64
}

/// The operand of a product or a quotient: from 1 to 1 + 2^-8.
#[inline]
fn factor_near_one(i: u64) -> Fx
    ensures { result ≡ factor_near_one i }
{
    units((1 << 24) + low_bits(i))
}

/// A sum that starts again at the least number when it reaches the greatest.
#[inline]
#[tactic(auto, unfolding(crate::specs::Chain::add_step))]
fn add_step(x: Fx, i: u64) -> Fx
    ensures { result ≡ add_step x i }
{
    let sum = x.add(units(low_bits(i) * (1 << 30)));
    if sum < Fx::MAX { sum } else { Fx::MAX.neg() }
}

/// A product, or `first` again where it is above `limit`.
#[inline]
#[tactic(auto, unfolding(crate::specs::Chain::mul_step))]
fn mul_step(x: Fx, i: u64, limit: Fx, first: Fx) -> Fx
    ensures { result ≡ mul_step limit first x i }
{
    let product = x.mul(factor_near_one(i));
    if product > limit { first } else { product }
}

/// A quotient, raised by `back` where it is below `least`.
#[inline]
#[tactic(auto, unfolding(crate::specs::Chain::div_step))]
fn div_step(x: Fx, i: u64, least: Fx, back: Fx) -> Fx
    ensures { result ≡ div_step least back x i }
{
    let quotient = x.div(factor_near_one(i));
    if quotient < least {
        quotient.add(back)
    } else {
        quotient
    }
}

/// Sums with multiples of 64, over the whole range again and again.
fn add_chain(count: u64) -> Fx
    ensures { result ≡ chain add_step (pos 0) count }
{
    let mut x = Fx::ZERO;
    for i in 0..count {
        x = add_step(x, i);
    }
    x
}

/// Products with numbers near 1, none of them above `limit`.
#[inline]
fn mul_chain(count: u64, first: Fx, limit: Fx) -> Fx
    ensures { result ≡ chain (mul_step limit first) first count }
{
    let mut x = first;
    for i in 0..count {
        x = mul_step(x, i, limit, first);
    }
    x
}

/// Quotients by numbers near 1, none of them far below `least`.
#[inline]
fn div_chain(count: u64, first: Fx, least: Fx, back: Fx) -> Fx
    ensures { result ≡ chain (div_step least back) first count }
{
    let mut x = first;
    for i in 0..count {
        x = div_step(x, i, least, back);
    }
    x
}

/// A root, raised by up to 65535 times 2^16.
#[inline]
#[tactic(auto, unfolding(crate::specs::Chain::root_step))]
fn root_step(x: Fx, i: u64) -> Fx
    ensures { result ≡ root_step x i }
{
    x.root().add(units(low_bits(i) * (1 << 16)))
}

/// The length of the vector of `x` and up to 65535 times 2^10, reduced where it is above 64.
#[inline]
#[tactic(auto, unfolding(crate::specs::Chain::length_step))]
fn length_step(x: Fx, i: u64) -> Fx
    ensures { result ≡ length_step x i }
{
    let vector = V2 {
        x,
        y: units(low_bits(i) * (1 << 10)),
    };
    let length = vector.length();
    if length > units(1 << 30) {
        length.sub(units((1 << 30) - (1 << 20)))
    } else {
        length
    }
}

/// Roots, one after the other.
fn root_chain(count: u64) -> Fx
    ensures { result ≡ chain root_step (pos 16777216) count }
{
    let mut x = Fx::ONE;
    for i in 0..count {
        x = root_step(x, i);
    }
    x
}

/// Lengths, one after the other.
fn length_chain(count: u64) -> Fx
    ensures { result ≡ chain length_step (pos 16777216) count }
{
    let mut x = Fx::ONE;
    for i in 0..count {
        x = length_step(x, i);
    }
    x
}

/// The rotation after so many turns.
#[tactic(auto, using(crate::proofs::Turns::rotation_after_zero, crate::proofs::Turns::rotation_after_next))]
fn turn_chain(count: u64) -> Rot
    ensures { result ≡ rotation_after count }
{
    let mut rotation = Rot::UPRIGHT;
    for i in 0..count {
        rotation = rotation.turn(factor_near_one(i));
    }
    rotation
}

/// The last number of the operation's chain of so many steps.
pub fn last(operation: Operation, count: u64) -> Fx
    ensures { result ≡ last_of operation count }
{
    let step = units((1 << 30) - (1 << 20));
    match operation {
        Operation::Add => add_chain(count),
        Operation::Mul => mul_chain(count, Fx::ONE, units(1 << 30)),
        Operation::Div => div_chain(count, units(1 << 30), units(1 << 20), step),
        Operation::MulWide => mul_chain(count, units(1 << 50), units(1 << 54)),
        Operation::DivWide => div_chain(count, units(1 << 54), units(1 << 50), units(1 << 53)),
        Operation::Root => root_chain(count),
        Operation::Length => length_chain(count),
        Operation::Turn => turn_chain(count).c,
    }
}
