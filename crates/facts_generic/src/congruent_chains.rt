//! Laws about the congruence of several operations that wrap, one of which may be a product, in code that is
//! generic over the type.
#![tactic(auto, using(arbitrary_laws::proofs::sums::CongruentChains::congruent_chains))]

ghost use Rattle.std.specs.Prelude.{◌+ℤ◌, ◌-ℤ◌, ◌*ℤ◌, pos};
ghost use Rattle.arbitrary_int.specs.Residue.{Congruent};

use arbitrary_int::prelude::*;

pub fn sum_of_three<V: SumCalls>(a: V, b: V, c: V) -> V
    ensures { Congruent V.BITS (V.number result) (V.number a +ℤ V.number b +ℤ V.number c) }
{
    a.wrapping_add(b).wrapping_add(c)
}

pub fn moved_by_a_difference<V: SumCalls>(position: V, to: V, from: V) -> V
    ensures { Congruent V.BITS (V.number result)
        (V.number position +ℤ V.number to -ℤ V.number from) }
{
    position.wrapping_add(to.wrapping_sub(from))
}

pub fn product_and_sum<V: SumCalls + ProductCalls>(a: V, b: V, c: V) -> V
    ensures { Congruent V.BITS (V.number result) (V.number a *ℤ V.number b +ℤ V.number c) }
{
    a.wrapping_mul(b).wrapping_add(c)
}

pub fn sum_times<V: SumCalls + ProductCalls>(a: V, b: V, c: V) -> V
    ensures { Congruent V.BITS (V.number result) ((V.number a +ℤ V.number b) *ℤ V.number c) }
{
    a.wrapping_add(b).wrapping_mul(c)
}

pub fn product_of_three(a: u24, b: u24, c: u24) -> u24
    ensures { Congruent 24 result (a *ℤ b *ℤ c) }
{
    a.wrapping_mul(b).wrapping_mul(c)
}

pub fn polynomial_of_any_type<V: SumCalls + ProductCalls>(a: V, b: V, c: V, x: V) -> V
    ensures { Congruent V.BITS (V.number result)
        ((V.number a *ℤ V.number x +ℤ V.number b) *ℤ V.number x +ℤ V.number c) }
{
    a.wrapping_mul(x)
        .wrapping_add(b)
        .wrapping_mul(x)
        .wrapping_add(c)
}

pub fn checksum_of_five<V: SumCalls>(a: V, b: V, c: V, d: V, e: V) -> V
    ensures { Congruent V.BITS (V.number result)
        (V.number a +ℤ V.number b +ℤ V.number c +ℤ V.number d +ℤ V.number e) }
{
    a.wrapping_add(b)
        .wrapping_add(c)
        .wrapping_add(d)
        .wrapping_add(e)
}

pub fn next_random(state: u48) -> u48
    ensures { Congruent 48 result (state *ℤ pos 25214903917 +ℤ pos 11) }
{
    state
        .wrapping_mul(u48::new(25214903917))
        .wrapping_add(u48::new(11))
}
