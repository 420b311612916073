//! Stacks, flags, counters and carries of a small machine.

ghost use Rattle.std.specs.Prelude.{◌≡◌, ◌↔◌, ◌%◌, ◌+◌, ◌≤◌, ◌+ℤ◌, ◌-ℤ◌, ◌*ℤ◌, ◌≤ℤ◌, ◌<ℤ◌, pos, neg_ℤ, int_div, IsTrue, IfSome};
ghost use Rattle.arbitrary_int.specs.Residue.{Congruent};

use arbitrary_int::prelude::*;

pub fn branch_back(pc: u12, offset: u5) -> u12
    ensures { Congruent 12 result (pc -ℤ offset) }
{
    pc.wrapping_sub(u12::from_(offset))
}

pub fn push(stack: &mut [u8; 16], top: &mut u4, value: u8)
    ensures { Congruent 4 top.new (top.old +ℤ pos 1) }
{
    stack[top.as_usize()] = value;
    *top = top.wrapping_add(u4::new(1));
}

pub fn pop(top: &mut u4)
    ensures { top.old ≡ pos 0 → top.new ≡ pos 15 }
{
    *top = top.wrapping_sub(u4::new(1));
}

pub fn half_carry(a: u8, b: u8) -> bool
    ensures { IsTrue result ↔ (16 ≤ a % 16 + b % 16) }
{
    u4::new(a & 15).overflowing_add(u4::new(b & 15)).1
}

pub fn compare(a: i24, b: i24) -> i8
    ensures less { a <ℤ b → result ≡ neg_ℤ (pos 1) }
    ensures more { b <ℤ a → result ≡ pos 1 }
    ensures same { a ≡ b → result ≡ pos 0 }
{
    if a < b {
        -1
    } else if a == b {
        0
    } else {
        1
    }
}

pub fn kind(operation: u3) -> u8
    ensures small { result ≤ 3 }
    ensures first { operation ≡ pos 0 → result ≡ 0 }
{
    match operation.value() {
        0 => 0,
        1 | 2 => 1,
        3..=5 => 2,
        _ => 3,
    }
}

pub fn cycles(table: &[u8; 32], operation: u5) -> u8 {
    table[usize::from(operation.value())]
}

pub struct Counter {
    pub value: u24,
    pub rounds: u5,
}

impl Counter {
    pub fn tick(&mut self) -> bool
        ensures { IsTrue result ↔ (self.old.value ≡ pos 16777215) }
    {
        self.value = self.value.wrapping_add(u24::new(1));
        self.value == u24::new(0)
    }

    pub fn bounded(&mut self)
        ensures { self.new.rounds ≤ℤ pos 20 }
    {
        if self.rounds < u5::new(20) {
            self.rounds += u5::new(1);
        } else {
            self.rounds = u5::new(0);
        }
    }
}

pub fn high_product(a: u24, b: u24) -> u24
    ensures { result ≡ int_div (a *ℤ b) (pos 16777216) }
{
    ((u48::from_(a) * u48::from_(b)) >> 24).as_::<u24>()
}

pub fn add_then_scale(a: u24, b: u24, c: u24) -> Option<u24>
    ensures { IfSome result (λ r. r ≡ (a +ℤ b) *ℤ c) }
{
    a.checked_add(b)?.checked_mul(c)
}

pub fn less_and_more(a: i48, b: i48) -> Option<i48>
    ensures { IfSome result (λ r. r ≡ a) }
{
    a.checked_sub(b)?.checked_add(b)
}

pub fn small_ones(x: UInt<u128, 3>) -> UInt<u128, 3>
    requires { x <ℤ pos 4 }
    ensures { result ≡ pos 2 *ℤ x }
{
    x + x
}

pub fn small_wrap() -> UInt<u128, 3>
    ensures { result ≡ pos 1 }
{
    UInt::<u128, 3>::new(5).wrapping_add(UInt::<u128, 3>::new(4))
}
