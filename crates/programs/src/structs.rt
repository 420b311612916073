//! Values in structs, enums, tuples and behind references.
//!
//! A type that contains such an integer is passed by value once. The functions below show how to use it a second
//! time: copy it with `let` first, call a method that takes `&self`, read the fields, or use a `match`.

ghost use Rattle.std.specs.Prelude.{◌≡◌, ◌+ℤ◌, ◌<ℤ◌, pos};

use arbitrary_int::prelude::*;

// ---- behind references, and in a field

/// Counts up to 127. The test reads the number by `value`, which ensures its range. A comparison of the value behind the
/// reference does not.
pub fn count(x: &mut u7)
    ensures below { x.old <ℤ pos 127 → x.new ≡ x.old +ℤ pos 1 }
    ensures last { x.old ≡ pos 127 → x.new ≡ x.old }
{
    if x.value() < 127 {
        *x += u7::new(1);
    }
}

/// Counts by one where the precondition is that there is room.
pub fn incremented(x: &mut u24)
    requires { x.old <ℤ pos 16777215 }
    ensures { x.new ≡ x.old +ℤ pos 1 }
{
    *x += u24::new(1);
}

/// Counts up to the greatest number, by a comparison of the value behind the reference.
pub fn count_to_the_end(x: &mut u12) {
    if *x < u12::max_value() {
        *x += u12::new(1);
    }
}

/// A converted number behind a reference.
pub fn widened(x: &u7) -> u12
    ensures { result ≡ x.now }
{
    u12::from_(*x)
}

#[derive(Clone, Copy, Debug, PartialEq, Eq)]
pub struct Timer {
    pub count: u7,
    pub step: u3,
}

impl Timer {
    pub fn tick(&mut self)
        ensures below { self.old.count <ℤ pos 127 → self.new.count ≡ self.old.count +ℤ pos 1 }
        ensures last { self.old.count ≡ pos 127 → self.new.count ≡ self.old.count }
        ensures step { self.new.step ≡ self.old.step }
    {
        if self.count.value() < 127 {
            self.count += u7::new(1);
        }
    }

    pub fn byte(&self) -> u8
        ensures { pos result ≡ self.now.count }
    {
        u8::from_(self.count)
    }

    /// Adds `by` to the count, which goes on from 0 after 127.
    pub fn wrapped(&mut self, by: u7)
        ensures inside { (self.old.count +ℤ by) <ℤ pos 128 → self.new.count ≡ self.old.count +ℤ by }
    {
        self.count = self.count.wrapping_add(by);
    }

    pub fn steps(self) -> u3
        ensures { result ≡ self.step }
    {
        self.step
    }

    pub fn counts(&self) -> u7
        ensures { result ≡ self.now.count }
    {
        self.count
    }
}

// ---- twice by value

/// A copy by `let` before the second use.
pub fn copied_first(timer: Timer) -> (u3, u3)
    ensures first { result.0 ≡ timer.step }
    ensures second { result.1 ≡ timer.step }
{
    let other = timer;
    (timer.steps(), other.steps())
}

/// Methods that take `&self` may be called again and again.
pub fn by_reference(timer: Timer) -> (u7, u7, u3)
    ensures first { result.0 ≡ timer.count }
    ensures second { result.1 ≡ timer.count }
{
    (timer.counts(), timer.counts(), timer.steps())
}

/// The fields, before the whole is given away.
pub fn fields_first(timer: Timer) -> (u7, u3, u3)
    ensures count { result.0 ≡ timer.count }
    ensures step { result.1 ≡ timer.step }
    ensures whole { result.2 ≡ timer.step }
{
    let Timer { count, step } = timer;
    (count, step, timer.steps())
}

#[derive(Clone, Copy, Debug, PartialEq, Eq)]
pub enum Identifier {
    Short(u11),
    Long(u29),
}

/// A `match` takes nothing away.
pub fn matched_twice(identifier: Identifier) -> (bool, bool) {
    let short = match identifier {
        Identifier::Short(_) => true,
        Identifier::Long(_) => false,
    };
    let long = match identifier {
        Identifier::Short(_) => false,
        Identifier::Long(_) => true,
    };
    (short, long)
}

fn is_there(x: Option<u5>) -> bool {
    x.is_some()
}

pub fn option_in_a_loop(x: Option<u5>) -> u8 {
    let mut there = 0;
    for _ in 0..3u8 {
        let y = x;
        if is_there(y) && there < 3 {
            there += 1;
        }
    }
    there
}

pub fn pair_taken_apart(pair: (u5, u5)) -> (u5, u5, u5, u5)
    ensures { result.2 ≡ pair.0 }
{
    let (a, b) = pair;
    (a, b, a, b)
}

/// The numbers themselves may be used any number of times.
pub fn number_twice(x: u11) -> (u11, u11)
    ensures first { result.0 ≡ x }
    ensures second { result.1 ≡ x }
{
    (x, x)
}
