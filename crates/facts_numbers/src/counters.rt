//! Facts about counters, volumes, sequence numbers and fixed-point numbers.

ghost use Rattle.std.specs.Prelude.{◌≡◌, ◌+ℤ◌, ◌-ℤ◌, ◌*ℤ◌, ◌≤ℤ◌, ◌<ℤ◌, pos, IfSome};

use arbitrary_int::prelude::*;

pub fn louder(volume: u7, step: u7) -> u7
    ensures { volume ≤ℤ result }
{
    volume.saturating_add(step)
}

pub fn softer(volume: u7, step: u7) -> u7
    ensures { result ≤ℤ volume }
{
    volume.saturating_sub(step)
}

pub fn slider(volume: u7, change: i8) -> u7
    ensures up { pos 0 ≤ℤ change → volume ≤ℤ result }
    ensures down { change ≤ℤ pos 0 → result ≤ℤ volume }
{
    if change >= 0 {
        volume.saturating_add(u7::from_(change))
    } else {
        volume.saturating_sub(u7::new(change.unsigned_abs().min(127)))
    }
}

pub fn next_sequence(number: u12) -> u12
    ensures inside { number <ℤ pos 4095 → result ≡ number +ℤ pos 1 }
    ensures again { number ≡ pos 4095 → result ≡ pos 0 }
{
    number.wrapping_add(u12::new(1))
}

pub fn distance(from: u12, to: u12) -> u12
    ensures ahead { from ≤ℤ to → result ≡ to -ℤ from }
    ensures behind { to <ℤ from → result ≡ to -ℤ from +ℤ pos 4096 }
{
    to.wrapping_sub(from)
}

pub fn signed_distance(from: u12, to: u12) -> i12
    requires near { (to -ℤ from) <ℤ pos 2048 }
    requires ahead { from ≤ℤ to }
    ensures { result ≡ to -ℤ from }
{
    i12::from_unsigned(to.wrapping_sub(from))
}

pub fn signed_distance_behind(from: u12, to: u12) -> i12
    requires near { (from -ℤ to) ≤ℤ pos 2048 }
    requires behind { to ≤ℤ from }
    ensures { result ≡ to -ℤ from }
{
    to.wrapping_sub(from).as_::<i12>()
}

pub fn counted(counter: u48) -> Option<u48>
    ensures some { IfSome result (λ next. next ≡ counter +ℤ pos 1) }
{
    counter.checked_add(u48::new(1))
}

pub fn counted_twice(counter: u24) -> Option<u24>
    ensures { IfSome result (λ next. next ≡ counter +ℤ pos 2) }
{
    counter.checked_add(u24::new(1))?.checked_add(u24::new(1))
}

pub fn averaged(a: i24, b: i24) -> i24
    ensures { (pos 2 *ℤ result) ≤ℤ (a +ℤ b) }
{
    ((i25::from_(a) + i25::from_(b)) >> 1).as_::<i24>()
}

pub fn scaled(a: i24, gain: i12) -> i36
    ensures { result ≡ a *ℤ gain }
{
    a.as_::<i36>() * gain.as_::<i36>()
}

pub fn percent(part: u24) -> u24
    requires { part ≤ℤ pos 1000 }
    ensures { result ≤ℤ pos 100 }
{
    part * u24::new(100) / u24::new(1000)
}

pub fn sub_and_add(a: u48, b: u48) -> u48
    requires { b ≤ℤ a }
    ensures { result ≡ a }
{
    a - b + b
}
