//! Makes a call, or runs a small program, many times, so that callgrind can count its instructions.
//!
//! It reads a line, and prints some of the last results:
//! - `loop TYPE CALL LIMIT PASSES`: the call in a loop over arrays of 1,024 values. The types are `u7`, `i7`,
//!   `u14`, `i14`, `u120` and `i120`. The call is the name of a method, or `nothing`. Amounts of shifts,
//!   exponents and sources of bits are below the limit, which is at least 1.
//! - `program NAME PASSES`: a program of `programs`.
//! - `steps TYPE COUNT PASSES CHECKS`: a list of `COUNT` steps in memory.
//! - `moved TYPE CALL LIMIT ROUNDS PLACES`: each call in a function of its own, on numbers in their storage. The
//!   operands are first shifted right by this number of places, so that sums and products are in range.
//! - `ends TYPE CALL LIMIT ROUNDS`: the same on operands next to the ends of the range.
#![tactic(auto)]

ghost use Rattle.std.specs.Prelude.{◌≤◌};

use crate::rounds::Operands;
use crate::runs::run_program;
use crate::steps::run_steps;
use arbitrary_calls::fixed_width::FixedWidth;
use arbitrary_core::aliases::signed::{i7, i14, i120};
use arbitrary_core::aliases::unsigned::{u7, u14, u120};
use std::fmt::Display;
use std::io;

mod fixed;
mod programs;
mod rounds;
mod runs;
mod single;
mod steps;

/// Prints the first 16 results.
fn show<V: Display + Copy + Drop, const N: usize>(
    rt: &impl Print,
    results: Option<[V; N]>,
) -> io::Result<()>
    requires { 16 ≤ N }
{
    let Some(results) = results else {
        return println!(rt; "no such call");
    };
    for result in &results[..16] {
        println!(rt; "{result}")?;
    }
    Ok(())
}

/// Moves the operands toward 0, or next to the ends of the range, for calls in functions of their own.
fn prepare<V: FixedWidth>(operands: &mut Operands<V>, kind: &str, places: u32)
    requires { V.valid }
{
    match kind {
        "moved" => operands.moved(places),
        "ends" => operands.at_ends(),
        _ => {}
    }
}

// Each type has a function of its own: the check of a function takes time with the square of the types at which it calls generic code.

fn measure_u7(
    rt: &impl Print,
    kind: &str,
    call: &str,
    limit: u32,
    rounds: u32,
    places: u32,
) -> io::Result<()>
    requires { 1 ≤ limit }
{
    let mut operands = Operands::<u7>::new(limit);
    match (kind, call) {
        ("loop", "extract_u32") => show(rt, Some(fixed::extracts(&operands, rounds))),
        ("loop", _) => show(rt, fixed::results(call, &operands, rounds)),
        (_, "extract_u32") => show(rt, Some(single::extracts(&operands, rounds))),
        _ => {
            prepare(&mut operands, kind, places);
            show(rt, single::results(call, &operands, rounds))
        }
    }
}

fn measure_i7(
    rt: &impl Print,
    kind: &str,
    call: &str,
    limit: u32,
    rounds: u32,
    places: u32,
) -> io::Result<()>
    requires { 1 ≤ limit }
{
    let mut operands = Operands::<i7>::new(limit);
    match (kind, call) {
        ("loop", "extract_u32") => show(rt, Some(fixed::extracts(&operands, rounds))),
        ("loop", _) => show(rt, fixed::results(call, &operands, rounds)),
        (_, "extract_u32") => show(rt, Some(single::extracts(&operands, rounds))),
        _ => {
            prepare(&mut operands, kind, places);
            show(rt, single::results(call, &operands, rounds))
        }
    }
}

fn measure_u14(
    rt: &impl Print,
    kind: &str,
    call: &str,
    limit: u32,
    rounds: u32,
    places: u32,
) -> io::Result<()>
    requires { 1 ≤ limit }
{
    let mut operands = Operands::<u14>::new(limit);
    match (kind, call) {
        ("loop", "extract_u32") => show(rt, Some(fixed::extracts(&operands, rounds))),
        ("loop", _) => show(rt, fixed::results(call, &operands, rounds)),
        (_, "extract_u32") => show(rt, Some(single::extracts(&operands, rounds))),
        _ => {
            prepare(&mut operands, kind, places);
            show(rt, single::results(call, &operands, rounds))
        }
    }
}

fn measure_i14(
    rt: &impl Print,
    kind: &str,
    call: &str,
    limit: u32,
    rounds: u32,
    places: u32,
) -> io::Result<()>
    requires { 1 ≤ limit }
{
    let mut operands = Operands::<i14>::new(limit);
    match (kind, call) {
        ("loop", "extract_u32") => show(rt, Some(fixed::extracts(&operands, rounds))),
        ("loop", _) => show(rt, fixed::results(call, &operands, rounds)),
        (_, "extract_u32") => show(rt, Some(single::extracts(&operands, rounds))),
        _ => {
            prepare(&mut operands, kind, places);
            show(rt, single::results(call, &operands, rounds))
        }
    }
}

fn measure_u120(
    rt: &impl Print,
    kind: &str,
    call: &str,
    limit: u32,
    rounds: u32,
    places: u32,
) -> io::Result<()>
    requires { 1 ≤ limit }
{
    let mut operands = Operands::<u120>::new(limit);
    match (kind, call) {
        ("loop", _) => show(rt, fixed::results(call, &operands, rounds)),
        _ => {
            prepare(&mut operands, kind, places);
            show(rt, single::results(call, &operands, rounds))
        }
    }
}

fn measure_i120(
    rt: &impl Print,
    kind: &str,
    call: &str,
    limit: u32,
    rounds: u32,
    places: u32,
) -> io::Result<()>
    requires { 1 ≤ limit }
{
    let mut operands = Operands::<i120>::new(limit);
    match (kind, call) {
        ("loop", _) => show(rt, fixed::results(call, &operands, rounds)),
        _ => {
            prepare(&mut operands, kind, places);
            show(rt, single::results(call, &operands, rounds))
        }
    }
}

/// The number that a word spells, and 0 where there is none.
fn number(word: Option<&str>) -> u32 {
    word.unwrap_or("").parse().unwrap_or(0)
}

fn main(rt: HostRuntime) -> io::Result<()> {
    let mut line = String::new(rt.alloc());
    rt.read_line(&mut line)?;
    let mut words = line.split_whitespace();
    let kind = words.next().unwrap_or("");
    let name = words.next().unwrap_or("");
    if kind == "program" {
        return run_program(&rt, name, number(words.next()));
    }
    if kind == "steps" {
        let count = number(words.next());
        let passes = number(words.next());
        return run_steps(&rt, rt.alloc(), name, count, passes, number(words.next()));
    }
    let call = words.next().unwrap_or("");
    let limit = number(words.next());
    let rounds = number(words.next());
    let places = number(words.next());
    if limit == 0 {
        return println!(rt; "the limit is 0");
    }
    if !matches!(kind, "loop" | "moved" | "ends") {
        return println!(rt; "no such kind");
    }
    match name {
        "u7" => measure_u7(&rt, kind, call, limit, rounds, places),
        "i7" => measure_i7(&rt, kind, call, limit, rounds, places),
        "u14" => measure_u14(&rt, kind, call, limit, rounds, places),
        "i14" => measure_i14(&rt, kind, call, limit, rounds, places),
        "u120" => measure_u120(&rt, kind, call, limit, rounds, places),
        "i120" => measure_i120(&rt, kind, call, limit, rounds, places),
        _ => println!(rt; "no such type"),
    }
}
