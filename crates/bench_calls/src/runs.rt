//! Runs the small programs of `programs` many times, on inputs made here.

use crate::programs;
use arbitrary_calls::extraction::Extraction;
use arbitrary_core::aliases::signed::i14;
use arbitrary_core::aliases::unsigned::{u15, u24};
use arbitrary_traits::numbered::Numbered;
use std::io;

fn patterns() -> [u64; 1024] {
    let mut words = [0u64; 1024];
    let mut word = 1u64;
    for i in 0..1024 {
        word = word
            .wrapping_mul(6364136223846793005)
            .wrapping_add(1442695040888963407);
        words[i] = word;
    }
    words
}

fn low_words(patterns: &[u64; 1024]) -> [u32; 1024] {
    let mut words = [0u32; 1024];
    for i in 0..1024 {
        words[i] = (patterns[i] >> 32) as u32;
    }
    words
}

fn bytes_of(patterns: &[u64; 1024]) -> [u8; 1024] {
    let mut bytes = [0u8; 1024];
    for i in 0..1024 {
        bytes[i] = (patterns[i] >> 56) as u8;
    }
    bytes
}

fn samples_of(patterns: &[u64; 1024]) -> [i14; 1024] {
    let mut samples = [i14::new(0); 1024];
    for i in 0..1024 {
        samples[i] = i14::extract_u64(patterns[i], 50);
    }
    samples
}

fn run_fields(rt: &impl Print, passes: u32) -> io::Result<()> {
    let mut words = low_words(&patterns());
    for _ in 0..passes {
        programs::tune_all(&mut words);
    }
    println!(rt; "{} {} {}", words[0], words[511], words[1023])
}

fn run_wide(rt: &impl Print, passes: u32) -> io::Result<()> {
    let mut words = patterns();
    for _ in 0..passes {
        programs::wide_fields(&mut words);
    }
    println!(rt; "{} {} {}", words[0], words[511], words[1023])
}

fn run_crc(rt: &impl Print, passes: u32) -> io::Result<()> {
    let mut bytes = bytes_of(&patterns());
    let mut crc = u15::new(0);
    for _ in 0..passes {
        crc = programs::crc(&bytes);
        bytes[0] = crc.as_u8();
    }
    println!(rt; "{crc}")
}

fn run_fir(rt: &impl Print, passes: u32) -> io::Result<()> {
    let mut samples = samples_of(&patterns());
    let mut taps = [i14::new(700); 16];
    for k in 0..16 {
        taps[k] = samples[k];
    }
    let mut out = [i14::new(0); 1024];
    for _ in 0..passes {
        programs::fir(&samples, &taps, &mut out);
        samples[20] = out[1000];
    }
    let (a, b, c) = (out[15], out[511], out[1023]);
    println!(rt; "{a} {b} {c}")
}

fn run_machine(rt: &impl Print, passes: u32) -> io::Result<()> {
    let program = low_words(&patterns());
    let mut registers = [u24::new(1234567); 32];
    for _ in 0..passes {
        programs::machine(&program, &mut registers);
    }
    let (a, b, c) = (registers[0], registers[7], registers[31]);
    println!(rt; "{a} {b} {c}")
}

fn run_checksum(rt: &impl Print, passes: u32) -> io::Result<()> {
    let mut bytes = bytes_of(&patterns());
    let mut sums = (u24::new(0), u24::new(0));
    for _ in 0..passes {
        sums = programs::checksum(&bytes);
        bytes[0] = sums.1.as_u8();
    }
    println!(rt; "{} {}", sums.0, sums.1)
}

/// Runs the program of that name `passes` times, and prints some of its results.
pub fn run_program(rt: &impl Print, name: &str, passes: u32) -> io::Result<()> {
    match name {
        "fields" => run_fields(rt, passes),
        "wide" => run_wide(rt, passes),
        "crc" => run_crc(rt, passes),
        "fir" => run_fir(rt, passes),
        "machine" => run_machine(rt, passes),
        "checksum" => run_checksum(rt, passes),
        _ => println!(rt; "no such program"),
    }
}
