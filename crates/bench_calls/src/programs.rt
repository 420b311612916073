//! Six small programs over arrays, as a user writes them.

use arbitrary_calls::calls::products::ProductCalls;
use arbitrary_calls::calls::shifts::ShiftCalls;
use arbitrary_calls::calls::sums::SumCalls;
use arbitrary_calls::extraction::Extraction;
use arbitrary_core::aliases::signed::{i12, i14};
use arbitrary_core::aliases::unsigned::{u3, u4, u5, u7, u15, u20, u24, u28};
use arbitrary_traits::integer::Integer;
use arbitrary_traits::numbered::Numbered;

/// The fields of a word.
#[derive(Clone, Copy, Drop)]
pub struct Fields {
    pub mode: u3,
    pub gain: u7,
    pub offset: i14,
    pub channel: u5,
    pub tag: u3,
}

pub fn decode(word: u32) -> Fields {
    Fields {
        mode: u3::extract_u32(word, 0),
        gain: u7::extract_u32(word, 3),
        offset: i14::extract_u32(word, 10),
        channel: u5::extract_u32(word, 24),
        tag: u3::extract_u32(word, 29),
    }
}

pub fn encode(fields: Fields) -> u32 {
    fields.mode.as_u32()
        | (fields.gain.as_u32() << 3)
        | (fields.offset.to_unsigned().as_u32() << 10)
        | (fields.channel.as_u32() << 24)
        | (fields.tag.as_u32() << 29)
}

pub fn tuned(word: u32) -> u32 {
    let fields = decode(word);
    encode(Fields {
        gain: fields.gain.wrapping_add(u7::new(1)),
        offset: fields.offset.saturating_sub(i14::new(3)),
        ..fields
    })
}

/// A struct of fields in each word, read, changed and written.
#[inline(never)]
pub fn tune_all(words: &mut [u32; 1024]) {
    for i in 0..1024 {
        words[i] = tuned(words[i]);
    }
}

/// The fields of a word of 64 bits.
#[derive(Clone, Copy, Drop)]
pub struct Wide {
    pub sequence: u20,
    pub level: i12,
    pub kind: u4,
    pub address: u28,
}

pub fn wide_tuned(word: u64) -> u64 {
    let wide = Wide {
        sequence: u20::extract_u64(word, 0),
        level: i12::extract_u64(word, 20),
        kind: u4::extract_u64(word, 32),
        address: u28::extract_u64(word, 36),
    };
    let sequence = wide.sequence.wrapping_add(u20::new(1));
    let level = wide.level.saturating_add(i12::new(5));
    sequence.as_u64()
        | (level.to_unsigned().as_u64() << 20)
        | (wide.kind.as_u64() << 32)
        | (wide.address.as_u64() << 36)
}

/// The same in words of 64 bits.
#[inline(never)]
pub fn wide_fields(words: &mut [u64; 1024]) {
    for i in 0..1024 {
        words[i] = wide_tuned(words[i]);
    }
}

/// One bit more in the CRC of a CAN frame.
pub fn crc_bit(crc: u15, bit: u8) -> u15 {
    let next = crc.wrapping_shl(1);
    if (crc.value() >> 14) == u16::from(bit) {
        next
    } else {
        next ^ u15::new(0x4599)
    }
}

/// The CRC of 15 bits of a CAN frame.
#[inline(never)]
pub fn crc(bytes: &[u8; 1024]) -> u15 {
    let mut crc = u15::new(0);
    for i in 0..1024 {
        for place in 0..8u32 {
            crc = crc_bit(crc, (bytes[i] >> (7 - place)) & 1);
        }
    }
    crc
}

/// A weighted sum, scaled and clamped to a sample.
pub fn sample(sum: i32) -> i14 {
    i14::new((sum >> 13).clamp(-8192, 8191) as i16)
}

/// A filter of 16 taps over samples of 14 bits.
#[inline(never)]
pub fn fir(samples: &[i14; 1024], taps: &[i14; 16], out: &mut [i14; 1024]) {
    for i in 15..1024 {
        let mut sum = 0i32;
        for k in 0..16 {
            sum = sum.wrapping_add(taps[k].as_i32().wrapping_mul(samples[i - k].as_i32()));
        }
        out[i] = sample(sum);
    }
}

/// What an instruction gives.
pub fn executed(word: u32, left: u24, right: u24) -> u24 {
    let amount = i14::extract_u32(word, 0);
    match u3::extract_u32(word, 29).value() {
        0 => left.wrapping_add(right),
        1 => left.wrapping_sub(right),
        2 => left ^ right,
        3 => left.wrapping_add(amount.as_::<u24>()),
        4 => left.wrapping_shl(amount.as_u32()),
        5 => left & right,
        6 => left.wrapping_mul(right),
        _ => left.rotate_left(right.value()),
    }
}

/// A program of a small processor with 32 registers of 24 bits.
#[inline(never)]
pub fn machine(program: &[u32; 1024], registers: &mut [u24; 32]) {
    for i in 0..1024 {
        let word = program[i];
        let left = registers[u5::extract_u32(word, 19).value() as usize];
        let right = registers[u5::extract_u32(word, 14).value() as usize];
        registers[u5::extract_u32(word, 24).value() as usize] = executed(word, left, right);
    }
}

/// Two sums of 24 bits, as Fletcher's.
#[inline(never)]
pub fn checksum(bytes: &[u8; 1024]) -> (u24, u24) {
    let mut low = u24::new(1);
    let mut high = u24::new(0);
    for i in 0..1024 {
        low = low.wrapping_add(u24::from(bytes[i]));
        high = high.wrapping_add(low);
    }
    (low, high)
}
