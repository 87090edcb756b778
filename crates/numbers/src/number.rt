// LEB128 numbers and numbers of two or four bytes.
ghost use Rattle.std.specs.Prelude.{◌≡◌, ◌*◌, ◌%◌, ◌^◌, ◌<◌, ◌≤◌, length, IfOk, nat_le};
ghost use Rattle.numbers.specs.Digits.{no_digits, with_digit, digits_at, bytes_at, width_bytes};
ghost use Rattle.numbers.specs.Numbers.{limit, value_of, fits, judged, leb128_at, unsigned_at, fixed_at, Within};
ghost use Rattle.numbers.specs.Laws.{Means};

use personality::fault::{Cause, Fault};
use std::marker::Model;

// A LEB128 number has at most this many bytes.
pub const LIMIT: usize = 5;

// What was read, and the offset after it.
#[derive(Clone, Copy, PartialEq, Eq, Debug)]
pub struct Read<T> {
    pub value: T,
    pub next: usize,
}

pub type Number = Read<i64>;

// A number that has no sign.
pub type Unsigned = Read<u32>;

// How many bytes a number of a fixed size has.
#[derive(Clone, Copy, PartialEq, Eq, Debug)]
pub enum Width {
    Two,
    Four,
}

impl Width {
    // The number of bytes: `usize::from` would not say of what.
    pub fn bytes(self) -> usize
        ensures { result ≡ width_bytes self }
    {
        match self {
            Width::Two => 2,
            Width::Four => 4,
        }
    }
}

// The digits of a number, read so far: their sum by weight, the weight of the next digit and its offset. Once all are read,
// `negative` is whether the last has its highest bit.
#[derive(Drop)]
struct Digits {
    sum: u64,
    weight: u64,
    negative: bool,
    next: usize,
}

impl Model for Digits {
    ghost use Rattle.std.specs.Prelude.{◌^◌, ◌<◌, ◌≤◌};
    ghost use Rattle.numbers.specs.Digits.{Digits};

    ghost Value = { Digits };

    ghost view = { λ d. record { sum = d.sum; weight = d.weight; negative = d.negative; next = d.next } };

    ghost invariant = { λ d. (d.sum < d.weight) × (d.weight ≤ 2 ^ 56) };
}

// The seven bits of the number that a byte of LEB128 has.
fn payload(byte: u8) -> u64
    ensures { result ≡ byte % 128 }
{
    u64::from(byte % 128)
}

// The highest of the seven bits: in the last byte of a signed number it is the sign.
fn sign_bit(byte: u8) -> bool
    ensures { result ≡ nat_le 64 byte }
{
    byte >= 64
}

impl Digits {
    // No digit yet: the first is at `at`.
    fn none(at: usize) -> Digits
        ensures { result ≡ no_digits at }
    {
        Digits {
            sum: 0,
            weight: 1,
            negative: false,
            next: at,
        }
    }

    // One digit more, in one byte more. The offset is counted here, as a part of the record.
    fn push(&mut self, digit: u64, base: u64)
        requires small { digit < base }
        requires room { (self.old.weight * base ≤ 2 ^ 56) × (self.old.next < 2 ^ 63) }
        ensures { self.new ≡ with_digit digit base self.old }
    {
        self.sum += self.weight * digit;
        self.weight *= base;
        self.next += 1;
    }

    // The highest bit of all bytes, whose weight is half of the weight after them.
    fn top_bit(&self) -> bool
        ensures { result ≡ nat_le self.now.weight (2 * self.now.sum) }
    {
        2 * self.sum >= self.weight
    }

    fn value(&self, signed: bool) -> i64
        ensures { result ≡ value_of signed self.now }
    {
        if signed && self.negative {
            self.sum as i64 - self.weight as i64
        } else {
            self.sum as i64
        }
    }

    // The number, if it fits 32 bits.
    fn judge(&self, at: usize, signed: bool) -> Result<Number, Fault>
        ensures is { result ≡ judged signed at self.now }
        ensures within { IfOk result (Within self.now.next signed) }
    {
        let value = self.value(signed);
        if in_range(value, signed) {
            Ok(Number {
                value,
                next: self.next,
            })
        } else {
            Err(Fault::at(Cause::TooLarge, at))
        }
    }
}

// Each byte by its offset: over a slice, whose length has to be worked out for each number, a search among numbered call
// sites takes half as long again.
fn read_digits(bytes: &[u8], at: usize) -> Result<Digits, Fault>
    ensures is { result ≡ digits_at bytes.now at limit at }
    ensures within { IfOk result (λ d. d.next ≤ length bytes.now) }
{
    let mut digits = Digits::none(at);
    for _ in 0..LIMIT {
        let Some(&byte) = bytes.get(digits.next) else {
            return Err(Fault::at(Cause::CutShort, at));
        };
        digits.push(payload(byte), 128);
        if byte < 128 {
            digits.negative = sign_bit(byte);
            return Ok(digits);
        }
    }
    Err(Fault::at(Cause::TooLarge, at))
}

fn read_bytes(bytes: &[u8], at: usize, width: Width) -> Result<Digits, Fault>
    ensures is { result ≡ bytes_at bytes.now (width_bytes width) at }
    ensures within { IfOk result (λ d. d.next ≤ length bytes.now) }
{
    let size = width.bytes();
    let part = bytes
        .get(at..)
        .and_then(|rest| rest.get(..size))
        .ok_or(Fault::at(Cause::CutShort, at))?;
    let mut digits = Digits::none(at);
    for &byte in part {
        digits.push(u64::from(byte), 256);
    }
    digits.negative = digits.top_bit();
    Ok(digits)
}

// Whether a number fits 32 bits.
fn in_range(value: i64, signed: bool) -> bool
    ensures { result ≡ fits signed value }
{
    if signed {
        i32::try_from(value).is_ok()
    } else {
        u32::try_from(value).is_ok()
    }
}

// The LEB128 number at an offset.
pub fn read_leb128(bytes: &[u8], at: usize, signed: bool) -> Result<Number, Fault>
    ensures is { result ≡ leb128_at bytes.now signed at }
    ensures within { IfOk result (Within (length bytes.now) signed) }
    ensures means { Means bytes.now signed at result }
{
    read_digits(bytes, at)?.judge(at, signed)
}

// The unsigned LEB128 number at an offset.
pub fn read_unsigned(bytes: &[u8], at: usize) -> Result<Unsigned, Fault>
    ensures is { result ≡ unsigned_at bytes.now at }
    ensures within { IfOk result (λ n. n.next ≤ length bytes.now) }
{
    let number = read_leb128(bytes, at, false)?;
    Ok(Unsigned {
        value: number.value as u32,
        next: number.next,
    })
}

// The number of two or four bytes at an offset.
pub fn read_fixed(bytes: &[u8], at: usize, width: Width, signed: bool) -> Result<Number, Fault>
    ensures is { result ≡ fixed_at bytes.now width signed at }
    ensures within { IfOk result (Within (length bytes.now) signed) }
{
    read_bytes(bytes, at, width)?.judge(at, signed)
}
