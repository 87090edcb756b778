// Numbers, which are written in digits alone: std's readers would take a sign.
ghost use Rattle.std.specs.Prelude.{◌+◌, ◌^◌, ◌≤◌};
ghost use Rattle.scenario_text.specs.Numbers.{Written, ByteWritten};

use crate::mistake::Wrong;
use std::num::IntErrorKind;

// Why a word is no number.
#[derive(Clone, Copy, PartialEq, Eq, Debug)]
enum Misread {
    NotDigits,
    TooLarge,
}

fn number(word: &str, radix: u32) -> Result<u64, Misread>
    requires { (2 ≤ radix) × (radix ≤ 36) }
    ensures { Written radix (2 ^ 64) word.now result }
{
    // A byte, and not `starts_with`: so this function is short enough to be inlined, where the radix is a constant.
    if let [b'+', ..] = word.as_bytes() {
        return Err(Misread::NotDigits);
    }
    u64::from_str_radix(word, radix).map_err(|e| match e.kind() {
        IntErrorKind::PosOverflow => Misread::TooLarge,
        _ => Misread::NotDigits,
    })
}

// A decimal number of this many bits, which is at most the largest. A number type as parameter, in place of both, would need
// a trait with three ghost members for two functions of one line.
fn decimal<'a>(word: &'a str, bits: u8, largest: u64) -> Result<u64, Wrong<'a>>
    ensures { Written 10 (largest + 1) word.now result }
{
    match number(word, 10) {
        Ok(n) if n <= largest => Ok(n),
        Ok(_) | Err(Misread::TooLarge) => Err(Wrong::TooLarge { word, bits }),
        Err(Misread::NotDigits) => Err(Wrong::NotDecimal(word)),
    }
}

// A unit or a type.
pub fn read_u16<'a>(word: &'a str) -> Result<u16, Wrong<'a>>
    ensures { Written 10 (2 ^ 16) word.now result }
{
    Ok(decimal(word, 16, u64::from(u16::MAX))? as u16)
}

// A place, a serial or any other number of a table or a frame.
pub fn read_u32<'a>(word: &'a str) -> Result<u32, Wrong<'a>>
    ensures { Written 10 (2 ^ 32) word.now result }
{
    Ok(decimal(word, 32, u64::from(u32::MAX))? as u32)
}

pub fn read_class<'a>(word: &'a str) -> Result<u64, Wrong<'a>>
    ensures { Written 16 (2 ^ 64) word.now result }
{
    number(word, 16).or_else(|misread| match misread {
        Misread::TooLarge => Err(Wrong::TooLarge { word, bits: 64 }),
        Misread::NotDigits => Err(Wrong::NotAClass(word)),
    })
}

#[tactic(auto, using(crate::proofs::Digits::two_digits))]
pub fn read_byte<'a>(word: &'a str) -> Result<u8, Wrong<'a>>
    ensures { ByteWritten word.now result }
{
    if word.len() > 2 {
        return Err(Wrong::NotAByte(word));
    }
    let n = number(word, 16).map_err(|_| Wrong::NotAByte(word))?;
    Ok(n as u8)
}
