// The formats of numbers.
ghost use Rattle.std.specs.Prelude.{◌≡◌, length, IfOk};
ghost use Rattle.numbers.specs.Formats.{format_of_code, number_at};
ghost use Rattle.numbers.specs.Numbers.{Within};

use crate::number::{Number, Width, read_fixed, read_leb128};
use personality::fault::Fault;

#[derive(Clone, Copy, PartialEq, Eq, Debug)]
pub enum Size {
    Leb128,
    Fixed(Width),
}

// The size and the sign of a number.
#[derive(Clone, Copy, PartialEq, Eq, Debug)]
pub struct Format {
    pub size: Size,
    pub signed: bool,
}

// The formats stand in a constant table, under one rule. Each has a name there, since a constant's value can call no function
// that would make it.
const REFUSED: Option<Format> = None;

const UNSIGNED_LEB128: Option<Format> = Some(Format {
    size: Size::Leb128,
    signed: false,
});

const SIGNED_LEB128: Option<Format> = Some(Format {
    size: Size::Leb128,
    signed: true,
});

const UNSIGNED_TWO: Option<Format> = Some(Format {
    size: Size::Fixed(Width::Two),
    signed: false,
});

const SIGNED_TWO: Option<Format> = Some(Format {
    size: Size::Fixed(Width::Two),
    signed: true,
});

const UNSIGNED_FOUR: Option<Format> = Some(Format {
    size: Size::Fixed(Width::Four),
    signed: false,
});

const SIGNED_FOUR: Option<Format> = Some(Format {
    size: Size::Fixed(Width::Four),
    signed: true,
});

// The format of each value of the low four bits.
const FORMATS: [Option<Format>; 16] = [
    UNSIGNED_FOUR,
    UNSIGNED_LEB128,
    UNSIGNED_TWO,
    UNSIGNED_FOUR,
    REFUSED,
    REFUSED,
    REFUSED,
    REFUSED,
    REFUSED,
    SIGNED_LEB128,
    SIGNED_TWO,
    SIGNED_FOUR,
    REFUSED,
    REFUSED,
    REFUSED,
    REFUSED,
];

// The format of a code, or None where it is refused.
#[tactic(auto, unfolding(crate::specs::Formats::format_of_code))]
pub fn decode_format(code: u8) -> Option<Format>
    ensures { result ≡ format_of_code code }
{
    *FORMATS.get(usize::from(code))?
}

// The number at an offset, in a format. Inlined, so that a search among records reads their fields in place.
#[inline(always)]
pub fn read_number(bytes: &[u8], at: usize, format: Format) -> Result<Number, Fault>
    ensures is { result ≡ number_at bytes.now format at }
    ensures within { IfOk result (Within (length bytes.now) format.signed) }
{
    match format.size {
        Size::Leb128 => read_leb128(bytes, at, format.signed),
        Size::Fixed(width) => read_fixed(bytes, at, width, format.signed),
    }
}
