// Why a table cannot be read, and where.
ghost use Rattle.std.specs.Prelude.{◌≡◌, Some};
ghost use Rattle.personality.specs.Faults.{cause_number, arisen, lifted};
ghost use Rattle.personality.specs.Texts.{fault_text};

use std::fmt;

#[derive(Clone, Copy, PartialEq, Eq, Debug)]
pub enum Cause {
    // a number or the table is cut short
    CutShort = 1,
    // a number is too long or too large
    TooLarge = 2,
    // a number's format is refused
    BadFormat = 3,
    // the call-site table passes the table, or a record passes the call-site table
    PastCallSites = 4,
    // a link starts outside the action table, or is one too many
    BadLink = 5,
    // a type entry lies outside the table or is too large, or a filter is negative
    BadTypeEntry = 6,
    // a field is negative, or an address made with it has more than 32 bits
    BadAddress = 7,
    // a leaf has no such unit
    NoUnit = 8,
}

impl Cause {
    // The number that reports give: `u8::from` would not say which number.
    pub fn number(self) -> u8
        ensures { result ≡ cause_number self }
    {
        self as u8
    }
}

// A cause, the image offset of the field's first byte, and how many layers have passed it up.
#[derive(Clone, Copy, PartialEq, Eq, Debug)]
pub struct Fault {
    pub cause: Cause,
    pub offset: u64,
    pub layer: u8,
}

impl Fault {
    // A fault where it arises.
    pub fn at(cause: Cause, offset: usize) -> Fault
        ensures { result ≡ arisen cause offset }
    {
        Fault {
            cause,
            offset: offset as u64,
            layer: 0,
        }
    }

    // The same fault, one layer up.
    pub fn passed_up(self) -> Fault
        ensures { result ≡ lifted self }
    {
        Fault {
            layer: self.layer.saturating_add(1),
            ..self
        }
    }
}

impl fmt::Display for Fault {
    ghost output = { λ f. Some (fault_text f) };

    fn fmt<W: fmt::Write>(&self, f: &mut fmt::Formatter<W>) -> fmt::Result {
        let cause = self.cause.number();
        let offset = self.offset;
        let layer = self.layer;
        write!(f, "cause {cause} offset {offset} layer {layer}")
    }
}
