// Reads the numbers of exception tables out of bytes: LEB128, fixed sizes, and the formats that choose among them.
// A reader gets the bytes that it may read, from the image's start to the end of the part that holds the number, so that
// an offset into them is an image offset. Its good answer carries the offset after the number: bytes and offset are not one
// reader that moves on, since faults name offsets of fields that were read before, which each caller would have to save.
#![tactic(auto)]

pub mod format;
pub mod number;
