// The language in which a type is caught by itself alone.
ghost use Rattle.std.specs.Prelude.{nat_eq};
ghost use Rattle.languages.specs.Types.{exact_class};

use crate::language::Language;

#[derive(Clone, Copy, PartialEq, Eq, Debug)]
pub struct Exact;

impl Language for Exact {
    const CLASS: u64 = 0x4c4f_4f4d_5049_434b;

    ghost native = { exact_class };

    ghost caught = { λ _ catch thrown. nat_eq catch thrown };

    fn is_native(&self, class: u64) -> bool {
        class == Self::CLASS
    }

    fn catches(&self, catch: u16, thrown: u16) -> bool {
        catch == thrown
    }
}
