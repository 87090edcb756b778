// Release, and the layers Pair and Guest over any personalities.
ghost use Rattle.std.specs.Prelude.{◌≡◌};
ghost use Rattle.personality.specs.Layers.{release_verdict, pair_verdict, guest_verdict};
ghost use Rattle.std.proofs.Common.{rules};

use crate::fault::{Cause, Fault};
use crate::interface::Personality;
use crate::verdict::{Question, Verdict};

// A cleanup at `pad` for the places from `lo` to below `hi`.
#[derive(Clone, Copy, PartialEq, Eq, Debug)]
pub struct Release {
    pub lo: u32,
    pub hi: u32,
    pub pad: u32,
}

impl Personality for Release {
    ghost verdict = { λ s _ q. release_verdict s q };

    ghost forced = { Prim.search rules };

    fn ask(&self, image: &[u8], question: Question) -> Verdict {
        if question.unit != 0 {
            return Verdict::Broken(Fault::at(Cause::NoUnit, 0));
        }
        if (self.lo..self.hi).contains(&question.place) {
            return Verdict::Cleanup { pad: self.pad };
        }
        Verdict::Nothing
    }
}

// The first personality has the even units, the second the odd ones.
#[derive(Drop)]
pub struct Pair<F, S> {
    pub first: F,
    pub second: S,
}

impl<F: Personality, S: Personality> Personality for Pair<F, S> {
    ghost verdict = { λ s image q. pair_verdict (F.Personality.verdict s.first image) (S.Personality.verdict s.second image) q };

    ghost forced = { Prim.search rules };

    fn ask(&self, image: &[u8], question: Question) -> Verdict {
        let below = question.halve();
        let verdict = if question.unit % 2 == 0 {
            self.first.ask(image, below)
        } else {
            self.second.ask(image, below)
        };
        verdict.pass_up()
    }
}

// Asks the forced question below, whatever it is asked.
#[derive(Drop)]
pub struct Guest<P> {
    pub below: P,
}

impl<P: Personality> Personality for Guest<P> {
    ghost verdict = { λ s image q. guest_verdict (P.Personality.verdict s.below image) q };

    ghost forced = { Prim.search rules };

    fn ask(&self, image: &[u8], question: Question) -> Verdict {
        self.below.ask(image, question.press()).pass_up()
    }
}
