// Layers over leaves of any one type, as a tree that is built at run time.
ghost use Rattle.std.specs.Prelude.{◌≡◌, IfOk};
ghost use Rattle.composed.specs.Tree.{composed_verdict, PairOf, GuestOf};
ghost use Rattle.composed.specs.Forced.{harmless};

use personality::interface::Personality;
use personality::verdict::{Question, Verdict};
use std::alloc::{AllocError, Global};

#[derive(Drop)]
pub enum Composed<P> {
    Leaf(P),
    Pair(Box<Composed<P>>, Box<Composed<P>>),
    Guest(Box<Composed<P>>),
}

impl<P: Drop> Composed<P> {
    // The first has the even units, the second the odd ones.
    pub fn pair(
        heap: Global,
        first: Composed<P>,
        second: Composed<P>,
    ) -> Result<Composed<P>, AllocError>
        ensures { IfOk result (λ x. PairOf x first second) }
    {
        let first = Box::new(heap, first)?;
        let second = Box::new(heap, second)?;
        Ok(Composed::Pair(first, second))
    }

    // Asks the forced question below, whatever it is asked.
    pub fn guest(heap: Global, below: Composed<P>) -> Result<Composed<P>, AllocError>
        ensures { IfOk result (λ x. GuestOf x below) }
    {
        Ok(Composed::Guest(Box::new(heap, below)?))
    }
}

impl<P: Personality> Personality for Composed<P> {
    ghost verdict = { composed_verdict P.Personality.verdict };

    ghost forced = { λ x image q f. harmless P.Personality.verdict P.Personality.forced x image q f };

    // The text of Pair and Guest again: in a tree of boxes of these two each guest would take more than twice the stack
    // when it is freed.
    fn ask(&self, image: &[u8], question: Question) -> Verdict {
        match self {
            Composed::Leaf(leaf) => leaf.ask(image, question),
            Composed::Pair(first, second) => {
                let half = question.halve();
                let verdict = if question.unit % 2 == 0 {
                    first.ask(image, half)
                } else {
                    second.ask(image, half)
                };
                verdict.pass_up()
            }
            Composed::Guest(below) => below.ask(image, question.press()).pass_up(),
        }
    }
}
