// The interface of a personality.
ghost use Rattle.std.specs.Prelude.{◌≡◌, ℕ, true, List};
ghost use Rattle.personality.specs.declared.verdict.Question.{Question};
ghost use Rattle.personality.specs.declared.verdict.Verdict.{Verdict};
ghost use Rattle.personality.specs.Verdicts.{Harmless};

use crate::verdict::{Question, Verdict};

pub trait Personality {
    // The one verdict that it means, for the bytes of an image and a question.
    ghost verdict: { Self → List ℕ → Question → Verdict };

    fn ask(&self, image: &[u8], question: Question) -> Verdict
        ensures { result ≡ verdict self.now image.now question };

    // A forced question never gets Handler or Terminate.
    ghost forced: { (p : Self) (image : List ℕ) (question : Question) → question.forced ≡ true → Harmless (verdict p image question) };
}
