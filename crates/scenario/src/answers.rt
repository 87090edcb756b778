// The answers to a scenario's questions.
ghost use Rattle.std.specs.Prelude.{◌≡◌, map, IfOk};
ghost use Rattle.scenario.specs.Answers.{Answered};

use crate::script::Scenario;
use personality::interface::Personality;
use personality::verdict::{Question, Verdict};
use std::alloc::{AllocError, Global};

fn answer_all<P: Personality>(
    heap: Global,
    personality: &P,
    image: &[u8],
    questions: &[Question],
) -> Result<Vec<Verdict>, AllocError>
    ensures { IfOk result (λ v. v.items ≡ map (P.Personality.verdict personality.now image.now) questions.now) }
{
    questions
        .iter()
        .map(|question| personality.ask(image, *question))
        .collect(heap)
}

impl Scenario {
    // The answers to the questions, in their order: none without a personality. A list beside the questions, so that a
    // contract can say that it is their list under one function.
    pub fn answers(&self, heap: Global) -> Result<Vec<Verdict>, AllocError>
        ensures { IfOk result (λ v. Answered self.now.personality self.now.image.items self.now.questions.items v.items) }
    {
        match &self.personality {
            Some(personality) => answer_all(
                heap,
                personality,
                self.image.as_slice(),
                self.questions.as_slice(),
            ),
            None => Ok(Vec::new(heap)),
        }
    }
}
