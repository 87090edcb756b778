// What a report prints of questions: each in canonical form, and their number by verdict.
ghost use Rattle.std.specs.Prelude.{◌≡◌, Some};
ghost use Rattle.scenario.specs.Reports.{asked_text, more, no_questions, noted, tally_text};

use crate::script::Scenario;
use personality::verdict::{Question, Verdict};
use std::{fmt, io};

// A question as a statement: decimal numbers without leading zeros, the class in sixteen hexadecimal digits.
#[derive(Clone, Copy, PartialEq, Eq, Debug)]
pub struct Asked(pub Question);

#[tactic(auto, using(crate::proofs::Texts::class_padded))]
impl fmt::Display for Asked {
    ghost output = { λ a. Some (asked_text a.0) };

    fn fmt<W: fmt::Write>(&self, f: &mut fmt::Formatter<W>) -> fmt::Result {
        let Question {
            unit,
            place,
            class,
            thrown,
            forced,
        } = self.0;
        let manner = if forced { "forced" } else { "plain" };
        write!(f, "ask {unit} {place} {class:016x} {thrown} {manner}")
    }
}

fn count(counter: &mut u64)
    ensures { counter.new ≡ more counter.old }
{
    *counter = counter.saturating_add(1);
}

// How many questions were asked, and how many got each verdict. No list is so long that a counter would stop.
#[derive(Clone, Copy, PartialEq, Eq, Debug, Default)]
pub struct Tally {
    pub questions: u64,
    pub nothing: u64,
    pub cleanup: u64,
    pub handler: u64,
    pub terminate: u64,
    pub broken: u64,
}

impl Tally {
    pub fn new() -> Tally
        ensures { result ≡ no_questions }
    {
        Tally::default()
    }

    // One more question that got this verdict.
    pub fn note(&mut self, verdict: Verdict)
        ensures { self.new ≡ noted verdict self.old }
    {
        count(&mut self.questions);
        match verdict {
            Verdict::Nothing => count(&mut self.nothing),
            Verdict::Cleanup { .. } => count(&mut self.cleanup),
            Verdict::Handler { .. } => count(&mut self.handler),
            Verdict::Terminate => count(&mut self.terminate),
            Verdict::Broken(_) => count(&mut self.broken),
        }
    }
}

impl fmt::Display for Tally {
    ghost output = { λ t. Some (tally_text t) };

    fn fmt<W: fmt::Write>(&self, f: &mut fmt::Formatter<W>) -> fmt::Result {
        let Tally {
            questions,
            nothing,
            cleanup,
            handler,
            terminate,
            broken,
        } = *self;
        write!(
            f,
            "questions {questions} nothing {nothing} cleanup {cleanup} handler {handler} terminate {terminate} broken {broken}"
        )
    }
}

// Prints each question with its answer and then, if there was a question, the tally.
pub fn print_answers(rt: &HostRuntime, scenario: &Scenario) -> io::Result<()> {
    let answers = scenario.answers(rt.alloc())?;
    let mut tally = Tally::new();
    for (question, verdict) in scenario.questions.iter().zip(answers.iter()) {
        let asked = Asked(*question);
        println!(rt; "{asked}: {verdict}")?;
        tally.note(*verdict);
    }
    if tally.questions > 0 {
        println!(rt; "{tally}")?;
    }
    Ok(())
}
