// A scenario as a whole: what its lines have set up, and the questions that they ask.
ghost use Rattle.std.specs.Prelude.{◌≡◌, None, Some, vec_len, MatchResult, OnOk};
ghost use Rattle.scenario.specs.Scripts.{Added, Follows, Fresh, ReadWhole, StoppedAt};

use crate::statement::{Statement, read_statement};
use composed::tree::Composed;
use personality::verdict::Question;
use scenario_plan::read::OwnedLeaf;
use scenario_text::mistake::{Mistake, Wrong};
use scenario_text::words::words;
use std::alloc::Global;

// Gives what a scenario may be given once.
fn give_once<'t, T: Drop>(
    place: &mut Option<T>,
    value: T,
    statement: &'t str,
) -> Result<(), Wrong<'t>>
    ensures { OnOk result ((place.old ≡ None) × (place.new ≡ Some value)) }
{
    if place.is_some() {
        return Err(Wrong::GivenTwice(statement));
    }
    *place = Some(value);
    Ok(())
}

#[derive(Drop)]
pub struct Scenario {
    pub image: Vec<u8>,
    pub personality: Option<Composed<OwnedLeaf>>,
    // what the runtime is set up with, if it is given
    pub serials: Option<u32>,
    pub questions: Vec<Question>,
}

impl Scenario {
    fn new(heap: Global) -> Scenario
        ensures { Fresh result }
    {
        Scenario {
            image: Vec::new(heap),
            personality: None,
            serials: None,
            questions: Vec::new(heap),
        }
    }

    // What is set up comes before the first question.
    fn still_setting_up<'t>(&self, statement: &'t str) -> Result<(), Wrong<'t>>
        ensures { OnOk result (vec_len self.now.questions ≡ 0) }
    {
        if self.questions.is_empty() {
            return Ok(());
        }
        Err(Wrong::TooLate(statement))
    }

    fn add<'t>(&mut self, statement: Statement) -> Result<(), Wrong<'t>>
        ensures { OnOk result (Added statement self.old self.new) }
    {
        match statement {
            Statement::Image(bytes) => {
                self.still_setting_up("image")?;
                self.image.extend_from_slice(bytes.as_slice())?;
            }
            Statement::Personality(personality) => {
                self.still_setting_up("personality")?;
                give_once(&mut self.personality, personality, "personality")?;
            }
            Statement::Serials(number) => {
                self.still_setting_up("serials")?;
                give_once(&mut self.serials, number, "serials")?;
            }
            Statement::Ask(question) => {
                if self.personality.is_none() {
                    return Err(Wrong::NoPersonality);
                }
                self.questions.push(question)?;
            }
        }
        Ok(())
    }

    fn read_line<'t>(&mut self, heap: Global, line: &'t str) -> Result<(), Wrong<'t>>
        ensures { OnOk result (Follows line.now self.old self.new) }
    {
        let words = words(heap, line)?;
        let said = read_statement(heap, words.as_slice())?;
        match said {
            Some(statement) => self.add(statement),
            None => Ok(()),
        }
    }

    // The scenario of a text, or what is wrong with its first wrong line.
    pub fn read<'t>(heap: Global, text: &'t str) -> Result<Scenario, Mistake<'t>>
        ensures { MatchResult result (λ s. ReadWhole text.now s) (λ m. StoppedAt text.now m.line) }
    {
        let mut all = Scenario::new(heap);
        for (index, line) in text.lines().enumerate() {
            if let Err(wrong) = all.read_line(heap, line) {
                return Err(Mistake {
                    line: index + 1,
                    wrong,
                });
            }
        }
        Ok(all)
    }
}
