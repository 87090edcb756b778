// What the words of a line say.
ghost use Rattle.std.specs.Prelude.{◌≡◌, length, IfOk};
ghost use Rattle.scenario_text.specs.Words.{Writes};
ghost use Rattle.scenario.specs.Statements.{Bytes, Forced, SaysQuestion, SaysAll, SaysLine};

use composed::tree::Composed;
use personality::verdict::Question;
use scenario_plan::read::{OwnedLeaf, read_plan};
use scenario_text::mistake::{Form, Wrong};
use scenario_text::number::{read_byte, read_class, read_u16, read_u32};
use std::alloc::Global;

#[derive(Drop)]
pub enum Statement {
    Image(Vec<u8>),
    Personality(Composed<OwnedLeaf>),
    Serials(u32),
    Ask(Question),
}

// As a loop: over `try_collect` the proof of each byte did not close.
fn bytes<'t>(heap: Global, words: &[&'t str]) -> Result<Vec<u8>, Wrong<'t>>
    ensures { IfOk result (λ v. Bytes v.items words.now) }
{
    let mut found = Vec::new(heap);
    for word in words {
        found.push(read_byte(*word)?)?;
    }
    Ok(found)
}

// A plan that takes all the words.
fn personality<'t>(heap: Global, words: &[&'t str]) -> Result<Composed<OwnedLeaf>, Wrong<'t>>
    ensures { IfOk result (λ plan. SaysAll plan words.now) }
{
    let read = read_plan(heap, words)?;
    match read.rest {
        [word, ..] => Err(Wrong::LeftOver(*word)),
        [] => Ok(read.found),
    }
}

fn forced<'t>(word: &'t str) -> Result<bool, Wrong<'t>>
    ensures { IfOk result (λ b. Forced word.now b) }
{
    match word {
        "plain" => Ok(false),
        "forced" => Ok(true),
        _ => Err(Wrong::NotPlainOrForced(word)),
    }
}

// What an `ask` asks, by the words after the first.
fn question<'t>(words: &[&'t str]) -> Result<Question, Wrong<'t>>
    ensures { IfOk result (λ q. SaysQuestion q words.now) }
{
    match words {
        [_, unit, place, class, thrown, manner] => {
            let unit = read_u16(*unit)?;
            let place = read_u32(*place)?;
            let class = read_class(*class)?;
            let thrown = read_u16(*thrown)?;
            let forced = forced(*manner)?;
            Ok(Question {
                unit,
                place,
                class,
                thrown,
                forced,
            })
        }
        _ => Err(Wrong::Takes(Form::Ask)),
    }
}

fn serials<'t>(words: &[&'t str]) -> Result<u32, Wrong<'t>>
    ensures { IfOk result (λ n. (length words.now ≡ 2) × Writes 10 words.now 1 n) }
{
    match words {
        [_, number] => read_u32(*number),
        _ => Err(Wrong::Takes(Form::Serials)),
    }
}

// The statement of a line, if it has words.
#[tactic(auto, using(std::proofs::lemmas::List::take_rest))]
pub fn read_statement<'t>(heap: Global, words: &[&'t str]) -> Result<Option<Statement>, Wrong<'t>>
    ensures { IfOk result (λ s. SaysLine s words.now) }
{
    match words {
        ["image", rest @ ..] => Ok(Some(Statement::Image(bytes(heap, rest)?))),
        ["personality", rest @ ..] => Ok(Some(Statement::Personality(personality(heap, rest)?))),
        ["serials", ..] => Ok(Some(Statement::Serials(serials(words)?))),
        ["ask", ..] => Ok(Some(Statement::Ask(question(words)?))),
        [other, ..] => Err(Wrong::NotAStatement(*other)),
        [] => Ok(None),
    }
}
