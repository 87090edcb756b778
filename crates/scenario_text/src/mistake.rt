// What can be wrong with a scenario, in words for whoever wrote it.
ghost use Rattle.std.specs.Prelude.{Some};
ghost use Rattle.scenario_text.specs.Messages.{form_text, wrong_text, mistake_text};

use std::alloc::{AllocError, AllocFailed};
use std::fmt;

// What is the matter with one line; a variant holds the word that it is about.
#[derive(Clone, Copy, PartialEq, Eq, Debug)]
pub enum Wrong<'a> {
    NotAStatement(&'a str),
    NotDecimal(&'a str),
    NotAClass(&'a str),
    NotAByte(&'a str),
    TooLarge { word: &'a str, bits: u8 },
    NotPlainOrForced(&'a str),
    NotAPersonality(&'a str),
    NotALanguage(&'a str),
    // a statement, a leaf or a layer has too few words or too many
    Takes(Form),
    NotBracket { word: &'a str, bracket: &'a str },
    NoBracket(&'a str),
    LeftOver(&'a str),
    TooLate(&'a str),
    GivenTwice(&'a str),
    NoPersonality,
    NoMemory,
}

// What a word takes after it.
#[derive(Clone, Copy, PartialEq, Eq, Debug)]
pub enum Form {
    Ask,
    Serials,
    Personality,
    Release,
    Table,
    Language,
}

impl fmt::Display for Form {
    ghost output = { λ x. Some (form_text x) };

    fn fmt<W: fmt::Write>(&self, f: &mut fmt::Formatter<W>) -> fmt::Result {
        f.write_str(match self {
            Form::Ask => "ask takes UNIT PLACE CLASS TYPE and plain or forced",
            Form::Serials => "serials takes one number",
            Form::Personality => "a personality is missing: release, lsda, sjlj, pair or guest",
            Form::Release => "release takes LO HI PAD",
            Form::Table => "lsda and sjlj take START LENGTH FUNCTION and a language",
            Form::Language => "a language is missing: tree or exact",
        })
    }
}

impl<'a> fmt::Display for Wrong<'a> {
    ghost output = { λ x. Some (wrong_text x) };

    fn fmt<W: fmt::Write>(&self, f: &mut fmt::Formatter<W>) -> fmt::Result {
        match *self {
            Wrong::NotAStatement(word) => write!(f, "'{word}' is not a statement"),
            Wrong::NotDecimal(word) => write!(f, "'{word}' is not a decimal number"),
            Wrong::NotAClass(word) => write!(f, "'{word}' is not a class in hexadecimal digits"),
            Wrong::NotAByte(word) => write!(
                f,
                "'{word}' is not a byte of one or two hexadecimal digits"
            ),
            Wrong::TooLarge { word, bits } => write!(f, "'{word}' does not fit {bits} bits"),
            Wrong::NotPlainOrForced(word) => write!(f, "'{word}' is neither plain nor forced"),
            Wrong::NotAPersonality(word) => write!(
                f,
                "'{word}' is not a personality: release, lsda, sjlj, pair or guest"
            ),
            Wrong::NotALanguage(word) => write!(f, "'{word}' is not a language: tree or exact"),
            Wrong::Takes(form) => write!(f, "{form}"),
            Wrong::NotBracket { word, bracket } => write!(
                f,
                "'{bracket}' is missing before '{word}'"
            ),
            Wrong::NoBracket(bracket) => write!(f, "'{bracket}' is missing at the end of the line"),
            Wrong::LeftOver(word) => write!(f, "'{word}' is left over after the personality"),
            Wrong::TooLate(statement) => write!(f, "{statement} stands after the first ask"),
            Wrong::GivenTwice(statement) => write!(f, "{statement} is given twice"),
            Wrong::NoPersonality => write!(f, "ask stands before the personality"),
            Wrong::NoMemory => write!(f, "there is no memory left"),
        }
    }
}

impl<'a> From<AllocError> for Wrong<'a> {
    fn from(_e: AllocError) -> Wrong<'a> {
        Wrong::NoMemory
    }
}

impl<'a, T: Drop> From<AllocFailed<T>> for Wrong<'a> {
    fn from(_e: AllocFailed<T>) -> Wrong<'a> {
        Wrong::NoMemory
    }
}

// What is wrong, and in which line.
#[derive(Clone, Copy, PartialEq, Eq, Debug)]
pub struct Mistake<'a> {
    pub line: usize,
    pub wrong: Wrong<'a>,
}

impl<'a> fmt::Display for Mistake<'a> {
    ghost output = { λ x. Some (mistake_text x) };

    fn fmt<W: fmt::Write>(&self, f: &mut fmt::Formatter<W>) -> fmt::Result {
        let Mistake { line, wrong } = *self;
        write!(f, "line {line}: {wrong}")
    }
}
