// The question that a personality gets, and the verdict that it answers.
ghost use Rattle.std.specs.Prelude.{◌≡◌, Some};
ghost use Rattle.personality.specs.Texts.{verdict_text};
ghost use Rattle.personality.specs.Verdicts.{halved, pressed, raised};

use crate::fault::Fault;
use std::fmt;

// A frame's unit and place, the exception's class and type, and whether the unwinding is forced.
#[derive(Clone, Copy, PartialEq, Eq, Debug)]
pub struct Question {
    pub unit: u16,
    pub place: u32,
    pub class: u64,
    pub thrown: u16,
    pub forced: bool,
}

impl Question {
    // The question that a pair passes on: half the unit, rounded down.
    pub fn halve(self) -> Question
        ensures { result ≡ halved self }
    {
        Question {
            unit: self.unit / 2,
            ..self
        }
    }

    // The question that a guest passes on.
    pub fn press(self) -> Question
        ensures { result ≡ pressed self }
    {
        Question {
            forced: true,
            ..self
        }
    }
}

// What is to happen at a frame.
#[derive(Clone, Copy, PartialEq, Eq, Debug)]
pub enum Verdict {
    Nothing,
    Cleanup { pad: u32 },
    Handler { pad: u32, selector: i32 },
    Terminate,
    Broken(Fault),
}

impl Verdict {
    // The same verdict, one layer up.
    pub fn pass_up(self) -> Verdict
        ensures { result ≡ raised self }
    {
        match self {
            Verdict::Broken(fault) => Verdict::Broken(fault.passed_up()),
            other => other,
        }
    }
}

// As a report prints it.
impl fmt::Display for Verdict {
    ghost output = { λ v. Some (verdict_text v) };

    fn fmt<W: fmt::Write>(&self, f: &mut fmt::Formatter<W>) -> fmt::Result {
        match *self {
            Verdict::Nothing => write!(f, "nothing"),
            Verdict::Cleanup { pad } => write!(f, "cleanup pad {pad}"),
            Verdict::Handler { pad, selector } => write!(
                f,
                "handler pad {pad} selector {selector}"
            ),
            Verdict::Terminate => write!(f, "terminate"),
            Verdict::Broken(fault) => write!(f, "broken {fault}"),
        }
    }
}
