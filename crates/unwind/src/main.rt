// unwind FILE: reads a scenario from the file, or from standard input without one, and prints its answers and a report.
#![tactic(auto)]

use scenario::report::print_answers;
use scenario::script::Scenario;
use std::process::ExitCode;
use std::{env, fs, io};

// Why the program ends with status 1.
enum Failure {
    // the scenario has a mistake, which has been told
    BadScenario,
    World(io::Error),
}

impl From<io::Error> for Failure {
    fn from(error: io::Error) -> Failure {
        Failure::World(error)
    }
}

fn input(rt: &HostRuntime) -> io::Result<String> {
    let mut args = env::args(rt)?;
    let _ = args.next();
    match args.next() {
        Some(path) => fs::read_to_string(rt, path.as_str()),
        None => io::read_to_string(rt.alloc(), rt.stdin()),
    }
}

fn run(rt: &HostRuntime) -> Result<(), Failure> {
    let text = input(rt)?;
    match Scenario::read(rt.alloc(), text.as_str()) {
        Ok(scenario) => Ok(print_answers(rt, &scenario)?),
        Err(mistake) => {
            eprintln!(rt; "{mistake}")?;
            Err(Failure::BadScenario)
        }
    }
}

fn main(rt: HostRuntime) -> ExitCode {
    match run(&rt) {
        Ok(()) => ExitCode::SUCCESS,
        Err(Failure::BadScenario) => ExitCode::FAILURE,
        Err(Failure::World(error)) => {
            let _ = eprintln!(rt; "{error}");
            ExitCode::FAILURE
        }
    }
}
