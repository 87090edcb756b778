// The answers to many scenarios, each after a line `== NAME`. What is expected was worked out from the rules, and not taken
// from what the program printed.
#![tactic(auto)]

use scenario::report::print_answers;
use scenario::script::Scenario;
use std::io;

fn answer(rt: &HostRuntime, text: &str) -> io::Result<()> {
    match Scenario::read(rt.alloc(), text) {
        Ok(scenario) => print_answers(rt, &scenario),
        Err(mistake) => println!(rt; "{mistake}"),
    }
}

fn main(rt: HostRuntime) -> io::Result<()> {
    let text = io::read_to_string(rt.alloc(), rt.stdin())?;
    let mut part = String::new(rt.alloc());
    for line in text.lines() {
        if line.starts_with("== ") {
            answer(&rt, part.as_str())?;
            part.clear();
            println!(rt; "{line}")?;
        } else {
            part.push_str(line)?;
            part.push('\n')?;
        }
    }
    answer(&rt, part.as_str())
}
