// The words of a line.
ghost use Rattle.std.specs.Prelude.{ℕ, List, IfOk};
ghost use Rattle.scenario_text.specs.Words.{Uncommented, WordsOf};

use std::alloc::{AllocError, Global};

// What stands before a comment.
fn code(line: &str) -> &str
    ensures { Uncommented line.now result.now }
{
    line.split_once('#')
        .map_or(line, |(before, _comment)| before)
}

fn split(heap: Global, text: &str) -> Result<Vec<&str>, AllocError>
    ensures { IfOk result (λ v. WordsOf text.now v.items) }
{
    text.split_whitespace().collect(heap)
}

// The words of a line, up to a comment.
pub fn words(heap: Global, line: &str) -> Result<Vec<&str>, AllocError>
    ensures { IfOk result (λ v. (text : List ℕ) × Uncommented line.now text × WordsOf text v.items) }
{
    split(heap, code(line))
}
