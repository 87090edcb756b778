// Plans read from words, by recursive descent: each reader gives what it read, and the words that are left. The heap
// and the words are two parameters: of a struct of both each reader would take the words apart and keep the heap.
ghost use Rattle.std.specs.Prelude.{◌≡◌, drop, IfOk};
ghost use Rattle.scenario_plan.specs.Says.{Lists, SaysLanguage, SaysRelease, SaysTable, SaysLeaf, Enclosed, Says, leaf_of};
ghost use Rattle.scenario_text.specs.Words.{Begins};
ghost use Rattle.composed.specs.Tree.{PairOf, GuestOf};

use composed::leaf::{AnyLeaf, Leaf};
use composed::tree::Composed;
use languages::exact::Exact;
use languages::owned::OwnedTree;
use lsda::Layout;
use lsda::leaf::Table;
use personality::layers::Release;
use scenario_text::mistake::{Form, Wrong};
use scenario_text::number::{read_u16, read_u32};
use std::alloc::Global;

// A leaf that owns its lists.
pub type OwnedLeaf = Leaf<OwnedTree>;

// The language that the words of a table say.
#[derive(Drop)]
pub enum Spoken {
    Tree(OwnedTree),
    Exact(Exact),
}

// What was read, and the words after it. The readers of numbers have such a type for bytes, in a crate that knows no words.
#[derive(Drop)]
pub struct Read<'w, 't, T> {
    pub found: T,
    pub rest: &'w [&'t str],
}

impl<'w, 't, T> Read<'w, 't, T> {
    // The same words are left of what is made of what was read.
    fn map<U, F: FnOnce(T) -> U>(self, make: F) -> Read<'w, 't, U>
        requires { F.pre make self.found }
        ensures made { F.post make self.entry.found result.found }
        ensures left { result.rest ≡ self.entry.rest }
    {
        Read {
            found: make(self.found),
            rest: self.rest,
        }
    }
}

// The words after a bracket.
fn bracket<'w, 't>(words: &'w [&'t str], mark: &'t str) -> Result<&'w [&'t str], Wrong<'t>>
    ensures { IfOk result (λ rest. Begins words.now mark.now × (rest.now ≡ drop 1 words.now)) }
{
    match words {
        [first, rest @ ..] if *first == mark => Ok(rest),
        [first, ..] => Err(Wrong::NotBracket {
            word: *first,
            bracket: mark,
        }),
        [] => Err(Wrong::NoBracket(mark)),
    }
}

// The numbers up to a closing bracket or the end of the line.
fn parents<'w, 't>(heap: Global, words: &'w [&'t str]) -> Result<Read<'w, 't, OwnedTree>, Wrong<'t>>
    ensures { IfOk result (λ x. Lists x.found.parents.items words.now x.rest.now) }
{
    let mut found = Vec::new(heap);
    let mut rest = words;
    while let [first, others @ ..] = rest {
        if *first == ")" {
            break;
        }
        found.push(read_u16(*first)?)?;
        rest = others;
    }
    Ok(Read {
        found: OwnedTree { parents: found },
        rest,
    })
}

fn language<'w, 't>(heap: Global, words: &'w [&'t str]) -> Result<Read<'w, 't, Spoken>, Wrong<'t>>
    ensures { IfOk result (λ x. SaysLanguage x.found words.now x.rest.now) }
{
    match words {
        ["tree", rest @ ..] => Ok(parents(heap, rest)?.map(Spoken::Tree)),
        ["exact", rest @ ..] => Ok(Read {
            found: Spoken::Exact(Exact),
            rest,
        }),
        [other, ..] => Err(Wrong::NotALanguage(*other)),
        [] => Err(Wrong::Takes(Form::Language)),
    }
}

fn release<'w, 't>(words: &'w [&'t str]) -> Result<Read<'w, 't, Release>, Wrong<'t>>
    ensures { IfOk result (λ x. SaysRelease x.found words.now x.rest.now) }
{
    match words {
        [lo, hi, pad, rest @ ..] => {
            let found = Release {
                lo: read_u32(*lo)?,
                hi: read_u32(*hi)?,
                pad: read_u32(*pad)?,
            };
            Ok(Read { found, rest })
        }
        _ => Err(Wrong::Takes(Form::Release)),
    }
}

// What follows the word for a layout.
fn table<'w, 't>(
    heap: Global,
    layout: Layout,
    words: &'w [&'t str],
) -> Result<Read<'w, 't, Table<Spoken>>, Wrong<'t>>
    ensures said { IfOk result (λ x. SaysTable x.found x.found.language words.now x.rest.now) }
    ensures kind { IfOk result (λ x. x.found.layout ≡ layout) }
{
    match words {
        [start, length, function, rest @ ..] => {
            let start = read_u32(*start)?;
            let length = read_u32(*length)?;
            let function = read_u32(*function)?;
            let read = language(heap, rest)?;
            Ok(Read {
                found: Table {
                    layout,
                    start,
                    length,
                    function,
                    language: read.found,
                },
                rest: read.rest,
            })
        }
        _ => Err(Wrong::Takes(Form::Table)),
    }
}

// The leaf of a table, by its language: field by field, as the two leaves are of two types.
fn table_leaf(table: Table<Spoken>) -> OwnedLeaf
    ensures { result ≡ leaf_of table table.language }
{
    let Table {
        layout,
        start,
        length,
        function,
        language,
    } = table;
    match language {
        Spoken::Tree(language) => AnyLeaf::Tree(Table {
            layout,
            start,
            length,
            function,
            language,
        }),
        Spoken::Exact(language) => AnyLeaf::Exact(Table {
            layout,
            start,
            length,
            function,
            language,
        }),
    }
}

fn leaf<'w, 't>(heap: Global, words: &'w [&'t str]) -> Result<Read<'w, 't, OwnedLeaf>, Wrong<'t>>
    ensures { IfOk result (λ x. SaysLeaf x.found words.now x.rest.now) }
{
    match words {
        ["release", rest @ ..] => Ok(release(rest)?.map(AnyLeaf::Release)),
        ["lsda", rest @ ..] => Ok(table(heap, Layout::Lsda, rest)?.map(table_leaf)),
        ["sjlj", rest @ ..] => Ok(table(heap, Layout::Sjlj, rest)?.map(table_leaf)),
        [other, ..] => Err(Wrong::NotAPersonality(*other)),
        [] => Err(Wrong::Takes(Form::Personality)),
    }
}

// The pair of what was read first and then.
fn both<'w, 't>(
    heap: Global,
    first: Composed<OwnedLeaf>,
    then: Read<'w, 't, Composed<OwnedLeaf>>,
) -> Result<Read<'w, 't, Composed<OwnedLeaf>>, Wrong<'t>>
    ensures { IfOk result (λ x. PairOf x.found first then.entry.found × (x.rest.now ≡ then.entry.rest.now)) }
{
    Ok(Read {
        found: Composed::pair(heap, first, then.found)?,
        rest: then.rest,
    })
}

// The guest over what was read.
fn hosted<'w, 't>(
    heap: Global,
    below: Read<'w, 't, Composed<OwnedLeaf>>,
) -> Result<Read<'w, 't, Composed<OwnedLeaf>>, Wrong<'t>>
    ensures { IfOk result (λ x. GuestOf x.found below.entry.found × (x.rest.now ≡ below.entry.rest.now)) }
{
    Ok(Read {
        found: Composed::guest(heap, below.found)?,
        rest: below.rest,
    })
}

// A plan in brackets. Inlined, so that each layer takes one small frame of the stack.
#[inline(always)]
#[cycle(enclosed_read_plan)]
fn enclosed<'w, 't>(
    heap: Global,
    words: &'w [&'t str],
) -> Result<Read<'w, 't, Composed<OwnedLeaf>>, Wrong<'t>>
    ensures { IfOk result (λ x. Enclosed (Says x.found) words.now x.rest.now) }
{
    let inside = bracket(words, "(")?;
    let mut read = read_plan(heap, inside)?;
    read.rest = bracket(read.rest, ")")?;
    Ok(read)
}

// The plan that the words begin with.
#[cycle(enclosed_read_plan)]
pub fn read_plan<'w, 't>(
    heap: Global,
    words: &'w [&'t str],
) -> Result<Read<'w, 't, Composed<OwnedLeaf>>, Wrong<'t>>
    ensures { IfOk result (λ x. Says x.found words.now x.rest.now) }
{
    match words {
        ["pair", rest @ ..] => {
            let first = enclosed(heap, rest)?;
            let second = enclosed(heap, first.rest)?;
            both(heap, first.found, second)
        }
        ["guest", rest @ ..] => {
            let below = enclosed(heap, rest)?;
            hosted(heap, below)
        }
        _ => Ok(leaf(heap, words)?.map(Composed::Leaf)),
    }
}
