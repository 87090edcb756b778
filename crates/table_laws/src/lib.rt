// What the verdict of a table means: laws above the definitions that the leaf is proved against, on a call that asks it;
// and a worked table.
#![tactic(auto)]

ghost use Rattle.std.specs.Prelude.{◌≡◌};
ghost use Rattle.table_laws.specs.Chains.{HandlerLaw, CleanupLaw};
ghost use Rattle.table_laws.specs.Sites.{SitesLaw, NumbersLaw};
ghost use Rattle.table_laws.specs.Worked.{asked, WorkedCases};

use languages::language::Language;
use languages::tree::Tree;
use lsda::Layout;
use lsda::leaf::Table;
use personality::interface::Personality;
use personality::verdict::{Question, Verdict};

// Asks a table.
// Sites: where the records are ranges that all read soundly and rise without overlap, the verdict is that of the one record
// whose range holds the place; a place that none holds is unlisted, and only such a place gets Terminate.
// Numbers: where the records are numbered and all read soundly, the verdict is that of the record whose number the place
// is, and a place that numbers none is unlisted.
// Handler: its selector is the filter of the first link of the chain that matches, and no earlier link matches.
// Cleanup: it comes only where the action is 0, or where no link of the chain matches and one has filter 0.
#[tactic(auto, using(crate::proofs::Leaves::handler_law, crate::proofs::Leaves::cleanup_law, crate::proofs::Sites::sites_law))]
pub fn ask_table<L: Language>(table: &Table<L>, image: &[u8], question: Question) -> Verdict
    ensures sites { SitesLaw L.Language.native (L.Language.caught table.now.language) table.now image.now question result }
    ensures numbers { NumbersLaw L.Language.native (L.Language.caught table.now.language) table.now image.now question result }
    ensures handler { HandlerLaw L.Language.native (L.Language.caught table.now.language) table.now image.now question result }
    ensures cleanup { CleanupLaw L.Language.native (L.Language.caught table.now.language) table.now image.now question result }
{
    table.ask(image, question)
}

// Asks the worked table about a native exception of a type, at a place; its cases hold by the definitions.
pub fn ask_worked(thrown: u16, place: u32) -> Verdict
    ensures asks { result ≡ asked thrown place }
    ensures cases { WorkedCases }
{
    let image = b"\xff\x03\x10\x01\x08\x00\x10\x20\x01\x10\x10\x30\x00\x01\x00\x02\x00\x00\x00";
    let parents = [0u16, 1, 2];
    let table = Table {
        layout: Layout::Lsda,
        start: 0,
        length: 19,
        function: 4096,
        language: Tree { parents: &parents },
    };
    table.ask(
        image,
        Question {
            unit: 0,
            place,
            class: 0x474e_5543_432b_2b00,
            thrown,
            forced: false,
        },
    )
}
