// The leaf that reads a table.
ghost use Rattle.std.specs.Prelude.{◌≡◌, ◌^◌, ◌<◌, length, IfOk};
ghost use Rattle.lsda.specs.Chain.{matching};
ghost use Rattle.lsda.specs.Header.{Sound};
ghost use Rattle.lsda.specs.Verdict.{table_bytes, held, unlisted, landed, judged_at, leaf_verdict};
ghost use Rattle.lsda.specs.Forced.{harmless};

use crate::chain::Chain;
use crate::header::{Header, Layout, read_header};
use crate::site::{CallSiteTable, Site};
use languages::language::Language;
use personality::fault::{Cause, Fault};
use personality::interface::Personality;
use personality::verdict::{Question, Verdict};

// How a table lists its call sites, where it lies in the image, where its function starts, and the language of its types.
// Of numbered call sites a place is the number.
#[derive(Clone, Copy, Drop)]
pub struct Table<L> {
    pub layout: Layout,
    pub start: u32,
    pub length: u32,
    pub function: u32,
    pub language: L,
}

fn unlisted_place(forced: bool) -> Verdict
    ensures { result ≡ unlisted forced }
{
    if forced {
        Verdict::Nothing
    } else {
        Verdict::Terminate
    }
}

impl<L: Language> Table<L> {
    // The image up to the table's end, if the table lies in it.
    fn bytes<'i>(&self, image: &'i [u8]) -> Result<&'i [u8], Fault>
        ensures is { held result ≡ table_bytes image.now self.now.start self.now.length }
        ensures within { IfOk result (λ b. length b.now < 2 ^ 33) }
    {
        let start = self.start as usize;
        image
            .get(..start + self.length as usize)
            .ok_or(Fault::at(Cause::CutShort, start))
    }

    // The verdict at a call site.
    fn land(
        &self,
        bytes: &[u8],
        header: Header,
        question: Question,
        site: Site,
    ) -> Result<Verdict, Fault>
        requires sound { Sound bytes.now header }
        requires short { length bytes.now < 2 ^ 33 }
        ensures { result ≡ landed bytes.now self.now.start header (matching L.Language.native (L.Language.caught self.now.language) question) question.forced site }
    {
        let Some(pad) = site.pad else {
            return Ok(Verdict::Nothing);
        };
        if site.action.value == 0 {
            return Ok(Verdict::Cleanup { pad });
        }
        let chain = Chain {
            bytes,
            start: self.start,
            header,
            language: &self.language,
            question,
            pad,
        };
        chain.verdict(site.action)
    }

    fn judge(&self, image: &[u8], question: Question) -> Result<Verdict, Fault>
        ensures { result ≡ judged_at L.Language.native (L.Language.caught self.now.language) self.now image.now question }
    {
        let layout = self.layout;
        let bytes = self.bytes(image)?;
        let header = read_header(bytes, self.start as usize, self.function, layout)?;
        let Some(wanted) = layout.wanted(question.place) else {
            return Ok(Verdict::Nothing);
        };
        let sites = CallSiteTable {
            bytes: &bytes[..header.sites.end],
            header,
            function: self.function,
        };
        match sites.find(wanted)? {
            None => Ok(unlisted_place(question.forced)),
            Some(site) => self.land(bytes, header, question, site),
        }
    }
}

impl<L: Language> Personality for Table<L> {
    ghost verdict = { λ s image q. leaf_verdict L.Language.native (L.Language.caught s.language) s image q };

    ghost forced = { λ s image q e. harmless L.Language.native (L.Language.caught s.language) s image q e };

    // A leaf has unit 0 alone. Release has the same test, and another verdict after it.
    // Not inlined, so that a tree's `ask`, which calls itself, keeps nothing of a table's in its frame.
    #[inline(never)]
    fn ask(&self, image: &[u8], question: Question) -> Verdict {
        if question.unit != 0 {
            return Verdict::Broken(Fault::at(Cause::NoUnit, 0));
        }
        self.judge(image, question).unwrap_or_else(Verdict::Broken)
    }
}
