// Action chains: the links that a call site's action leads to, and the verdict that they give.
ghost use Rattle.std.specs.Prelude.{◌≡◌, ◌^◌, ◌<◌, ◌≤◌, length, pos, negsuc, ◌≤ℤ◌, ◌<ℤ◌};
ghost use Rattle.std.proofs.Props.{props};
ghost use Rattle.lsda.specs.Chain.{entry_at, type_of, matching, hit_at, ending, onward, link_at, step_at, chain_at, first_link_of};
ghost use Rattle.lsda.specs.Header.{Near};

use crate::header::Header;
use crate::site::Action;
use languages::language::Language;
use numbers::number::{Number, read_fixed, read_leb128};
use personality::fault::{Cause, Fault};
use personality::verdict::{Question, Verdict};
use std::ops::ControlFlow;

// The longest chain.
const LINKS: usize = 64;

// Where the next link starts, the field that says so, and whether a cleanup was noted on the way.
#[derive(Clone, Copy)]
pub struct Walk {
    pub at: i64,
    pub from: usize,
    pub noted: bool,
}

fn type_in(entry: Number, at: usize) -> Result<u16, Fault>
    ensures { result ≡ type_of entry at }
{
    u16::try_from(entry.value).map_err(|_| Fault::at(Cause::BadTypeEntry, at))
}

// The chain of an action, walked for a question: the bytes end where the table does, and a match or a cleanup lands at the
// pad.
#[derive(Drop)]
pub(crate) struct Chain<'a, L> {
    pub bytes: &'a [u8],
    pub start: u32,
    pub header: Header,
    pub language: &'a L,
    pub question: Question,
    pub pad: u32,
    // so that an offset and a field of 32 bits have a sum
    ghost short: { length bytes.now < 2 ^ 33 },
    ghost inside: { header.sites.end ≤ length bytes.now },
    ghost near: { Near header.types } by { Prim.hlevel props },
}

impl<L: Language> Chain<'_, L> {
    // The type of entry n, for a filter at an offset.
    fn entry(&self, n: u32, at: usize) -> Result<u16, Fault>
        ensures { result ≡ entry_at self.now.bytes.now self.now.start self.now.header.types n at }
    {
        let types = self.header.types.ok_or(Fault::at(Cause::BadTypeEntry, at))?;
        let size = types.width.bytes();
        let back = n as usize * size;
        if types.base < self.start as usize + back {
            return Err(Fault::at(Cause::BadTypeEntry, at));
        }
        let entry = types.base - back;
        if self.bytes.len() < entry + size {
            return Err(Fault::at(Cause::BadTypeEntry, at));
        }
        type_in(read_fixed(self.bytes, entry, types.width, false)?, at)
    }

    // Type 0 matches everything; another matches a native exception that the language says it catches. The type is a number,
    // since an enum made of it would be matched here alone.
    fn matches(&self, entry: u16) -> bool
        ensures { result ≡ matching L.Language.native (L.Language.caught self.now.language.now) self.now.question entry }
    {
        let Question { class, thrown, .. } = self.question;
        entry == 0 || self.language.is_native(class) && self.language.catches(entry, thrown)
    }

    // Whether a filter at an offset matches. A forced question passes over all filters. The filter is a number, since one that
    // matches is the handler's selector.
    fn hits(&self, filter: i64, at: usize) -> Result<bool, Fault>
        requires { filter <ℤ pos 2147483648 }
        ensures { result ≡ hit_at self.now.bytes.now self.now.start self.now.header.types (matching L.Language.native (L.Language.caught self.now.language.now) self.now.question) self.now.question.forced filter at }
    {
        if filter == 0 || self.question.forced {
            return Ok(false);
        }
        let n = u32::try_from(filter).map_err(|_| Fault::at(Cause::BadTypeEntry, at))?;
        let entry = self.entry(n, at)?;
        Ok(self.matches(entry))
    }

    // The pad does not go with the flag: a handler lands there too.
    fn end(&self, noted: bool) -> Verdict
        ensures { result ≡ ending noted self.now.pad }
    {
        if noted {
            Verdict::Cleanup { pad: self.pad }
        } else {
            Verdict::Nothing
        }
    }

    // What follows a link that does not match: the end where its displacement is 0, a number that is tested here alone, or
    // the link that it leads to, counted from its own first byte.
    fn go_on(&self, noted: bool, filter: Number, displacement: Number) -> ControlFlow<Verdict, Walk>
        requires short { filter.next < 2 ^ 33 }
        requires above { negsuc 2147483647 ≤ℤ displacement.value }
        requires below { displacement.value <ℤ pos 2147483648 }
        ensures { result ≡ onward self.now.pad noted filter displacement }
    {
        if displacement.value == 0 {
            return ControlFlow::Break(self.end(noted));
        }
        ControlFlow::Continue(Walk {
            at: filter.next as i64 + displacement.value,
            from: filter.next,
            noted,
        })
    }

    // The link at an offset: both numbers are read before either is judged.
    fn link(&self, noted: bool, at: usize) -> Result<ControlFlow<Verdict, Walk>, Fault>
        ensures { result ≡ link_at self.now.bytes.now self.now.start self.now.header.types (matching L.Language.native (L.Language.caught self.now.language.now) self.now.question) self.now.question.forced self.now.pad noted at }
    {
        let filter = read_leb128(self.bytes, at, true)?;
        let displacement = read_leb128(self.bytes, filter.next, true)?;
        if self.hits(filter.value, at)? {
            return Ok(ControlFlow::Break(Verdict::Handler {
                pad: self.pad,
                selector: filter.value as i32,
            }));
        }
        Ok(self.go_on(noted || filter.value == 0, filter, displacement))
    }

    // The link that a walk has come to, which starts in the action table.
    fn step(&self, walk: Walk) -> Result<ControlFlow<Verdict, Walk>, Fault>
        ensures { result ≡ step_at self.now.bytes.now self.now.start self.now.header (matching L.Language.native (L.Language.caught self.now.language.now) self.now.question) self.now.question.forced self.now.pad walk }
    {
        match usize::try_from(walk.at) {
            Ok(at) if self.header.sites.end <= at && at < self.bytes.len() => {
                self.link(walk.noted, at)
            }
            _ => Err(Fault::at(Cause::BadLink, walk.from)),
        }
    }

    // The first link: action 1 is at the start of the action table.
    fn first_link(&self, action: Action) -> Walk
        ensures { result ≡ first_link_of self.now.header.sites.end action }
    {
        let actions = self.header.sites.end;
        Walk {
            at: actions as i64 + i64::from(action.value) - 1,
            from: action.at,
            noted: false,
        }
    }

    // The verdict of an action's chain.
    #[tactic(auto, using(crate::proofs::Turns::turn_err, crate::proofs::Turns::turn_done, crate::proofs::Turns::turn_next, crate::proofs::Turns::turn_end))]
    pub(crate) fn verdict(&self, action: Action) -> Result<Verdict, Fault>
        ensures { result ≡ chain_at self.now.bytes.now self.now.start self.now.header (matching L.Language.native (L.Language.caught self.now.language.now) self.now.question) self.now.question.forced self.now.pad (first_link_of self.now.header.sites.end action) }
    {
        let mut walk = self.first_link(action);
        for _ in 0..LINKS {
            match self.step(walk)? {
                ControlFlow::Break(verdict) => return Ok(verdict),
                ControlFlow::Continue(next) => walk = next,
            }
        }
        Err(Fault::at(Cause::BadLink, walk.from))
    }
}
