// Call sites: reading their records, and finding the one of a place.
ghost use Rattle.std.specs.Prelude.{◌≡◌, ◌^◌, ◌<◌, ◌≤◌, length, pos, negsuc, ◌≤ℤ◌, ◌<ℤ◌, IfOk, Ok};
ghost use Rattle.lsda.specs.Site.{recut, in_record_at, address, fields_at, judged_fields, ranged_at, numbered_at, ranged_turn, numbered_turn, look, find_site, wanted_of, Readable};

use crate::header::{Header, Layout};
use numbers::format::read_number;
use numbers::number::{Number, Read, Unsigned, read_unsigned};
use personality::fault::{Cause, Fault};
use std::ops::ControlFlow;

// An action, and the offset where it stands: 0 is a cleanup, another names the first link of a chain. An enum would have number
// and offset in its other arm, and be matched in one place.
#[derive(Clone, Copy)]
pub struct Action {
    pub value: u32,
    pub at: usize,
}

// What a call site says: where to land, if anywhere, and the action.
#[derive(Clone, Copy)]
pub struct Site {
    pub pad: Option<u32>,
    pub action: Action,
}

// A call site of the places from `from` to below `to`.
#[derive(Clone, Copy)]
pub struct Ranged {
    pub from: u32,
    pub to: u32,
    pub site: Site,
}

// The numbers of a record of ranges, as they stand there.
#[derive(Clone, Copy)]
pub struct Fields {
    pub start: Number,
    pub length: Number,
    pub pad: Number,
    pub action: Unsigned,
}

// The call site that is looked for: that of a place, or the n-th from here on. There is none at number 0, which is no case of
// its own, as the count goes down to it.
#[derive(Clone, Copy)]
pub enum Wanted {
    Place(u32),
    Nth(u32),
}

// Where the next record stands, and what is looked for from there on.
#[derive(Clone, Copy)]
pub struct Search {
    pub at: usize,
    pub wanted: Wanted,
}

// A number of a record that the call-site table cuts short makes the record pass the call-site table.
fn past_call_sites(fault: Fault, first: usize) -> Fault
    ensures { result ≡ recut fault first }
{
    match fault.cause {
        Cause::CutShort => Fault::at(Cause::PastCallSites, first),
        _ => fault,
    }
}

fn in_record<T>(read: Result<T, Fault>, first: usize) -> Result<T, Fault>
    ensures is { result ≡ in_record_at read first }
    ensures good { IfOk result (λ n. read ≡ Ok n) }
{
    read.map_err(|fault| past_call_sites(fault, first))
}

// base + value, for a field at an offset: neither negative nor above 32 bits.
fn make_address(base: u32, value: i64, at: usize) -> Result<u32, Fault>
    requires above { negsuc 2147483647 ≤ℤ value }
    requires below { value <ℤ pos 4294967296 }
    ensures { result ≡ address base value at }
{
    if value < 0 {
        return Err(Fault::at(Cause::BadAddress, at));
    }
    let sum = i64::from(base) + value;
    u32::try_from(sum).map_err(|_| Fault::at(Cause::BadAddress, at))
}

// The call site of a place from a record on: below the record the place is unlisted, below the record's end it is the
// record's, and else it is looked for from the next record on.
fn judge_ranged(place: u32, found: Read<Ranged>) -> ControlFlow<Option<Site>, Search>
    ensures { result ≡ ranged_turn place found }
{
    if place < found.value.from {
        return ControlFlow::Break(None);
    }
    if place < found.value.to {
        return ControlFlow::Break(Some(found.value.site));
    }
    ControlFlow::Continue(Search {
        at: found.next,
        wanted: Wanted::Place(place),
    })
}

// The n-th call site from a record on: that record's, or one that is looked for from the next record on.
fn judge_numbered(n: u32, found: Read<Site>) -> ControlFlow<Option<Site>, Search>
    requires { 0 < n }
    ensures { result ≡ numbered_turn n found }
{
    if n == 1 {
        return ControlFlow::Break(Some(found.value));
    }
    ControlFlow::Continue(Search {
        at: found.next,
        wanted: Wanted::Nth(n - 1),
    })
}

// The call sites of a function, and the bytes up to their end.
#[derive(Clone, Copy)]
pub(crate) struct CallSiteTable<'a> {
    pub bytes: &'a [u8],
    pub header: Header,
    pub function: u32,
}

impl CallSiteTable<'_> {
    // The fields of the record at an offset.
    fn fields(&self, at: usize) -> Result<Fields, Fault>
        ensures is { result ≡ fields_at self.now.bytes.now self.now.header.sites.format at }
        ensures within { IfOk result Readable }
    {
        let format = self.header.sites.format;
        let start = in_record(read_number(self.bytes, at, format), at)?;
        let length = in_record(read_number(self.bytes, start.next, format), at)?;
        let pad = in_record(read_number(self.bytes, length.next, format), at)?;
        let action = in_record(read_unsigned(self.bytes, pad.next), at)?;
        Ok(Fields {
            start,
            length,
            pad,
            action,
        })
    }

    // The record that fields make: start, length and pad are judged in this order.
    fn judge(&self, at: usize, f: Fields) -> Result<Read<Ranged>, Fault>
        requires { Readable f }
        ensures { result ≡ judged_fields self.now.header.landing self.now.function at f }
    {
        let from = make_address(self.function, f.start.value, at)?;
        let to = make_address(from, f.length.value, f.start.next)?;
        let pad = make_address(self.header.landing, f.pad.value, f.length.next)?;
        let pad = (f.pad.value != 0).then_some(pad);
        let action = Action {
            value: f.action.value,
            at: f.pad.next,
        };
        Ok(Read {
            value: Ranged {
                from,
                to,
                site: Site { pad, action },
            },
            next: f.action.next,
        })
    }

    fn ranged(&self, at: usize) -> Result<Read<Ranged>, Fault>
        ensures { result ≡ ranged_at self.now.bytes.now self.now.header self.now.function at }
    {
        let fields = self.fields(at)?;
        self.judge(at, fields)
    }

    // A numbered record holds its pad less one.
    fn numbered(&self, at: usize) -> Result<Read<Site>, Fault>
        ensures { result ≡ numbered_at self.now.bytes.now at }
    {
        let pad = in_record(read_unsigned(self.bytes, at), at)?;
        let action = in_record(read_unsigned(self.bytes, pad.next), at)?;
        if pad.value == u32::MAX {
            return Err(Fault::at(Cause::BadAddress, at));
        }
        let site = Site {
            pad: Some(pad.value + 1),
            action: Action {
                value: action.value,
                at: pad.next,
            },
        };
        Ok(Read {
            value: site,
            next: action.next,
        })
    }

    // The record at the search's offset, and then whether it is the one. A match, since a closure for each layout would have
    // to carry what is left to count.
    fn look(&self, search: Search) -> Result<ControlFlow<Option<Site>, Search>, Fault>
        ensures { result ≡ look self.now.bytes.now self.now.header self.now.function search }
    {
        if search.at >= self.bytes.len() {
            return Ok(ControlFlow::Break(None));
        }
        match search.wanted {
            Wanted::Place(place) => Ok(judge_ranged(place, self.ranged(search.at)?)),
            Wanted::Nth(0) => Ok(ControlFlow::Break(None)),
            Wanted::Nth(n) => Ok(judge_numbered(n, self.numbered(search.at)?)),
        }
    }

    // The call site that is wanted, None where the place is unlisted. A record has a byte or more, so that as many turns as
    // there are bytes are enough. The loop along a chain is this one at other types: over a closure it would need a relation
    // of its turns.
    #[tactic(auto, using(crate::proofs::Turns::turn_err, crate::proofs::Turns::turn_done, crate::proofs::Turns::turn_next, crate::proofs::Turns::turn_end))]
    pub(crate) fn find(&self, wanted: Wanted) -> Result<Option<Site>, Fault>
        ensures { result ≡ find_site self.now.bytes.now self.now.header self.now.function wanted }
    {
        let sites = self.header.sites;
        let mut search = Search {
            at: sites.at,
            wanted,
        };
        for _ in sites.at..sites.end {
            match self.look(search)? {
                ControlFlow::Break(site) => return Ok(site),
                ControlFlow::Continue(next) => search = next,
            }
        }
        Ok(None)
    }
}

impl Layout {
    // What a place asks for: as the rules have it, a number above 31 bits is negative, and asks for nothing.
    pub(crate) fn wanted(self, place: u32) -> Option<Wanted>
        ensures { result ≡ wanted_of self place }
    {
        match self {
            Layout::Lsda => Some(Wanted::Place(place)),
            Layout::Sjlj if place < 0x8000_0000 => Some(Wanted::Nth(place)),
            Layout::Sjlj => None,
        }
    }
}
