// The header of a table. Each field is judged as it is read. Each reader has a clause that it ends inside its bytes: that
// relates an answer to the bytes, and so is no invariant of a type.
ghost use Rattle.std.specs.Prelude.{◌≡◌, ◌^◌, ◌<◌, ◌≤◌, length, pos, ◌<ℤ◌, IfOk, OnOk};
ghost use Rattle.lsda.specs.Header.{byte_at, format_at, natural, landing_at, type_width, types_at, site_format, sites_at, header_at, Near, Sound};

use numbers::format::{Format, decode_format, read_number};
use numbers::number::{Number, Read, Unsigned, Width, read_unsigned};
use personality::fault::{Cause, Fault};

// How a table lists its call sites: by ranges of places, or by number.
#[derive(Clone, Copy, PartialEq, Eq, Debug)]
pub enum Layout {
    Lsda,
    Sjlj,
}

// The size of a type entry, and the type base, from which entries are counted back.
#[derive(Clone, Copy)]
pub struct TypeTable {
    pub width: Width,
    pub base: usize,
}

// The call sites' format, where they begin, and where they end: there the action table begins.
#[derive(Clone, Copy)]
pub struct CallSites {
    pub format: Format,
    pub at: usize,
    pub end: usize,
}

#[derive(Clone, Copy)]
pub struct Header {
    pub landing: u32,
    pub types: Option<TypeTable>,
    pub sites: CallSites,
}

// What stands in the place of a format where the field is omitted.
const OMITTED: u8 = 0xff;

fn read_byte(bytes: &[u8], at: usize) -> Result<u8, Fault>
    ensures is { result ≡ byte_at bytes.now at }
    ensures within { OnOk result (at < length bytes.now) }
{
    bytes.get(at).copied().ok_or(Fault::at(Cause::CutShort, at))
}

fn format_of(code: u8, at: usize) -> Result<Format, Fault>
    ensures { result ≡ format_at code at }
{
    decode_format(code).ok_or(Fault::at(Cause::BadFormat, at))
}

// An address is not negative.
fn non_negative(number: Number, at: usize) -> Result<Unsigned, Fault>
    requires { number.value <ℤ pos 4294967296 }
    ensures is { result ≡ natural number at }
    ensures within { IfOk result (λ n. n.next ≡ number.next) }
{
    let value = u32::try_from(number.value).map_err(|_| Fault::at(Cause::BadAddress, at))?;
    Ok(Read {
        value,
        next: number.next,
    })
}

// The landing start, which is the function start where it is omitted.
fn read_landing(bytes: &[u8], at: usize, function: u32) -> Result<Unsigned, Fault>
    ensures is { result ≡ landing_at bytes.now function at }
    ensures within { IfOk result (λ n. n.next ≤ length bytes.now) }
{
    let code = read_byte(bytes, at)?;
    if code == OMITTED {
        return Ok(Read {
            value: function,
            next: at + 1,
        });
    }
    let format = format_of(code, at)?;
    let number = read_number(bytes, at + 1, format)?;
    non_negative(number, at + 1)
}

fn type_entry_width(code: u8, at: usize) -> Result<Width, Fault>
    ensures { result ≡ type_width code at }
{
    match code {
        0 | 3 => Ok(Width::Four),
        2 => Ok(Width::Two),
        _ => Err(Fault::at(Cause::BadFormat, at)),
    }
}

// The type table, where there is one. It tests for an omitted field itself, as the landing start does: the value in its place
// differs, and so does what is read else.
fn read_types(bytes: &[u8], at: usize) -> Result<Read<Option<TypeTable>>, Fault>
    ensures is { result ≡ types_at bytes.now at }
    ensures within { IfOk result (λ t. (t.next ≤ length bytes.now) × Near t.value) }
{
    let code = read_byte(bytes, at)?;
    if code == OMITTED {
        return Ok(Read {
            value: None,
            next: at + 1,
        });
    }
    let width = type_entry_width(code, at)?;
    let offset = read_unsigned(bytes, at + 1)?;
    let base = offset.next + offset.value as usize;
    Ok(Read {
        value: Some(TypeTable { width, base }),
        next: offset.next,
    })
}

// Numbered call sites are in format 1.
fn call_site_format(layout: Layout, code: u8, at: usize) -> Result<Format, Fault>
    ensures { result ≡ site_format layout code at }
{
    if layout == Layout::Sjlj && code != 1 {
        return Err(Fault::at(Cause::BadFormat, at));
    }
    format_of(code, at)
}

fn read_sites(bytes: &[u8], at: usize, layout: Layout) -> Result<CallSites, Fault>
    ensures is { result ≡ sites_at bytes.now layout at }
    ensures within { IfOk result (λ s. (s.at ≤ s.end) × (s.end ≤ length bytes.now)) }
{
    let code = read_byte(bytes, at)?;
    let format = call_site_format(layout, code, at)?;
    let length = read_unsigned(bytes, at + 1)?;
    let end = length.next + length.value as usize;
    if bytes.len() < end {
        return Err(Fault::at(Cause::PastCallSites, at + 1));
    }
    Ok(CallSites {
        format,
        at: length.next,
        end,
    })
}

pub(crate) fn read_header(
    bytes: &[u8],
    start: usize,
    function: u32,
    layout: Layout,
) -> Result<Header, Fault>
    ensures is { result ≡ header_at bytes.now layout start function }
    ensures sound { IfOk result (Sound bytes.now) }
{
    let landing = read_landing(bytes, start, function)?;
    let types = read_types(bytes, landing.next)?;
    let sites = read_sites(bytes, types.next, layout)?;
    Ok(Header {
        landing: landing.value,
        types: types.value,
        sites,
    })
}
