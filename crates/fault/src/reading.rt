// A section read from lent octets. Whether it is one is judged once, by `read_section`; the others judge nothing and copy
// nothing out. From octets that are no section they give what stands at the places that the counts in them name.
ghost use Rattle.std.specs.Prelude.{◌≡◌, ◌+◌, ◌≤◌, length, replicate};
ghost use Rattle.octets.specs.Run.{run as run_of, laid};
ghost use Rattle.fault.specs.Places.{count_at, places_of};
ghost use Rattle.fault.specs.Reading.{is_section, reading_of, dead_at, error_at, options_of};
ghost use Rattle.fault.specs.private.Chunks.{octets_are_errors};
ghost use Rattle.fault.specs.private.Judged.{holds_rules};

use crate::bits::{bits_size, none_above};
use crate::places::{Places, places_of};
use crate::{Error, MOST, NAME};
use map::holds;
use octets::{lay, read1, read2, read4, run};
use refusal::Refusal;

// How many modules, errors and octets of options a section has, and its errors' name.
#[derive(Clone, Copy)]
pub struct Report {
    pub modules: u32,
    pub errors: u32,
    pub options: u32,
    pub name: [u8; NAME],
}

impl Report {
    // "24 for a fault section that breaks these rules", and nothing more.
    pub const REFUSED: Result<Report, Refusal> = Err(Refusal::Fault);
}

#[tactic(auto, using(crate::proofs::ReadingLaws::name_whole, crate::proofs::PlacesLaws::list_name, crate::proofs::PlacesLaws::list_from), unfolding(crate::specs::Reading::reading_of, crate::specs::Reading::report_of, crate::specs::Places::places_of))]
pub fn read_section(s: &[u8]) -> Result<Report, Refusal>
    ensures { result ≡ reading_of s.now }
{
    let p = places_of(s);
    if !is_judged(s, p) {
        return Report::REFUSED;
    }
    let name = name_at(s, p.list - NAME);
    Ok(Report {
        modules: p.modules,
        errors: p.errors,
        options: p.options,
        name,
    })
}

// Whether these are the octets of a section, from the first to the last.
pub fn is_section(s: &[u8]) -> bool
    ensures { result ≡ is_section s.now }
{
    is_judged(s, places_of(s))
}

// By its counts and places, which are read once.
#[tactic(auto, using(crate::proofs::ReadingLaws::section_by, crate::proofs::PlacesLaws::rest_few, crate::proofs::PlacesLaws::options_few), unfolding(crate::specs::Places::places_of, crate::specs::private::Judged::judged))]
fn is_judged(s: &[u8], p: Places) -> bool
    requires { p ≡ places_of s.now }
    ensures { result ≡ is_section s.now }
{
    if s.len() != p.rest + p.options as usize {
        return false;
    }
    holds_rules(s, p)
}

// Its length, its bits and its errors.
#[tactic(auto, using(crate::proofs::PlacesLaws::list_from, crate::proofs::ErrorsLaws::errors_read), unfolding(crate::specs::Places::places_of))]
fn holds_rules(s: &[u8], p: Places) -> bool
    requires { (p ≡ places_of s.now) × (p.rest ≤ length s.now) }
    ensures { result ≡ holds_rules s.now }
{
    if MOST < s.len() {
        return false;
    }
    if !none_above(p.modules, run(s, 4, p.list - 16)) {
        return false;
    }
    are_errors(run(s, p.list, 4 * p.errors as usize))
}

// Whether none of these errors, of four octets each, names the module 0.
fn are_errors(errors: &[u8]) -> bool
    ensures { result ≡ octets_are_errors errors.now }
{
    let (errors, _) = errors.as_chunks::<4>();
    errors.iter().all(|e| !((e[0] == 0) & (e[1] == 0)))
}

// The name from a place on; an octet past the end reads as 0.
pub fn name_at(s: &[u8], at: usize) -> [u8; NAME]
    ensures { result ≡ laid (replicate 8 0) 0 (run_of at 8 s.now) }
{
    let mut name = [0u8; NAME];
    lay(&mut name, 0, run(s, at, NAME));
    name
}

// Whether module x, from 1, is dead.
#[tactic(auto, using(octets::proofs::NumberLaws::number_one), unfolding(crate::specs::Reading::dead_at))]
pub fn is_dead(s: &[u8], x: u32) -> bool
    ensures { result ≡ dead_at s.now x }
{
    if x == 0 {
        return false;
    }
    let k = x - 1;
    if read4(s, 0) <= k {
        return false;
    }
    let octet = read1(s, 4 + (k / 8) as usize);
    holds(octet as u64, (k % 8) as u8 + 1)
}

// Error k, from 0. One past the count is 0, 0, and no Option: so 02 has it, and C.
#[tactic(auto, unfolding(crate::specs::Reading::error_at))]
pub fn error_at(s: &[u8], k: u32) -> Error
    ensures { result ≡ error_at s.now k }
{
    let size = bits_size(read4(s, 0));
    if read4(s, 4 + size) <= k {
        return Error::NONE;
    }
    let at = 16 + size + 4 * k as usize;
    Error {
        module: read2(s, at),
        error: read2(s, at + 2),
    }
}

#[tactic(auto, unfolding(crate::specs::Reading::options_of, crate::specs::Places::places_of))]
pub fn options(s: &[u8]) -> &[u8]
    ensures { result.now ≡ options_of s.now }
{
    let p = places_of(s);
    run(s, p.rest, p.options as usize)
}

// Where the options start.
#[tactic(auto, unfolding(crate::specs::Places::places_of))]
pub fn options_at(s: &[u8]) -> usize
    ensures { result ≡ count_at s.now + 4 }
{
    let p = places_of(s);
    p.rest
}
