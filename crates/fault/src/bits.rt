// The modules' bits: eight to an octet, lowest first, in whole words of 32.
ghost use Rattle.std.specs.Prelude.{◌≡◌, eqb};
ghost use Rattle.std.specs.List.{list_all};
ghost use Rattle.fault.specs.Section.{bits_size};
ghost use Rattle.fault.specs.Bits.{none_above};

use octets::from;

// L: the octets that so many modules' bits stand in. No sum wraps: a usize has 64 bits.
pub fn bits_size(modules: u32) -> usize
    ensures { result ≡ bits_size modules }
{
    (modules as usize + 31) / 32 * 4
}

// Whether no bit above the count is set. Octets that are full of modules have no such bit, and are not looked at.
#[tactic(auto, using(crate::proofs::BitsLaws::none_behind))]
pub fn none_above(modules: u32, bits: &[u8]) -> bool
    ensures { result ≡ none_above modules bits.now }
{
    match from(bits, (modules / 8) as usize).split_first() {
        None => true,
        Some((first, behind)) => first >> (modules % 8) == 0 && are_zero(behind),
    }
}

fn are_zero(octets: &[u8]) -> bool
    ensures { result ≡ list_all (λ o. eqb o 0) octets.now }
{
    octets.iter().all(|o| *o == 0)
}
