// What the counts in a section say, and where what they count stands.
ghost use Rattle.std.specs.Prelude.{◌≡◌};
ghost use Rattle.fault.specs.Places.{places_of};

use crate::bits::bits_size;
use octets::read4;

// Places are counted in 64 bits, so that no sum wraps whatever the counts are.
#[derive(Clone, Copy)]
pub struct Places {
    pub modules: u32,
    pub errors: u32,
    pub options: u32,
    // where the first error stands
    pub list: usize,
    // where the options start
    pub rest: usize,
}

#[tactic(auto, unfolding(crate::specs::Places::places_of))]
pub fn places_of(s: &[u8]) -> Places
    ensures { result ≡ places_of s.now }
{
    let modules = read4(s, 0);
    let size = bits_size(modules);
    let errors = read4(s, 4 + size);
    let list = 16 + size;
    let count = list + 4 * errors as usize;
    let options = read4(s, count);
    Places {
        modules,
        errors,
        options,
        list,
        rest: count + 4,
    }
}
