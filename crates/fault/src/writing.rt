// A section written into a lent buffer. Nothing is stored before 23 and 24 are decided.
ghost use Rattle.std.specs.Prelude.{◌≡◌, true, ◌+◌, ◌*◌, ◌≤◌, ltb, length};
ghost use Rattle.octets.specs.Run.{laid};
ghost use Rattle.fault.specs.Section.{most_section, pairs_of, octets_of};
ghost use Rattle.fault.specs.Writing.{section_given, size_given, keeps_rules, writing_of, buffer_of};
ghost use Rattle.fault.specs.private.Chunks.{numbers_are_errors};
ghost use Rattle.fault.specs.private.Laid.{front_of, back_of};

use crate::bits::{bits_size, none_above};
use crate::{MOST, NAME};
use octets::{lay, write4};
use refusal::Refusal;

// Writes a section at the front of a buffer: so many modules with their bits, the errors as numbers two by two (module,
// error), their name, the options. Only this call takes all five, so they stay parameters.
#[tactic(auto, using(crate::proofs::WritingLaws::given_laid, crate::proofs::WritingLaws::keeps_facts), unfolding(crate::specs::Writing::writing_of, crate::specs::Writing::buffer_of))]
pub fn write_section(
    modules: u32,
    bits: &[u8],
    errors: &[u16],
    name: [u8; NAME],
    options: &[u8],
    buffer: &mut [u8],
) -> Result<u16, Refusal>
    ensures answer { result ≡ writing_of modules bits.now errors.now options.now (length buffer.old) }
    ensures written { buffer.new ≡ buffer_of modules bits.now errors.now name options.now buffer.old }
{
    let size = size_allowed(buffer.len(), modules, bits, errors, options)?;
    write_front(buffer, modules, bits, (errors.len() / 2) as u32, name);
    write_back(buffer, 16 + bits.len(), errors, options);
    Ok(size)
}

// The section's length, where it has room and keeps the rules.
#[tactic(auto, using(crate::proofs::WritingLaws::keeps_facts), unfolding(crate::specs::Writing::writing_of))]
fn size_allowed(
    room: usize,
    modules: u32,
    bits: &[u8],
    errors: &[u16],
    options: &[u8],
) -> Result<u16, Refusal>
    ensures { result ≡ writing_of modules bits.now errors.now options.now room }
{
    let size = bits_size(modules);
    if is_short(room, size, errors.len(), options.len()) {
        return Err(Refusal::Writing);
    }
    let size = 20 + size + 2 * errors.len() + options.len();
    if !keeps_rules(size, modules, bits, errors) {
        return Err(Refusal::Fault);
    }
    Ok(size as u16)
}

// Whether a section of 20 octets, so many of bits, two for each number and the options has no room. It is what is left that
// is counted down: the sum may be above the largest usize.
fn is_short(room: usize, bits: usize, numbers: usize, options: usize) -> bool
    ensures { result ≡ ltb room (20 + bits + 2 * numbers + options) }
{
    if room < 20 {
        return true;
    }
    let left = room - 20;
    if left < bits {
        return true;
    }
    let left = left - bits;
    if left / 2 < numbers {
        return true;
    }
    left - 2 * numbers < options
}

// Whether what is given is a section's parts, of so many octets in all.
#[tactic(auto, using(crate::proofs::WritingLaws::errors_two), unfolding(crate::specs::Writing::keeps_rules))]
fn keeps_rules(size: usize, modules: u32, bits: &[u8], errors: &[u16]) -> bool
    ensures { result ≡ keeps_rules size modules bits.now errors.now }
{
    if !((size <= MOST) & (bits.len() == bits_size(modules)) & (errors.len() % 2 == 0)) {
        return false;
    }
    if !none_above(modules, bits) {
        return false;
    }
    are_errors(errors)
}

// Whether no error names the module 0.
fn are_errors(numbers: &[u16]) -> bool
    ensures { result ≡ numbers_are_errors numbers.now }
{
    let (errors, _) = numbers.as_chunks::<2>();
    errors.iter().all(|e| e[0] != 0)
}

// What stands before the errors: their count and name too.
#[tactic(auto, using(crate::proofs::WritingLaws::front_laid))]
fn write_front(buffer: &mut [u8], modules: u32, bits: &[u8], errors: u32, name: [u8; NAME])
    requires { 16 + length bits.now ≤ length buffer.old }
    ensures { buffer.new ≡ laid buffer.old 0 (front_of modules bits.now errors name) }
{
    let n = bits.len();
    write4(buffer, 0, modules);
    lay(buffer, 4, bits);
    write4(buffer, 4 + n, errors);
    lay(buffer, 8 + n, &name);
}

// The errors, and what stands behind them.
#[tactic(auto, using(crate::proofs::WritingLaws::back_laid))]
fn write_back(buffer: &mut [u8], at: usize, errors: &[u16], options: &[u8])
    requires { (at + 2 * length errors.now + 4 + length options.now ≤ length buffer.old) × (length options.now ≤ most_section) }
    ensures { buffer.new ≡ laid buffer.old at (back_of errors.now options.now) }
{
    let count = at + 2 * errors.len();
    write_numbers(buffer, at, errors);
    write4(buffer, count, options.len() as u32);
    lay(buffer, count + 4, options);
}

// Octet by octet, which the compiler makes many at a time (over `numbers.iter().enumerate()` only from 20 errors on); a call
// for each number would be asked for its room each time.
#[tactic(auto, using(crate::proofs::WritingLaws::pairs_none, crate::proofs::WritingLaws::pairs_stored))]
fn write_numbers(s: &mut [u8], at: usize, numbers: &[u16])
    requires { at + 2 * length numbers.now ≤ length s.old }
    ensures { s.new ≡ laid s.old at (pairs_of numbers.now) }
{
    for i in 0..numbers.len() {
        let x = numbers[i];
        let place = at + 2 * i;
        s[place] = (x / 256) as u8;
        s[place + 1] = (x % 256) as u8;
    }
}
