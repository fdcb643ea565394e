// Numbers of 1, 2, 4 and 8 octets in lent slices, the high octet first, and a run of octets taken from one or laid down
// in one.
//
// Every function is total. An octet past the end of a slice reads as 0. What would reach past the end is not laid
// down at all, and the slice stays as it is. Nothing here knows of ADP.
#![tactic(auto)]

ghost use Rattle.std.specs.Prelude.{◌≡◌, ◌+◌, leb, drop, get_or, set as set_at};
ghost use Rattle.octets.specs.Number.{number, octets};
ghost use Rattle.octets.specs.Run.{run as run_of, laid};

use std::array::from_fn;

// ---- reading

#[tactic(auto, using(crate::proofs::NumberLaws::number_one))]
pub fn read1(s: &[u8], at: usize) -> u8
    ensures { result ≡ number 1 s.now at }
{
    s.get(at).copied().unwrap_or(0)
}

pub fn read2(s: &[u8], at: usize) -> u16
    ensures { result ≡ number 2 s.now at }
{
    u16::from_be_bytes(array(s, at))
}

pub fn read4(s: &[u8], at: usize) -> u32
    ensures { result ≡ number 4 s.now at }
{
    u32::from_be_bytes(array(s, at))
}

pub fn read8(s: &[u8], at: usize) -> u64
    ensures { result ≡ number 8 s.now at }
{
    u64::from_be_bytes(array(s, at))
}

// The W octets from a place on, 0 for each past the end.
fn array<const W: usize>(s: &[u8], at: usize) -> [u8; W]
    ensures { number W result 0 ≡ number W s.now at }
{
    let part = from(s, at);
    match part.first_chunk() {
        Some(whole) => *whole,
        None => from_fn(|i| read1(part, i)),
    }
}

// The part of a slice from a place on, empty past its end, so that no place is counted past the largest usize.
pub fn from(s: &[u8], at: usize) -> &[u8]
    ensures { result.now ≡ drop at s.now }
{
    s.get(at..).unwrap_or(&[])
}

// The n octets from a place on, as far as there are so many.
#[tactic(auto, unfolding(crate::specs::Run::run))]
pub fn run(s: &[u8], at: usize, n: usize) -> &[u8]
    ensures { result.now ≡ run_of at n s.now }
{
    let rest = from(s, at);
    rest.get(..n).unwrap_or(rest)
}

// ---- one element of any slice

// The element at a place, `none` past the end.
pub fn at<T: Copy>(s: &[T], k: usize, none: T) -> T
    ensures { result ≡ get_or s.now k none }
{
    s.get(k).copied().unwrap_or(none)
}

// Puts an element down at a place, if there is one.
pub fn put<T: Copy>(s: &mut [T], k: usize, x: T)
    ensures { s.new ≡ set_at s.old k x }
{
    if k < s.len() {
        s[k] = x;
    }
}

// ---- writing

// Lays a run down at a place, if it ends within the slice.
pub fn lay(s: &mut [u8], at: usize, run: &[u8])
    ensures { s.new ≡ laid s.old at run.now }
{
    let n = run.len();
    // so that no call is left of an empty run
    if n == 0 {
        return;
    }
    if ends_within(s.len(), at, n) {
        s[at..at + n].copy_from_slice(run);
    }
}

// The same for a slice that is slow memory: each octet is stored once, in rising order, and none is read, which a
// memmove need not do. No contract says that; bench/stores shows it.
pub fn lay_once(s: &mut [u8], at: usize, run: &[u8])
    ensures { s.new ≡ laid s.old at run.now }
{
    if ends_within(s.len(), at, run.len()) {
        for (i, x) in run.iter().enumerate() {
            s[at + i] = *x;
        }
    }
}

// Whether n octets from a place on end within the room.
fn ends_within(room: usize, at: usize, n: usize) -> bool
    ensures { result ≡ leb (at + n) room }
{
    (n <= room) && (at <= room - n)
}

#[tactic(auto, using(crate::proofs::NumberLaws::octets_one))]
pub fn write1(s: &mut [u8], at: usize, octet: u8)
    ensures { s.new ≡ laid s.old at (octets 1 octet) }
{
    lay(s, at, &octet.to_be_bytes());
}

pub fn write2(s: &mut [u8], at: usize, x: u16)
    ensures { s.new ≡ laid s.old at (octets 2 x) }
{
    lay(s, at, &x.to_be_bytes());
}

pub fn write4(s: &mut [u8], at: usize, word: u32)
    ensures { s.new ≡ laid s.old at (octets 4 word) }
{
    lay(s, at, &word.to_be_bytes());
}
