// What the programs of docs/EDGES.md print: lines of decimal numbers, and the sum that stands for many octets.
//
// No contract can say what is written, so a function that only prints has none: it answers nothing, and nothing is lent
// to it to write.
#![tactic(auto)]

ghost use Rattle.std.specs.Prelude.{◌≡◌};
ghost use Rattle.octets.specs.Number.{octets};
ghost use Rattle.edges_lines.specs.Sum.{with_octet, sum_from, sum_of, in_octets};

pub mod calls;
pub mod record;

use octets::{read1, write4};

// A field of docs/EDGES.md: the call's tag, and what the call is made of.
#[derive(Clone, Copy)]
pub struct Field<'a> {
    pub tag: u8,
    pub contents: &'a [u8],
}

// "the title stands there as on this page"
pub fn title(octets: &[u8]) {
    io::write_all(1, b"# ");
    io::write_all(1, octets);
    io::write_all(1, b"\n");
}

// A letter and numbers, one blank between.
pub fn line(letter: u8, numbers: &[u64]) {
    words(letter, numbers);
    io::write_all(1, b"\n");
}

// The same, and behind them eight octets.
pub fn line_with_eight(letter: u8, numbers: &[u64], octets: &[u8]) {
    words(letter, numbers);
    octet_words(octets, 8);
    io::write_all(1, b"\n");
}

fn words(letter: u8, numbers: &[u64]) {
    io::write_all(1, &[letter]);
    for n in numbers {
        io::write_all(1, b" ");
        io::print_decimal(1, *n);
    }
}

// The same, of the first 64 octets.
pub fn octets_line(letter: u8, octets: &[u8]) {
    io::write_all(1, &[letter]);
    octet_words(octets, 64);
    io::write_all(1, b"\n");
}

// The first k octets; one that is not there is 0.
fn octet_words(octets: &[u8], k: usize) {
    for place in 0..k {
        octet_word(read1(octets, place));
    }
}

fn octet_word(octet: u8) {
    io::write_all(1, b" ");
    io::print_decimal(1, octet as u64);
}

pub fn sum(octets: &[u8]) -> u64
    ensures { result ≡ sum_of octets.now }
{
    sum_from(7, octets)
}

// "each entry as four octets, high octet first"
pub fn sum_of_numbers(numbers: &[u32]) -> u64
    ensures { result ≡ sum_of (in_octets numbers.now) }
{
    numbers.iter().fold(7, |s, n| with_number(s, *n))
}

// The sum that goes on from another.
fn sum_from(start: u64, octets: &[u8]) -> u64
    ensures { result ≡ sum_from start octets.now }
{
    octets.iter().fold(start, |s, octet| with_octet(s, *octet))
}

fn with_number(s: u64, number: u32) -> u64
    ensures { result ≡ sum_from s (octets 4 number) }
{
    let mut four = [0u8; 4];
    write4(&mut four, 0, number);
    sum_from(s, &four)
}

// The first remainder alters nothing; it keeps the product within 64 bits.
#[tactic(auto, unfolding(crate::specs::Sum::with_octet))]
fn with_octet(s: u64, octet: u8) -> u64
    ensures { result ≡ with_octet s octet }
{
    (31 * (s % 4_294_967_296) + octet as u64) % 4_294_967_296
}
