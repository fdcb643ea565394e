// Cutting the next tagged field out of the octets at hand, and what its contents say.
//
// Every public function is total: it takes any octets.
#![tactic(auto)]

ghost use Rattle.std.specs.Prelude.{◌≡◌, ◌≤◌};
ghost use Rattle.capture_fields.specs.Field.{kind_of, next_of, contents_of, setup_of, sender_in, address_in, senders_of, clock_of};

use answers::Setup;
use groups::Groups;
use header::codes::{DataField, Node};
use octets::{read1, read2, read4, read8, run};
use state::Address;
use std::array;

// The octets in front of a field's contents: its tag and its length.
pub const HEAD: usize = 3;

// What a field is for, by its tag.
#[derive(Clone, Copy, PartialEq, Eq, Debug)]
pub enum Kind {
    Setup = 1,
    Message = 2,
    Clock = 3,
    Alive = 4,
}

// A field of which no octet is missing: what it is for, and how many octets of contents it has.
#[derive(Clone, Copy, PartialEq, Eq, Debug)]
pub struct Whole {
    pub kind: Kind,
    pub size: usize,
}

// "A bad or cut field ends the run": why the field at the front is not read.
#[derive(Clone, Copy, PartialEq, Eq, Debug)]
pub enum Unread {
    // octets of the field are missing
    Cut,
    Bad,
}

// No kind: such a field is bad.
#[tactic(auto, unfolding(crate::specs::Field::kind_of))]
pub fn kind_of(tag: u8, size: usize) -> Option<Kind>
    ensures { result ≡ kind_of tag size }
{
    match (tag, size) {
        (1, 10 | 13 | 16 | 19) => Some(Kind::Setup),
        (2, _) => Some(Kind::Message),
        (3, 8) => Some(Kind::Clock),
        (4, _) => Some(Kind::Alive),
        _ => None,
    }
}

// What stands at the front of the octets at hand; nothing where no octet is left.
#[tactic(auto, unfolding(crate::specs::Field::next_of))]
pub fn next_field(octets: &[u8]) -> Result<Option<Whole>, Unread>
    ensures { result ≡ next_of octets.now }
{
    if octets.is_empty() {
        return Ok(None);
    }
    if octets.len() < HEAD {
        return Err(Unread::Cut);
    }
    let size = read2(octets, 1) as usize;
    let kind = kind_of(read1(octets, 0), size).ok_or(Unread::Bad)?;
    if octets.len() - HEAD < size {
        return Err(Unread::Cut);
    }
    Ok(Some(Whole { kind, size }))
}

// The contents of the field at the front, of this many octets; of a field that is cut, those that are there.
pub fn contents(octets: &[u8], size: usize) -> &[u8]
    ensures { result.now ≡ contents_of octets.now size }
{
    run(octets, HEAD, size)
}

// ---- the contents of a setup and of a clock

pub fn setup_of(contents: &[u8]) -> Setup
    ensures { result ≡ setup_of contents.now }
{
    Setup {
        mode: read1(contents, 0),
        n1: read2(contents, 1),
        t: read4(contents, 3),
        count: senders_of(contents.len()),
        senders: array::from_fn(|i| sender_in(contents, i)),
        groups: Groups::NONE,
    }
}

// How many senders a setup of this many octets has.
#[tactic(auto, unfolding(crate::specs::Field::senders_of))]
fn senders_of(size: usize) -> u8
    ensures { result ≡ senders_of size }
{
    match size {
        10 => 1,
        13 => 2,
        16 => 3,
        19 => 4,
        _ => 0,
    }
}

// A setup has room for four senders.
fn sender_in(contents: &[u8], place: usize) -> Address
    ensures { result ≡ sender_in contents.now place }
{
    if place < 4 {
        address_in(contents, 7 + 3 * place)
    } else {
        Address::NONE
    }
}

// As in `edges_fields`: of what stands below both only `state` has addresses, and it reads no octets.
fn address_in(contents: &[u8], at: usize) -> Address
    requires { at ≤ 16 }
    ensures { result ≡ address_in contents.now at }
{
    Address {
        field: DataField(read1(contents, at)),
        node: Node(read2(contents, at + 1)),
    }
}

pub fn clock_of(contents: &[u8]) -> u64
    ensures { result ≡ clock_of contents.now }
{
    read8(contents, 0)
}
