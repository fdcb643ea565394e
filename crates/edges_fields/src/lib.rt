// What stands in the fields of docs/EDGES.md: an address, groups, and the values that damage puts into a state.
//
// Every public function is total: contents may be any octets, a number past their end is 0, and the values may be any.
#![tactic(auto)]

ghost use Rattle.std.specs.Prelude.{◌≡◌, ◌%◌, drop};
ghost use Rattle.octets.specs.Number.{number};
ghost use Rattle.state.specs.State.{senders_most};
ghost use Rattle.edges_fields.specs.Fields.{address_in, groups_in, with_settings, message_in, sender_in, damaged_sender};

use groups::{Group, Groups};
use header::codes::{DataField, Node};
use octets::{from, read1, read2, read4, read8};
use ring::{Number, Version};
use state::{Address, Heard, Last, Message, Receiver, Sender};
use std::array;

// The address from a place on; `capture_fields` has its own, since `state`, below both, reads no octets.
pub fn address_in(contents: &[u8], at: usize) -> Address
    ensures { result ≡ address_in (drop at contents.now) }
{
    let here = from(contents, at);
    Address {
        field: DataField(read1(here, 0)),
        node: Node(read2(here, 1)),
    }
}

// How many groups there are, and all eight places, from a place on.
pub fn groups_in(contents: &[u8], at: usize) -> Groups
    ensures { result ≡ groups_in (drop at contents.now) }
{
    let here = from(contents, at);
    Groups {
        count: read1(here, 0),
        list: array::from_fn(|i| Group(read1(here, 1 + i))),
    }
}

// ---- damage: values of a state become those of a field

pub fn with_settings(mut w: Receiver, contents: &[u8]) -> Receiver
    ensures { result ≡ with_settings w contents.now }
{
    w.test = read1(contents, 0) == 1;
    w.n1 = read2(contents, 1);
    w.t = read4(contents, 3);
    w.clock = read8(contents, 7);
    w.count = read1(contents, 15);
    w.groups = groups_in(contents, 16);
    w
}

pub fn with_sender(mut w: Receiver, contents: &[u8]) -> Receiver
    ensures { result ≡ damaged_sender w contents.now }
{
    w.senders[place_in(contents)] = sender_in(contents);
    w
}

fn place_in(contents: &[u8]) -> usize
    ensures { result ≡ number 1 contents.now 0 % senders_most }
{
    read1(contents, 0) as usize % Receiver::PLACES
}

fn sender_in(contents: &[u8]) -> Sender
    ensures { result ≡ sender_in contents.now }
{
    Sender {
        address: address_in(contents, 1),
        last: Last {
            version: Version(read4(contents, 4)),
            number: Number(read4(contents, 8)),
        },
        open: read1(contents, 12) == 1,
        message: message_in(contents),
        alive: read1(contents, 45) == 1,
        heard: Heard {
            stamp: read8(contents, 46),
            timeout: read4(contents, 54),
        },
    }
}

fn message_in(contents: &[u8]) -> Message
    ensures { result ≡ message_in contents.now }
{
    Message {
        version: Version(read4(contents, 13)),
        number: Number(read4(contents, 17)),
        tcd: read2(contents, 21),
        n: read2(contents, 23),
        tbn: read1(contents, 25),
        u: read2(contents, 26),
        map: read8(contents, 28),
        held: read1(contents, 36),
        stamp: read8(contents, 37),
    }
}
