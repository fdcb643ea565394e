// The calls on the state in use, by their tags: docs/EDGES.md, "The calls as fields".
//
// What is done with an answer stands apart from the call: a function that returns a state is the faster to prove the
// less it does.
use answers::Setup;
use edges_calls::message_lines;
use edges_fields::{address_in, groups_in, with_sender, with_settings};
use edges_lines::Field;
use edges_lines::calls::{call_line, clock_line};
use octets::{from, read1, read2, read4, read8};
use receiver::message::message;
use setup::setup;
use state::Receiver;
use std::array;

// The octets in front of the PDU of a message call: how many octets of storage are lent.
const PDU: usize = 4;

// Makes the call of a field, and returns the state that it leaves.
pub(crate) fn call(w: Receiver, storage: &mut [u8], field: Field) -> Receiver {
    match field.tag {
        b'S' | b's' => {
            // "Fills the storage … before"
            storage.fill(170);
            setup_call(field)
        }
        b'P' | b'p' => message_call(w, storage, field),
        _ => state_call(w, field),
    }
}

// What is called on the state alone.
fn state_call(w: Receiver, field: Field) -> Receiver {
    match field.tag {
        b'A' | b'a' => alive_call(w, field),
        b'C' | b'c' => clock_call(w, field),
        b't' => with_settings(w, field.contents),
        b'r' => with_sender(w, field.contents),
        _ => w,
    }
}

// ---- setup

fn setup_call(field: Field) -> Receiver {
    let started = setup(setup_in(field.contents));
    call_line(field.tag, started.call);
    started.state
}

fn setup_in(contents: &[u8]) -> Setup {
    Setup {
        mode: read1(contents, 0),
        n1: read2(contents, 1),
        t: read4(contents, 3),
        count: read1(contents, 7),
        senders: array::from_fn(|i| address_in(contents, 8 + 3 * i)),
        groups: groups_in(contents, 56),
    }
}

// ---- the message call

fn message_call(w: Receiver, storage: &mut [u8], field: Field) -> Receiver {
    let lent = read4(field.contents, 0) as usize;
    lent_call(
        w,
        front_mut(storage, lent),
        field.tag,
        from(field.contents, PDU),
    )
}

fn lent_call(w: Receiver, storage: &mut [u8], tag: u8, packet: &[u8]) -> Receiver {
    let a = message(w, storage, packet);
    message_lines(tag, a, storage, packet);
    a.state
}

// The first k octets of a slice, all of them where it has no more.
fn front_mut(s: &mut [u8], k: usize) -> &mut [u8] {
    if k < s.len() { &mut s[0..k] } else { s }
}

// ---- the others

fn alive_call(w: Receiver, field: Field) -> Receiver {
    let noted = alive::alive(w, field.contents);
    call_line(field.tag, noted.call);
    noted.state
}

fn clock_call(w: Receiver, field: Field) -> Receiver {
    let ticked = clock::clock(w, read8(field.contents, 0));
    clock_line(field.tag, ticked.call, ticked.dropped, ticked.dead);
    ticked.state
}
