// The message call. One function holds the state: it finds the sender's place, copies that one record out, and puts it
// back.
ghost use Rattle.std.specs.Prelude.{◌≡◌, length};
ghost use Rattle.rules.specs.calls.First.{checked};
ghost use Rattle.rules.specs.calls.Message.{packet_rows, head_within, storage_after, lies_at, where_by, message_answer, message_storage};

use answers::{Answer, Dropped, Outcome, Where};
use cut::possible::{message_length, own_length, own_place};
use header::codes::code_of;
use header::{Head, SIZE, common_within, length_outside, read_head};
use octets::{lay, run};
use refusal::Refusal;
use sender::admit;
use state::{Address, Receiver};

// The most octets of a message's PDU.
pub const MOST: usize = 1_460;

pub fn message(mut state: Receiver, storage: &mut [u8], packet: &[u8]) -> Answer
    ensures answer { result ≡ message_answer state (length storage.old) packet.now }
    ensures stored { storage.new ≡ message_storage state storage.old packet.now }
{
    let h = read_head(packet);
    let look = state.look(Address::of(h));
    let at = look.at;
    if let Err(refusal) = check_packet(look.valid, state.count, at, storage.len(), packet, h) {
        return Answer {
            outcome: Outcome::Refused { refusal, age: 0 },
            held: 0,
            dropped: Dropped::NONE,
            lies: Where::Nothing,
            state,
        };
    }
    let s = state.senders[at as usize];
    let a = admit(s, state.test, state.n1, state.clock, h);
    let outcome = a.outcome;
    if outcome.refusal().is_some() {
        return Answer {
            outcome,
            held: 0,
            dropped: Dropped::NONE,
            lies: Where::Nothing,
            state,
        };
    }
    store(storage, at, h, packet);
    let dropped = a.dropped;
    let next = a.sender;
    let to = where_to(outcome, at, h);
    state.senders[at as usize] = next;
    Answer {
        outcome,
        held: a.held,
        dropped,
        lies: to,
        state,
    }
}

// The first of 9 and 11 to 14 that applies.
pub fn check_packet(
    valid: bool,
    count: u8,
    at: u8,
    room: usize,
    packet: &[u8],
    h: Head,
) -> Result<(), Refusal>
    ensures { result ≡ checked (packet_rows valid count at room packet.now h) }
{
    let size = packet.len();
    if !valid {
        return Err(Refusal::State);
    }
    if room != (count as usize) * Receiver::AREA {
        return Err(Refusal::Storage);
    }
    if length_outside(SIZE, MOST, size, h) {
        return Err(Refusal::Length);
    }
    if !head_within(packet, h) {
        return Err(Refusal::Header);
    }
    if count <= at {
        Err(Refusal::Sender)
    } else {
        Ok(())
    }
}

// The fixed fields, PRI, MODE, the code and SEQ.
pub fn head_within(packet: &[u8], h: Head) -> bool
    ensures { result ≡ head_within packet.now h }
{
    let given = h.given;
    let number = given.number;
    common_within(packet, h) & code_of(given.tcd).is_user() & number.within()
}

// Where the message lies, if it was delivered.
pub fn where_to(o: Outcome, at: u8, h: Head) -> Where
    ensures { result ≡ where_by o at h }
{
    match o {
        Outcome::Delivered(_) => lies(at, h),
        _ => Where::Nothing,
    }
}

// A message of one piece lies behind its header, one of several at the start of its sender's area.
fn lies(at: u8, h: Head) -> Where
    ensures { result ≡ lies_at at h }
{
    let cut = h.cut;
    if cut.tbn == 1 {
        return Where::Packet;
    }
    Where::Storage {
        start: (at as usize) * Receiver::AREA,
        length: message_length(cut) as usize,
    }
}

// Lays a piece of several down in its sender's area.
pub fn store(storage: &mut [u8], at: u8, h: Head, packet: &[u8])
    ensures { storage.new ≡ storage_after storage.old at h packet.now }
{
    let cut = h.cut;
    if cut.tbn != 1 {
        let start = (at as usize) * Receiver::AREA + own_place(cut) as usize;
        lay(storage, start, run(packet, SIZE, own_length(cut) as usize));
    }
}
