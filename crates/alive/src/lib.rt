// The alive call: who is alive, and who says that it leaves. One function holds the state; it copies one sender's
// record out, and puts it back.
//
// It is total: it takes any state and any octets, and refuses those outside the limits.
#![tactic(auto)]

ghost use Rattle.std.specs.Prelude.{◌≡◌, not, [], ◌∷◌};
ghost use Rattle.refusal.specs.declared.Refusal.TheVariants as refusals;
ghost use Rattle.rules.specs.calls.Alive.{alive_head_within, alive_within, fault_within, signal_rows, alive_answer};
ghost use Rattle.rules.specs.calls.First.{row, checked};
ghost use Rattle.alive.specs.Heard.{heard_in};

use answers::Noted;
use fault::reading::is_section;
use header::codes::code_of;
use header::{Head, common_within, length_outside, read_head};
use octets::from;
use refusal::Refusal;
use signal::{Body, MOST, SIZE, group, read_body};
use state::{Address, Heard, Listened, Receiver};

pub fn alive(mut state: Receiver, packet: &[u8]) -> Noted
    ensures { result ≡ alive_answer state packet.now }
{
    let h = read_head(packet);
    let body = read_body(packet);
    let look = state.look(Address::of(h));
    let at = look.at;
    if let Err(refusal) = check_signal(look.valid, state.count, at, packet, h, body) {
        return Noted {
            call: Err(refusal),
            state,
        };
    }
    let s = state.senders[at as usize];
    let next = heard_by(s, state.clock, body);
    state.senders[at as usize] = next;
    Noted {
        call: Ok(()),
        state,
    }
}

// The first of 9, 12, 13, 14, 22 and 24 that applies.
pub fn check_signal(
    valid: bool,
    count: u8,
    at: u8,
    packet: &[u8],
    h: Head,
    body: Body,
) -> Result<(), Refusal>
    ensures { result ≡ checked (signal_rows valid count at packet.now h body) }
{
    let size = packet.len();
    if !valid {
        return Err(Refusal::State);
    }
    if length_outside(SIZE, MOST, size, h) {
        return Err(Refusal::Length);
    }
    if !head_within(packet, h) {
        return Err(Refusal::Header);
    }
    if count <= at {
        return Err(Refusal::Sender);
    }
    if !signal_within(size, h, body) {
        return Err(Refusal::Alive);
    }
    check_fault(packet)
}

fn check_fault(packet: &[u8]) -> Result<(), Refusal>
    ensures { result ≡ checked (row refusals.Fault (not (fault_within packet.now)) ∷ []) }
{
    if fault_within(packet) {
        Ok(())
    } else {
        Err(Refusal::Fault)
    }
}

// The fixed fields, PRI, MODE and the code; SEQ is not looked at.
fn head_within(packet: &[u8], h: Head) -> bool
    ensures { result ≡ alive_head_within packet.now h }
{
    let given = h.given;
    common_within(packet, h) & code_of(given.tcd).is_alive()
}

// ML, CBN, TBN, the group and the alive header.
fn signal_within(size: usize, h: Head, body: Body) -> bool
    ensures { result ≡ alive_within size h body }
{
    let cut = h.cut;
    let given = h.given;
    (cut.ml as usize == size)
        & (cut.cbn == 1)
        & (cut.tbn == 1)
        & (group(given.da) == 0)
        & body.within()
}

// What stands behind the first 128 octets: nothing, or a fault section to the PDU's end.
fn fault_within(packet: &[u8]) -> bool
    ensures { result ≡ fault_within packet.now }
{
    if packet.len() == SIZE {
        return true;
    }
    is_section(from(packet, SIZE))
}

// What is left of a sender that says that it is alive, or that it leaves.
pub fn heard_by<T: Listened>(x: T, clock: u64, body: Body) -> T
    ensures { result ≡ heard_in T.heard_as clock x body }
{
    if body.mode == 1 {
        let heard = Heard {
            stamp: clock,
            timeout: body.timeout,
        };
        return x.with_heard(true, heard);
    }
    x.with_heard(false, Heard::NONE)
}
