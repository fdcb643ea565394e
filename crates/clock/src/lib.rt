// The clock call: the only one that moves time. It drops old messages and calls silent senders dead.
#![tactic(auto)]

ghost use Rattle.std.specs.Prelude.{◌≡◌, cond, ◌+◌, ◌-◌, ◌*◌, ◌^◌, ◌<◌, leb};
ghost use Rattle.rules.specs.calls.Clock.{drops as drops_at, dies as dies_at, aged as aged_at, clock_answer};
ghost use Rattle.state.specs.State.{senders_most, no_message, no_heard};

use answers::Ticked;
use refusal::Refusal;
use state::{Heard, Listened, Message, Receiver, Sender};

pub fn clock(mut state: Receiver, ms: u64) -> Ticked
    ensures { result ≡ clock_answer state ms }
{
    if !state.within() {
        return Ticked {
            call: Err(Refusal::State),
            dropped: 0,
            dead: 0,
            state,
        };
    }
    if (ms < state.clock) | (Receiver::CLOCK_MOST < ms) {
        return Ticked {
            call: Err(Refusal::Clock),
            dropped: 0,
            dead: 0,
            state,
        };
    }
    let t = state.t;
    let count = state.count;
    let mut dropped = 0;
    let mut dead = 0;
    for i in 0..count {
        let s = state.senders[i as usize];
        dropped = with_place(dropped, i, drops(s, t, ms));
        dead = with_place(dead, i, dies(s, ms));
        let next = aged(s, t, ms);
        state.senders[i as usize] = next;
    }
    state.clock = ms;
    Ticked {
        call: Ok(()),
        dropped,
        dead,
        state,
    }
}

// Whether the open message is T or more old.
fn drops(s: Sender, t: u32, ms: u64) -> bool
    ensures { result ≡ drops_at t ms s }
{
    s.open & old_in_ms(s.message.stamp, t as u64, ms)
}

// Whether the alive sender has been silent for al_tm_out seconds or more.
fn dies(s: Sender, ms: u64) -> bool
    ensures { result ≡ dies_at ms s }
{
    s.alive & old_in_seconds(s.heard.stamp, s.heard.timeout as u64, ms)
}

// How long ago a stamp is; 0 for a stamp that is not reached yet.
pub fn since(stamp: u64, ms: u64) -> u64
    ensures { result ≡ ms - stamp }
{
    ms.saturating_sub(stamp)
}

// Whether a stamp is that many ms old, or more.
pub fn old_in_ms(stamp: u64, age: u64, ms: u64) -> bool
    ensures { result ≡ leb age (ms - stamp) }
{
    since(stamp, ms) >= age
}

// Whether a stamp is that many seconds old, or more.
pub fn old_in_seconds(stamp: u64, age: u64, ms: u64) -> bool
    ensures { result ≡ leb (1000 * age) (ms - stamp) }
{
    since(stamp, ms) / 1_000 >= age
}

// The map, with the place i marked if something holds of the sender there.
fn with_place(map: u16, i: u8, here: bool) -> u16
    requires { (i < senders_most) × (map < 2 ^ i) }
    ensures { result ≡ map + cond here (2 ^ i) 0 }
{
    if here { map + (1u16 << i) } else { map }
}

// The record at that time.
fn aged(s: Sender, t: u32, ms: u64) -> Sender
    ensures { result ≡ aged_at t ms s }
{
    let drop = drops(s, t, ms);
    let die = dies(s, ms);
    let message = unless(drop, Message::NONE, s.message);
    let heard = unless(die, Heard::NONE, s.heard);
    let left = s.with_message(s.open & !drop, message);
    left.with_heard(s.alive & !die, heard)
}

// What there is, or the value of what is not there where it is gone.
pub fn unless<T: Copy>(gone: bool, none: T, x: T) -> T
    ensures { result ≡ cond gone none x }
{
    if gone { none } else { x }
}
