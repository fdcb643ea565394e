// The clock call on a state in lent words: each sender's words are loaded, aged and put back.
#![tactic(auto)]

ghost use Rattle.std.specs.Prelude.{◌≡◌, cond, ◌+◌, ◌<◌};
ghost use Rattle.map.specs.Map.{marked as marked_of};
ghost use Rattle.refusal.specs.Numbers.{number_of};
ghost use Rattle.rules.specs.calls.Clock.{clock_answer, drops as drops_at, dies as dies_at};
ghost use Rattle.state.specs.State.{senders_most};
ghost use Rattle.words.specs.Words.{sender_of, state_in, left_by};
ghost use Rattle.board.specs.Calls.{not_ticked, clock_for};
ghost use Rattle.board_clock.specs.private.Aged.{aged_by};

use board::Ticked;
use clock::{old_in_ms, old_in_seconds, unless};
use map::marked;
use refusal::Refusal;
use state::Receiver;
use words::{Record, places};

pub fn adp_clock(state: &mut [u64], ms: u64) -> Ticked
    ensures answer { result ≡ clock_for state.old ms }
    ensures left { state.new ≡ left_by state.old (clock_answer (state_in state.old) ms).state }
{
    if !words_look::within(state) {
        return refused(Refusal::State);
    }
    if (ms < words::at(state, places::CLOCK)) | (Receiver::CLOCK_MOST < ms) {
        return refused(Refusal::Clock);
    }
    let t = words::at(state, places::T);
    let count = (words::at(state, places::COUNT) % 256) as u8;
    let mut dropped: u64 = 0;
    let mut dead: u64 = 0;
    for i in 0..count {
        let r = words::load(state, i);
        let drop = drops(r, t, ms);
        let die = dies(r, ms);
        words::put(state, i, aged(r, drop, die));
        dropped = with_place(dropped, i, drop);
        dead = with_place(dead, i, die);
    }
    words::set(state, places::CLOCK, ms);
    Ticked {
        number: 0,
        dropped: dropped as u16,
        dead: dead as u16,
    }
}

fn refused(refusal: Refusal) -> Ticked
    ensures { result ≡ not_ticked (number_of refusal) }
{
    Ticked {
        number: refusal.number(),
        dropped: 0,
        dead: 0,
    }
}

// Whether the open message is T or more old.
fn drops(r: Record, t: u64, ms: u64) -> bool
    ensures { result ≡ drops_at t ms (sender_of r) }
{
    (r.open == 1) & old_in_ms(r.stamp, t, ms)
}

// Whether the alive sender has been silent for al_tm_out seconds or more.
fn dies(r: Record, ms: u64) -> bool
    ensures { result ≡ dies_at ms (sender_of r) }
{
    (r.alive == 1) & old_in_seconds(r.heard, r.timeout, ms)
}

// The map, with the place i marked if something holds of the sender there. Crate clock has its like over the 16 bits of
// its answer, where a place is free: one over both would be no plainer.
fn with_place(map: u64, i: u8, here: bool) -> u64
    requires { i < senders_most }
    ensures { result ≡ cond here (marked_of map (i + 1)) map }
{
    if here {
        return marked(map, i + 1);
    }
    map
}

// The words at that time.
fn aged(r: Record, drop: bool, die: bool) -> Record
    ensures { result ≡ aged_by r drop die }
{
    Record {
        address: r.address,
        last: r.last,
        open: unless(drop, 0, r.open),
        message: unless(drop, 0, r.message),
        cut: unless(drop, 0, r.cut),
        map: unless(drop, 0, r.map),
        stamp: unless(drop, 0, r.stamp),
        alive: unless(die, 0, r.alive),
        heard: unless(die, 0, r.heard),
        timeout: unless(die, 0, r.timeout),
    }
}
