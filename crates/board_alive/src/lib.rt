// The alive call on a state in lent words: one sender's words are loaded, changed and put back.
#![tactic(auto)]

ghost use Rattle.std.specs.Prelude.{◌≡◌};
ghost use Rattle.rules.specs.calls.Alive.{alive_answer};
ghost use Rattle.words.specs.Words.{state_in, left_by};
ghost use Rattle.board.specs.Calls.{alive_for};

use alive::{check_signal, heard_by};
use header::read_head;
use signal::read_body;
use state::Address;
use words::places;

pub fn adp_alive(state: &mut [u64], packet: &[u8]) -> u8
    ensures answer { result ≡ alive_for state.old packet.now }
    ensures left { state.new ≡ left_by state.old (alive_answer (state_in state.old) packet.now).state }
{
    let h = read_head(packet);
    let body = read_body(packet);
    let look = words_look::look(state, Address::of(h));
    let at = look.at;
    let count = (words::at(state, places::COUNT) % 256) as u8;
    if let Err(refusal) = check_signal(look.valid, count, at, packet, h, body) {
        return refusal.number();
    }
    let r = words::load(state, at);
    let clock = words::at(state, places::CLOCK);
    words::put(state, at, heard_by(r, clock, body));
    0
}
