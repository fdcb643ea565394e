// The multicast call on a state in lent words, which it only reads, and on the two lent tables.
#![tactic(auto)]

ghost use Rattle.std.specs.Prelude.{◌≡◌};
ghost use Rattle.board.specs.Calls.{multicast_for, tables_for};
ghost use Rattle.board_multicast.specs.private.Heard.{listener_in};
ghost use Rattle.multicast.specs.Lent.{tables};

use answers::{Dropped, Listener};
use board::Told;
use board_message::in_numbers;
use groups::Group;
use header::read_head;
use multicast::{handed, take};
use state::{Address, Look};
use words::places;
use words_look::look;

pub fn adp_multicast(
    state: &[u64],
    versions: &mut [u32],
    numbers: &mut [u32],
    group: u8,
    packet: &[u8],
) -> Told
    ensures answer { result ≡ multicast_for state.now (tables versions.old numbers.old) group packet.now }
    ensures versions { versions.new ≡ (tables_for state.now (tables versions.old numbers.old) group packet.now).versions }
    ensures numbers { numbers.new ≡ (tables_for state.now (tables versions.old numbers.old) group packet.now).numbers }
{
    let h = read_head(packet);
    let found = look(state, Address::of(h));
    let s = listener(state, found);
    let outcome = take(s, versions, numbers, Group(group), packet, h);
    in_numbers(outcome, 0, Dropped::NONE, handed(outcome), packet.len())
}

// What the call looks at, in the words of a state.
fn listener(state: &[u64], found: Look) -> Listener
    ensures { result ≡ listener_in state.now found }
{
    let groups = words::groups(state);
    Listener {
        valid: found.valid,
        test: words::at(state, places::TEST) == 1,
        n1: (words::at(state, places::N1) % 65_536) as u16,
        count: (words::at(state, places::COUNT) % 256) as u8,
        at: found.at,
        groups,
    }
}
