// How many pieces of a sender are held, of a state in lent words: for the maintenance page.
#![tactic(auto)]

ghost use Rattle.std.specs.Prelude.{◌≡◌};
ghost use Rattle.board.specs.Calls.{held_for};

use state::Receiver;
use words::places;

pub fn adp_held(state: &[u64], place: u8) -> u8
    ensures { result ≡ held_for state.now place }
{
    if words::at(state, places::COUNT) <= place as u64 {
        return 0;
    }
    if Receiver::PLACES <= place as usize {
        return 0;
    }
    let s = words::load(state, place).sender();
    let message = s.message;
    message.held
}
