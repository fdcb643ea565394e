// The message call, its answer counted in two words of the caller's: answers of 0 and 1, and refusals.
#![tactic(auto)]

ghost use Rattle.std.specs.Prelude.{◌≡◌, length};
ghost use Rattle.rules.specs.calls.Message.{message_answer};
ghost use Rattle.words.specs.Words.{state_in, left_by};
ghost use Rattle.board.specs.Calls.{message_for, storage_for, tally_for};

use board::Told;
use board_message::adp_message;
use tally::one_more;

pub fn adp_message_tallied(
    state: &mut [u64],
    storage: &mut [u8],
    packet: &[u8],
    tally: &mut [u32; 2],
) -> Told
    ensures answer { result ≡ message_for state.old (length storage.old) packet.now }
    ensures left { state.new ≡ left_by state.old (message_answer (state_in state.old) (length storage.old) packet.now).state }
    ensures stored { storage.new ≡ storage_for state.old storage.old packet.now }
    ensures tallied { tally.new ≡ tally_for tally.old state.old (length storage.old) packet.now }
{
    let r = adp_message(state, storage, packet);
    if r.number <= 1 {
        tally[0] = one_more(tally[0]);
    } else {
        tally[1] = one_more(tally[1]);
    }
    r
}
