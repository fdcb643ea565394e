// The maintenance tally: "one record of the caller's, counted up where it stands", in a thin layer above the message
// call.
//
// `message` does nothing but call: the call is the receiver's, and the counting is `counted`, by value. Any record, any
// state, any storage and any octets may come.
#![tactic(auto)]

ghost use Rattle.std.specs.Prelude.{◌≡◌, ◌+◌, length};
ghost use Rattle.rules.specs.calls.Message.{message_answer, message_storage};
ghost use Rattle.tally.specs.Tally.{stopping, counted as counted_of};

use answers::{Answer, Outcome};
use state::Receiver;

#[derive(Clone, Copy)]
pub struct Tally {
    // stored (0) and delivered (1)
    pub answers: u32,
    pub refusals: u32,
}

impl Tally {
    // where each count stops
    pub const MOST: u32 = 4_294_967_295;

    // before the first call
    pub const NONE: Tally = Tally {
        answers: 0,
        refusals: 0,
    };
}

// A count that stops where a u32 does stops there.
const _: () = prove!(Tally::MOST == u32::MAX);

// The message call, and its answer counted.
pub fn message(tally: &mut Tally, state: Receiver, storage: &mut [u8], packet: &[u8]) -> Answer
    ensures answer { result ≡ message_answer state (length storage.old) packet.now }
    ensures stored { storage.new ≡ message_storage state storage.old packet.now }
    ensures tallied { tally.new ≡ counted_of tally.old result.outcome }
{
    let a = receiver::message::message(state, storage, packet);
    let outcome = a.outcome;
    *tally = counted(*tally, outcome);
    a
}

// "each stopping at 4,294,967,295": where a u32 stops.
pub fn one_more(count: u32) -> u32
    ensures { result ≡ stopping (count + 1) }
{
    count.saturating_add(1)
}

// "one count of answers 0 and 1, one of refusals"
pub fn counted(tally: Tally, outcome: Outcome) -> Tally
    ensures { result ≡ counted_of tally outcome }
{
    let answers = tally.answers;
    let refusals = tally.refusals;
    match outcome {
        Outcome::Refused { .. } => Tally {
            answers,
            refusals: one_more(refusals),
        },
        _ => Tally {
            answers: one_more(answers),
            refusals,
        },
    }
}
