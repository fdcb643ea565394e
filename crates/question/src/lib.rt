// The question: of the first sender in table order with an open message, which piece is its lowest missing one?
#![tactic(auto)]

ghost use Rattle.std.specs.Prelude.{◌≡◌};
ghost use Rattle.rules.specs.calls.Question.{pieces_of, question_answer};

use answers::MissingPiece;
use map::holds;
use refusal::Refusal;
use state::{Receiver, Sender};

pub fn question(state: Receiver) -> Result<Option<MissingPiece>, Refusal>
    ensures { result ≡ question_answer state }
{
    if !state.within() {
        return Err(Refusal::State);
    }
    let count = state.count;
    let mut missing = None;
    'senders: for i in 0..count {
        let s = state.senders[i as usize];
        for k in 0..pieces_of(s) {
            let piece = k + 1;
            if !holds(s.message.map, piece) {
                missing = Some(MissingPiece { sender: i, piece });
                break 'senders;
            }
        }
    }
    Ok(missing)
}

// How many pieces there are to look for.
fn pieces_of(s: Sender) -> u8
    ensures { result ≡ pieces_of s }
{
    if s.open { s.message.tbn } else { 0 }
}
