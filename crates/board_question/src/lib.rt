// The question, of a state in lent words.
#![tactic(auto)]

ghost use Rattle.std.specs.Prelude.{◌≡◌};
ghost use Rattle.board.specs.Calls.{none_missing, question_for};

use board::Missing;
use map::lowest_missing;
use refusal::Refusal;
use words::places;

pub fn adp_question(state: &[u64]) -> Missing
    ensures { result ≡ question_for state.now }
{
    if !words_look::within(state) {
        return none_open(Refusal::State.number());
    }
    let count = (words::at(state, places::COUNT) % 256) as u8;
    for i in 0..count {
        let r = words::load(state, i);
        if r.open == 1 {
            return Missing {
                number: 0,
                open: true,
                sender: i,
                piece: lowest_missing(r.map) as u8,
            };
        }
    }
    none_open(0)
}

fn none_open(number: u8) -> Missing
    ensures { result ≡ none_missing number }
{
    Missing {
        number,
        open: false,
        sender: 0,
        piece: 0,
    }
}
