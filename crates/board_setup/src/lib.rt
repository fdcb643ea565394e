// Setup, into lent words.
#![tactic(auto)]

ghost use Rattle.std.specs.Prelude.{◌≡◌, ◌++◌, length, drop};
ghost use Rattle.words.specs.Words.{words_most, before, settings_words, words_of};
ghost use Rattle.board.specs.Calls.{setup_for, setup_words};

use answers::Setup;
use refusal::{Refusal, number_in};
use state::Receiver;
use words::{Record, groups_word, places};

// Words past the senders are written 0. Other than as many words as a state has are outside setup's limits, and stay.
pub fn adp_setup(state: &mut [u64], settings: Setup) -> u8
    ensures answer { result ≡ setup_for state.old settings }
    ensures left { state.new ≡ setup_words state.old settings }
{
    if state.len() != places::WORDS {
        return Refusal::Setup.number();
    }
    let started = setup::setup(settings);
    let call = started.call;
    let new = started.state;
    write(state, new);
    number_in(call)
}

// Writes a whole state, its settings and all 16 places.
fn write(words: &mut [u64], state: Receiver)
    requires { length words.old ≡ words_most }
    ensures { words.new ≡ words_of state }
{
    write_settings(words, state);
    for i in 0..Receiver::PLACES as u8 {
        let s = state.senders[i as usize];
        words::put(words, i, Record::of(s));
    }
}

fn write_settings(words: &mut [u64], state: Receiver)
    requires { length words.old ≡ words_most }
    ensures { words.new ≡ settings_words state ++ drop before words.old }
{
    words[places::TEST] = state.test as u64;
    words[places::N1] = state.n1 as u64;
    words[places::T] = state.t as u64;
    words[places::CLOCK] = state.clock;
    words[places::COUNT] = state.count as u64;
    let groups = state.groups;
    words[places::GROUP_COUNT] = groups.count as u64;
    words[places::GROUPS] = groups_word(groups);
}
