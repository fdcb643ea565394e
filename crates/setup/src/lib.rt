// Setup: the state that a node starts with.
#![tactic(auto)]

ghost use Rattle.std.specs.Prelude.{◌≡◌, true, cond, ◌≤◌};
ghost use Rattle.rules.specs.calls.Setup.{setup_within, setup_state, setup_answer};
ghost use Rattle.setup.specs.private.Settled.{settled as settled_by};
ghost use Rattle.state.specs.State.{senders_most, empty_receiver};

use answers::{Setup, Started};
use refusal::Refusal;
use state::{Address, Receiver, Sender};

pub fn setup(q: Setup) -> Started
    ensures { result ≡ setup_answer q }
{
    let within = setup_within(q);
    let state = new_state(q, within);
    if !within {
        return Started {
            call: Err(Refusal::Setup),
            state,
        };
    }
    Started {
        call: Ok(()),
        state,
    }
}

fn setup_within(q: Setup) -> bool
    ensures { result ≡ setup_within q }
{
    let senders = q.senders;
    let groups = q.groups;
    (q.mode <= 1)
        & ((1 <= q.n1) & (q.n1 <= Receiver::N1_MOST))
        & ((1 <= q.t) & (q.t <= Receiver::DROP_TIME_MOST))
        & groups.within()
        & ((1 <= q.count) & (q.count as usize <= Receiver::PLACES))
        & Address::all_within(senders, q.count)
}

// The empty state, or for a setup within its limits one with its settings.
fn settled(q: Setup, within: bool) -> Receiver
    ensures { result ≡ settled_by q within }
{
    let mut state = Receiver::empty();
    if !within {
        return state;
    }
    state.test = q.mode == 1;
    state.n1 = q.n1;
    state.t = q.t;
    state.count = q.count;
    let groups = q.groups;
    let kept = groups.kept();
    state.groups = kept;
    state
}

// Both answers' states come out of one loop: a state that is built in two places is copied field by field wherever it
// goes.
fn new_state(q: Setup, within: bool) -> Receiver
    requires { within ≡ true → q.count ≤ senders_most }
    ensures { result ≡ cond within (setup_state q) empty_receiver }
{
    let mut state = settled(q, within);
    let count = state.count;
    let addresses = q.senders;
    for i in 0..count {
        let a = addresses[i as usize];
        let s = Sender::new(a);
        state.senders[i as usize] = s;
    }
    state
}
