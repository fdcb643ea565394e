// A look at all words of a state in lent words: number 9, and a sender's place.
//
// Every public function is total: it takes any words, as many as there are. Which words are a state, and which state they
// are, is said by crate `words`; the limits are the state's own. 9 is judged for every packet, so the words are looked at
// where they stand, and no further than to the first that is outside its limits.
#![tactic(auto)]

ghost use Rattle.std.specs.Prelude.{◌≡◌, true, ◌&&◌};
ghost use Rattle.groups.specs.Groups.{groups_within};
ghost use Rattle.state.specs.Limits.{is_address, last_within, message_within};
ghost use Rattle.words.specs.Words.{word, groups_in, record_in, address_in, last_in, message_in};
ghost use Rattle.words_look.specs.Look.{is_held, place_in, look_in};
ghost use Rattle.words_look.specs.private.Tests.{each_setting, settings_fit, record_within, Sized, records_within, none_twice, alive_within, open_within, cut_within};

use cut::possible::several;
use header::codes::code_of;
use map::{held, is_partial};
use ring::M;
use state::{Address, Look, Receiver, fresh};
use words::{HALF, QUARTER, at, first_of, groups, places};

// ---- the whole state

// Number 9: whether the words are a state within its limits.
pub fn within(words: &[u64]) -> bool
    ensures { result ≡ is_held words.now }
{
    if words.len() != places::WORDS {
        return false;
    }
    if !settings_within(words) {
        return false;
    }
    let count = (at(words, places::COUNT) % 256) as u8;
    if !each_sender(words, count) {
        return false;
    }
    // one sender alone is no pair
    if count <= 1 {
        return true;
    }
    none_twice(words, count)
}

// The first of the first `count` places where the sender with this address stands; the count if none has it, which is what
// 14 asks.
pub fn place_of(words: &[u64], count: u8, a: Address) -> u8
    ensures { result ≡ place_in words.now a count }
{
    let wanted = a.key() as u64;
    for i in 0..count {
        if at(words, first_of(i)) == wanted {
            return i;
        }
    }
    count
}

// Number 9, and where it does not apply the place of the sender with this address.
pub fn look(words: &[u64], a: Address) -> Look
    ensures { result ≡ look_in words.now a }
{
    if !within(words) {
        return Look::OUTSIDE;
    }
    let count = (at(words, places::COUNT) % 256) as u8;
    Look {
        valid: true,
        at: place_of(words, count, a),
    }
}

// Of the states without senders only the empty one passes.
fn settings_within(words: &[u64]) -> bool
    ensures { result ≡ settings_fit words.now }
{
    if !each_setting(words) {
        return false;
    }
    if 0 < at(words, places::COUNT) {
        return true;
    }
    (at(words, places::TEST) != 1)
        & (at(words, places::N1) == 1)
        & (at(words, places::T) == 1)
        & (at(words, places::GROUP_COUNT) == 0)
}

// Each setting by itself.
fn each_setting(words: &[u64]) -> bool
    ensures { result ≡ each_setting words.now }
{
    let n1 = at(words, places::N1);
    let t = at(words, places::T);
    (at(words, places::TEST) <= 1)
        & (at(words, places::CLOCK) <= Receiver::CLOCK_MOST)
        & (at(words, places::COUNT) <= 16)
        & ((1 <= n1) & (n1 <= 1_024))
        & ((1 <= t) & (t <= 600_000))
        & groups_within(words)
}

fn groups_within(words: &[u64]) -> bool
    ensures { result ≡ groups_within (groups_in (word words.now 5) (word words.now 6)) }
{
    if 8 < at(words, places::GROUP_COUNT) {
        return false;
    }
    let groups = groups(words);
    groups.within()
}

// ---- all senders

fn each_sender(words: &[u64], count: u8) -> bool
    requires { Sized words.now count }
    ensures { result ≡ records_within words.now count }
{
    let clock = at(words, places::CLOCK);
    for i in 0..count {
        let first = first_of(i);
        let end = first + places::EACH;
        if !sender_within(&words[first..end], clock) {
            return false;
        }
    }
    true
}

// Whether no address stands twice. Each is within its limits, so it has a key that no place without one has.
fn none_twice(words: &[u64], count: u8) -> bool
    requires sized { Sized words.now count }
    requires count_value { records_within words.now count ≡ true }
    ensures { result ≡ none_twice words.now count }
{
    let mut seen = [0u32; Receiver::PLACES];
    for i in 0..count {
        let key = (at(words, first_of(i)) % HALF) as u32;
        if !fresh(&seen, key) {
            return false;
        }
        seen[i as usize] = key;
    }
    true
}

// ---- one sender's ten words

// Whether no word holds what its field can't, and the sender is within its limits.
fn sender_within(s: &[u64], clock: u64) -> bool
    ensures { result ≡ record_within clock (record_in s.now) }
{
    if !alive_within(s, clock) {
        return false;
    }
    if !address_within(at(s, places::ADDRESS)) {
        return false;
    }
    if !last_within(at(s, places::LAST)) {
        return false;
    }
    open_within(s, clock)
}

// Only of an alive sender it is looked at when it was heard.
fn alive_within(s: &[u64], clock: u64) -> bool
    ensures { result ≡ alive_within clock (record_in s.now) }
{
    let alive = at(s, places::ALIVE);
    if alive == 1 {
        return (at(s, places::TIMEOUT) < HALF) & (at(s, places::HEARD) <= clock);
    }
    alive == 0
}

fn address_within(w: u64) -> bool
    ensures { result ≡ is_address (address_in w) }
{
    let field = w / QUARTER;
    let node = w % QUARTER;
    (1 <= field) & (field <= 255) & ((1 <= node) & (node <= 4_095))
}

// Number 0 is the last where nothing was delivered yet, under version 0.
fn last_within(w: u64) -> bool
    ensures { result ≡ last_within (last_in w) }
{
    let number = w % HALF;
    ((1 <= number) & (number <= (M as u64))) | (w == 0)
}

// Only an open message is looked at.
fn open_within(s: &[u64], clock: u64) -> bool
    ensures { result ≡ open_within clock (record_in s.now) }
{
    let open = at(s, places::OPEN);
    if open == 1 {
        return message_within(s, clock);
    }
    open == 0
}

fn message_within(s: &[u64], clock: u64) -> bool
    ensures { result ≡ message_within clock (message_in (record_in s.now)) }
{
    if clock < at(s, places::STAMP) {
        return false;
    }
    let number = at(s, places::MESSAGE) % HALF;
    if !((1 <= number) & (number <= (M as u64))) {
        return false;
    }
    cut_within(at(s, places::CUT), at(s, places::MAP))
}

// The open message's code, its cut and its map, and how many pieces are held.
fn cut_within(cut: u64, map: u64) -> bool
    ensures { result ≡ cut_within cut map }
{
    let code = code_of((cut / (HALF * QUARTER)) as u16);
    if !code.is_user() {
        return false;
    }
    let tbn = (cut % 256) as u8;
    let n = (cut / HALF % QUARTER) as u32;
    let u = (cut / QUARTER % QUARTER) as u32;
    if !several(n, tbn, u) {
        return false;
    }
    if !is_partial(map, tbn) {
        return false;
    }
    (cut / 256 % 256) as u32 == held(map)
}
