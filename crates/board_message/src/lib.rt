// The message call on a state in lent words: one sender's words are loaded, handed to `sender`, and put back.
#![tactic(auto)]

ghost use Rattle.std.specs.Prelude.{◌≡◌, length};
ghost use Rattle.answers.specs.declared.Where.TheVariants.{Packet};
ghost use Rattle.answers.specs.Told.{where_told};
ghost use Rattle.refusal.specs.Numbers.{number_of};
ghost use Rattle.rules.specs.calls.First.{checked};
ghost use Rattle.rules.specs.calls.Message.{message_answer};
ghost use Rattle.words.specs.Words.{state_in, left_by};
ghost use Rattle.board.specs.Calls.{part_start, part_length, in_numbers, refused_with, message_for, storage_for};
ghost use Rattle.board_message.specs.private.Early.{early_rows};

use answers::{Dropped, Outcome, Where};
use board::Told;
use header::{SIZE, read_bsize, read_head};
use receiver::message::{MOST, check_packet, store, where_to};
use refusal::Refusal;
use sender::admit;
use state::{Address, Receiver};
use words::places;
use words_look::{place_of, within};

pub fn adp_message(state: &mut [u64], storage: &mut [u8], packet: &[u8]) -> Told
    ensures answer { result ≡ message_for state.old (length storage.old) packet.now }
    ensures left { state.new ≡ left_by state.old (message_answer (state_in state.old) (length storage.old) packet.now).state }
    ensures stored { storage.new ≡ storage_for state.old storage.old packet.now }
{
    if let Err(refusal) = check_early(state, storage.len(), packet) {
        return refused(refusal);
    }
    let h = read_head(packet);
    let count = (words::at(state, places::COUNT) % 256) as u8;
    let at = place_of(state, count, Address::of(h));
    if let Err(refusal) = check_packet(true, count, at, storage.len(), packet, h) {
        return refused(refusal);
    }
    let r = words::load(state, at);
    let test = words::at(state, places::TEST) == 1;
    let n1 = (words::at(state, places::N1) % 65_536) as u16;
    let clock = words::at(state, places::CLOCK);
    let a = admit(r.sender(), test, n1, clock, h);
    let outcome = a.outcome;
    if outcome.refusal().is_some() {
        return in_numbers(outcome, 0, Dropped::NONE, Where::Nothing, packet.len());
    }
    let next = a.sender;
    words::put(state, at, r.joined(next));
    store(storage, at, h, packet);
    let dropped = a.dropped;
    in_numbers(
        outcome,
        a.held,
        dropped,
        where_to(outcome, at, h),
        packet.len(),
    )
}

// The first of 9, 11 and 12 that applies. A header whose length is known is read without a test of each octet's
// place; `check_packet` asks for these once more, of which nothing is left in what it compiles to.
fn check_early(state: &[u64], room: usize, packet: &[u8]) -> Result<(), Refusal>
    ensures { result ≡ checked (early_rows state.now room packet.now) }
{
    if !within(state) {
        return Err(Refusal::State);
    }
    let count = (words::at(state, places::COUNT) % 256) as u8;
    if room != (count as usize) * Receiver::AREA {
        return Err(Refusal::Storage);
    }
    let size = packet.len();
    if (size < SIZE) | (MOST < size) | (size != read_bsize(packet) as usize) {
        return Err(Refusal::Length);
    }
    Ok(())
}

// "nothing more", of a refusal but `Refusal::Repeat`, which has an age
fn refused(refusal: Refusal) -> Told
    ensures { result ≡ refused_with (number_of refusal) }
{
    Told {
        number: refusal.number(),
        verdict: 0,
        held: 0,
        slice: 0,
        skipped: 0,
        age: 0,
        dropped_version: 0,
        dropped_number: 0,
        start: 0,
        length: 0,
    }
}

// An answer in numbers, of a packet of so many octets.
pub fn in_numbers(outcome: Outcome, held: u8, dropped: Dropped, lies: Where, size: usize) -> Told
    ensures { result ≡ in_numbers outcome held dropped lies size }
{
    Told {
        number: outcome.number(),
        verdict: outcome.verdict(),
        held,
        slice: slice_of(lies),
        skipped: outcome.skipped(),
        age: outcome.age(),
        dropped_version: dropped.version.0,
        dropped_number: dropped.number.0,
        start: start_of(lies),
        length: length_of(lies, size),
    }
}

fn slice_of(lies: Where) -> u8
    ensures { result ≡ (where_told lies).slice }
{
    match lies {
        Where::Nothing => 0,
        Where::Packet => 1,
        Where::Storage {
            start: _,
            length: _,
        } => 2,
    }
}

fn start_of(lies: Where) -> usize
    ensures { result ≡ part_start lies }
{
    match lies {
        Where::Nothing => 0,
        Where::Packet => SIZE,
        Where::Storage { start, length: _ } => start,
    }
}

fn length_of(lies: Where, size: usize) -> usize
    ensures { result ≡ part_length lies size }
{
    match lies {
        Where::Nothing => 0,
        Where::Packet => behind(size),
        Where::Storage { start: _, length } => length,
    }
}

// How many octets stand behind the header.
fn behind(size: usize) -> usize
    ensures { result ≡ part_length Packet size }
{
    if SIZE <= size { size - SIZE } else { 0 }
}
