// The lines of the calls: what is printed of each answer. A call's tag is the letter of its line, and a small one
// prints nothing.
use crate::{line, sum};
use answers::{Asked, Dropped, MissingPiece, Outcome};
use map::lowest_missing;
use octets::{from, run};
use refusal::{Refusal, number_in};
use state::Receiver;

// "the small one makes the same call and prints nothing"
fn told(tag: u8, numbers: &[u64]) {
    if tag < b'a' {
        line(tag, numbers);
    }
}

pub fn call_line(tag: u8, call: Result<(), Refusal>) {
    told(tag, &[number_in(call) as u64]);
}

pub fn clock_line(tag: u8, call: Result<(), Refusal>, dropped: u16, dead: u16) {
    told(tag, &[number_in(call) as u64, dropped as u64, dead as u64]);
}

// Of what was written at the front of a buffer: the number, the length, and the sums of what was written and of the
// rest.
pub fn written_line(letter: u8, number: u8, length: u16, buffer: &[u8]) {
    let k = length as usize;
    line(
        letter,
        &[
            number as u64,
            length as u64,
            sum(run(buffer, 0, k)),
            sum(from(buffer, k)),
        ],
    );
}

// Of the state that was asked. 01: "trailing ones give the lowest missing piece": they are asked beside the question's
// loops, and both are printed.
pub fn question_line(answer: Result<Option<MissingPiece>, Refusal>, w: Receiver) {
    let asked = Asked::of(answer);
    line(
        b'Q',
        &[
            asked.number as u64,
            asked.open as u64,
            asked.sender as u64,
            asked.piece as u64,
            by_ones(asked, w),
        ],
    );
}

// The lowest missing piece of the sender that was found, by the trailing ones of its map; 0 is printed where none was.
fn by_ones(asked: Asked, w: Receiver) -> u64 {
    if asked.open {
        lowest_missing(map_at(w, asked.sender)) as u64
    } else {
        0
    }
}

// The map of the sender at a place.
fn map_at(w: Receiver, place: u8) -> u64 {
    w.senders.get(place as usize).map_or(0, |s| s.message.map)
}

// What is counted are the part's length and sum, and the storage's sum.
pub fn message_line(tag: u8, outcome: Outcome, held: u8, dropped: Dropped, counted: [u64; 3]) {
    told(
        tag,
        &[
            outcome.number() as u64,
            outcome.verdict() as u64,
            held as u64,
            counted[0],
            outcome.skipped() as u64,
            outcome.age() as u64,
            dropped.version.0 as u64,
            dropped.number.0 as u64,
            counted[1],
            counted[2],
        ],
    );
}

// What is counted are the part's length and sum, and the sums of the lent entries of the versions and of the numbers.
pub fn multicast_line(tag: u8, outcome: Outcome, counted: [u64; 4]) {
    told(
        tag,
        &[
            outcome.number() as u64,
            outcome.verdict() as u64,
            counted[0],
            outcome.skipped() as u64,
            outcome.age() as u64,
            counted[1],
            counted[2],
            counted[3],
        ],
    );
}
