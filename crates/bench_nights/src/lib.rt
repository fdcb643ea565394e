// Whole nights in one call, for the bench: a receiver is set up and given the packets that lie one behind the other in
// a lent slice, behind them the maintenance page asks; a message is cut piece by piece; a header is written by itself.
// A program in C lends the octets, and measures.
//
// What is answered is one number made of all answers, so that none can be left out and two programs are quickly
// compared.
#![tactic(auto)]

ghost use Rattle.std.specs.Prelude.{◌≡◌};
ghost use Rattle.answers.specs.Told.{refused_number};
ghost use Rattle.header.specs.Head.{headed};
ghost use Rattle.rules.specs.pasts.Past.{after};
ghost use Rattle.bench_nights.specs.Night.{nodes, board_of, begun, packets_by, summed, night_sum};
ghost use Rattle.bench_nights.specs.Cuts.{given_of, head_for, cut_sum, cuts_sum, cuts_buffer};
ghost use Rattle.bench_nights.specs.Pages.{held_sum};

use answers::{Answer, Dropped, Outcome, Setup, Where};
use cut::cutter::cutter;
use groups::Groups;
use header::codes::{DataField, Node};
use header::{Cut, Given, Head, write_head};
use octets::run;
use receiver::message::message;
use receiver::part::part;
use refusal::{Refusal, number_in};
use ring::{Number, Version};
use setup::setup;
use state::{Address, Receiver};
use std::array;

// A night of a receiver with these settings and this many senders: packet after packet, each as long as its size says.
#[unsafe(no_mangle)]
pub extern "C" fn adp_night(
    mode: u8,
    n1: u16,
    t: u32,
    senders: u8,
    packets: &[u8],
    sizes: &[u16],
    storage: &mut [u8],
) -> u64
    ensures answer { result ≡ night_sum 0 (begun (board_of mode n1 t senders) storage.old) (packets_by sizes.now packets.now) }
    ensures stored { storage.new ≡ (after (begun (board_of mode n1 t senders) storage.old) (packets_by sizes.now packets.now)).storage }
{
    night(mode, n1, t, senders, packets, sizes, storage).sum
}

// A night, and behind it the maintenance page, which asks of each of these places how many pieces are held.
#[unsafe(no_mangle)]
pub extern "C" fn adp_pages(
    mode: u8,
    n1: u16,
    t: u32,
    senders: u8,
    packets: &[u8],
    sizes: &[u16],
    storage: &mut [u8],
    places: &[u8],
) -> u64
    ensures answer { result ≡ held_sum 0 (after (begun (board_of mode n1 t senders) storage.old) (packets_by sizes.now packets.now)).state places.now }
    ensures stored { storage.new ≡ (after (begun (board_of mode n1 t senders) storage.old) (packets_by sizes.now packets.now)).storage }
{
    page(
        night(mode, n1, t, senders, packets, sizes, storage).state,
        places,
    )
}

// The pieces 1 to last of a message, each written into the same buffer.
#[unsafe(no_mangle)]
pub extern "C" fn adp_cuts(number: u32, message: &[u8], u: u16, last: u8, buffer: &mut [u8]) -> u64
    ensures answer { result ≡ cuts_sum (given_of number) message.now u buffer.old last }
    ensures written { buffer.new ≡ cuts_buffer (given_of number) message.now u buffer.old last }
{
    let given = given_of(number);
    let mut sum: u64 = 0;
    for c in 0..last {
        sum = with_cut(sum, cutter(given, message, u, c + 1, buffer));
    }
    sum
}

// A header by itself: the values of a message with this number, and what the cut makes.
#[unsafe(no_mangle)]
pub extern "C" fn adp_head(number: u32, ml: u32, bsize: u16, cbn: u8, tbn: u8, buffer: &mut [u8])
    ensures { buffer.new ≡ headed buffer.old (head_for number ml bsize cbn tbn) }
{
    let given = given_of(number);
    let cut = Cut {
        ml,
        bsize,
        cbn,
        tbn,
    };
    write_head(buffer, Head { given, cut });
}

// ---- what a night starts with

// As many nodes as there are places, from 1 on, of data field 1.
fn nodes() -> [Address; Receiver::PLACES]
    ensures { result ≡ nodes }
{
    array::from_fn(|i| Address {
        field: DataField(1),
        node: Node(i as u16 + 1),
    })
}

// A node whose senders are the nodes 1 to this many of data field 1.
fn board(mode: u8, n1: u16, t: u32, count: u8) -> Setup
    ensures { result ≡ board_of mode n1 t count }
{
    Setup {
        mode,
        n1,
        t,
        count,
        senders: nodes(),
        groups: Groups::NONE,
    }
}

// A state that no packet has come to, in an answer: from there each call takes it, and there it leaves it. In a local
// of its own the state would be copied once more for each packet.
fn unasked(state: Receiver) -> Answer
    ensures { result.state ≡ state }
{
    Answer {
        outcome: Outcome::Stored,
        held: 0,
        dropped: Dropped::NONE,
        lies: Where::Nothing,
        state,
    }
}

// The header values of the first sender's message with this number.
fn given_of(number: u32) -> Given
    ensures { result ≡ given_of number }
{
    Given {
        field: DataField(1),
        node: Node(1),
        da: 0,
        version: Version(1),
        number: Number(number),
        mctl: 0,
        tcd: 1,
        mode: 0,
        pri: 0,
    }
}

// ---- packet after packet

// What a night leaves beside the storage.
#[derive(Clone, Copy)]
struct Ended {
    sum: u64,
    state: Receiver,
}

// The packets, given to the message call one after the other.
fn night(
    mode: u8,
    n1: u16,
    t: u32,
    senders: u8,
    packets: &[u8],
    sizes: &[u16],
    storage: &mut [u8],
) -> Ended
    ensures answer { result.sum ≡ night_sum 0 (begun (board_of mode n1 t senders) storage.old) (packets_by sizes.now packets.now) }
    ensures left { result.state ≡ (after (begun (board_of mode n1 t senders) storage.old) (packets_by sizes.now packets.now)).state }
    ensures stored { storage.new ≡ (after (begun (board_of mode n1 t senders) storage.old) (packets_by sizes.now packets.now)).storage }
{
    let mut a = unasked(setup(board(mode, n1, t, senders)).state);
    let mut sum: u64 = 0;
    let mut at: usize = 0;
    for size in sizes {
        let packet = run(packets, at, *size as usize);
        a = message(a.state, storage, packet);
        sum = with_answer(sum, a.outcome, a.held, part(a.lies, packet, storage).len());
        at += packet.len();
    }
    Ended {
        sum,
        state: a.state,
    }
}

// ---- one packet

// The sum with one more answer in it: its number or its verdict, its age, the pieces held, and the length that was
// handed over.
fn with_answer(sum: u64, o: Outcome, held: u8, size: usize) -> u64
    ensures { result ≡ summed sum o held size }
{
    let answer = refused_number(o) as u64
        + o.verdict() as u64
        + o.age() as u64
        + (held as u64) * 256;
    sum.wrapping_add(answer).wrapping_add(size as u64)
}

// The number of a refusal, 0 where there is none.
fn refused_number(o: Outcome) -> u8
    ensures { result ≡ refused_number o }
{
    match o {
        Outcome::Refused { refusal, .. } => refusal.number(),
        _ => 0,
    }
}

// The sum with one more answer of the cutter in it.
fn with_cut(sum: u64, cut: Result<u16, Refusal>) -> u64
    ensures { result ≡ cut_sum sum cut }
{
    sum.wrapping_add(number_in(cut) as u64 + cut.unwrap_or(0) as u64)
}

// ---- the page

// How many pieces are held at these places, in one sum.
fn page(state: Receiver, places: &[u8]) -> u64
    ensures { result ≡ held_sum 0 state places.now }
{
    places.iter().fold(0, |sum, place| sum.wrapping_add(state.held(*place) as u64))
}
