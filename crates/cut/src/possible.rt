// Whether a PDU's cut is possible, and what it says of the piece: by ML, BSIZE, CBN and TBN alone.
ghost use Rattle.std.specs.Prelude.{◌≡◌, cond, ◌-◌, ◌/◌, ◌≤◌, eqb, ltb};
ghost use Rattle.cut.specs.Possible.{message_length, own_length, unit as unit_of, own_place, sizes_within, is_unit, several_possible, front_possible, last_possible, possible as is_possible};

use crate::pieces::{LEAST_UNIT, MOST_OCTETS, MOST_UNIT};
use header::{Cut, SIZE};

const HEADER: u32 = SIZE as u32;

const MOST: u32 = MOST_OCTETS as u32;

// n, the message's length.
pub fn message_length(c: Cut) -> u32
    ensures { result ≡ message_length c }
{
    c.ml.saturating_sub(HEADER)
}

// p, the piece's own length.
pub fn own_length(c: Cut) -> u32
    ensures { result ≡ own_length c }
{
    (c.bsize as u32).saturating_sub(HEADER)
}

// u, the length of every piece but the last.
#[tactic(auto, unfolding(crate::specs::Possible::unit))]
pub fn unit(c: Cut) -> u32
    ensures { result ≡ unit_of c }
{
    if c.tbn == 1 {
        return message_length(c);
    }
    if c.tbn <= c.cbn {
        return last_unit(c);
    }
    own_length(c)
}

// u by the last piece: what stands before it, shared out among the others.
fn last_unit(c: Cut) -> u32
    ensures { result ≡ (message_length c - own_length c) / (c.tbn - 1) }
{
    if c.tbn <= 1 {
        return 0;
    }
    message_length(c).saturating_sub(own_length(c)) / ((c.tbn - 1) as u32)
}

// Where the piece starts in the message.
pub fn own_place(c: Cut) -> u64
    ensures { result ≡ own_place c }
{
    c.cbn.saturating_sub(1) as u64 * unit(c) as u64
}

#[tactic(auto, using(crate::proofs::PossibleLaws::judged_by_unit), unfolding(crate::specs::Possible::possible))]
pub fn possible(c: Cut) -> bool
    ensures { result ≡ is_possible c }
{
    if !sizes_within(c) {
        return false;
    }
    if c.cbn < 1 {
        return false;
    }
    if c.tbn < c.cbn {
        return false;
    }
    piece_possible(c.ml - HEADER, c.bsize as u32 - HEADER, c.cbn, c.tbn)
}

// Neither n nor p is negative, and n is at most 16,384.
fn sizes_within(c: Cut) -> bool
    ensures { result ≡ sizes_within c }
{
    if c.ml < HEADER {
        return false;
    }
    if MOST < message_length(c) {
        return false;
    }
    HEADER <= c.bsize as u32
}

// Whether piece c of t, from 1, can have p octets of a message's n.
fn piece_possible(n: u32, p: u32, c: u8, t: u8) -> bool
    requires { (1 ≤ c) × (c ≤ t) }
    ensures { result ≡ cond (eqb t 1) (eqb p n) (cond (ltb c t) (front_possible n t p) (last_possible n t p ((n - p) / (t - 1)))) }
{
    if t == 1 {
        return p == n;
    }
    if c < t {
        front_possible(n, t, p)
    } else {
        last_possible(n, t, p)
    }
}

// Whether a message of n octets can be cut into t pieces of u, t more than one.
#[tactic(auto, unfolding(crate::specs::Possible::several_possible))]
pub fn several(n: u32, t: u8, u: u32) -> bool
    ensures { result ≡ several_possible n t u }
{
    if t <= 1 {
        return false;
    }
    if MOST < n {
        return false;
    }
    front_possible(n, t, u)
}

// Whether pieces may have u octets.
pub fn is_unit(u: u32) -> bool
    ensures { result ≡ is_unit u }
{
    (LEAST_UNIT <= u) & (u <= MOST_UNIT)
}

// A piece before the last. What stands before the last piece is multiplied once.
#[tactic(auto, unfolding(crate::specs::Possible::front_possible))]
fn front_possible(n: u32, t: u8, u: u32) -> bool
    requires { 1 ≤ t }
    ensures { result ≡ front_possible n t u }
{
    if !is_unit(u) {
        return false;
    }
    let before = (t - 1) as u32 * u;
    if n <= before {
        return false;
    }
    n - before <= u
}

// The last piece of several: what stands before it is divided once.
#[tactic(auto, unfolding(crate::specs::Possible::last_possible))]
fn last_possible(n: u32, t: u8, p: u32) -> bool
    requires { 2 ≤ t }
    ensures { result ≡ last_possible n t p ((n - p) / (t - 1)) }
{
    if n <= p {
        return false;
    }
    if p < 1 {
        return false;
    }
    let before = n - p;
    let others = (t - 1) as u32;
    let u = before / others;
    if u < p {
        return false;
    }
    if !is_unit(u) {
        return false;
    }
    before % others == 0
}
