// The map of pieces held, a word of 64 bits: piece c at bit c - 1, bit 0 lowest.
#![tactic(auto)]

ghost use Rattle.std.specs.Prelude.{◌≡◌, not, ◌||◌, ◌+◌, ◌-◌, ◌^◌, ◌≤◌, ◌<◌, eqb};
ghost use Rattle.std.specs.Int.Count.{ones};
ghost use Rattle.map.specs.Map.{most_pieces, bit, holds as holds_of, full_map, is_empty, is_full, marked_past, marked as marked_of, lowest_missing};

// The bits of a word, and so the most pieces of a message.
pub const MOST_PIECES: u8 = 64;

pub fn holds(map: u64, c: u8) -> bool
    ensures { result ≡ holds_of map c }
{
    if MOST_PIECES < c {
        return false;
    }
    bit_of(map, shift_of(c))
}

// Which bit piece c has.
fn shift_of(c: u8) -> u8
    ensures { result ≡ c - 1 }
{
    c.saturating_sub(1)
}

#[tactic(auto, using(crate::proofs::MapLaws::code_bit))]
fn bit_of(map: u64, k: u8) -> bool
    requires { k < most_pieces }
    ensures { result ≡ eqb (bit k map) 1 }
{
    (map >> k) & 1 == 1
}

// The map with piece c as well, c 1 to 64.
pub fn marked(map: u64, c: u8) -> u64
    ensures { result ≡ marked_of map c }
{
    if MOST_PIECES < c {
        return map;
    }
    if holds(map, c) {
        return map;
    }
    set_bit(map, shift_of(c))
}

#[tactic(auto, using(crate::proofs::MapLaws::code_mark))]
fn set_bit(map: u64, k: u8) -> u64
    requires { (k < most_pieces) × (bit k map ≡ 0) }
    ensures { result ≡ map + 2 ^ k }
{
    map | (1u64 << k)
}

// Whether the map holds all of t pieces, and none past them.
pub fn is_full(map: u64, t: u8) -> bool
    ensures { result ≡ is_full map t }
{
    if MOST_PIECES < t {
        return false;
    }
    map == full(t)
}

// Whether it is neither empty nor full nor marked past t.
pub fn is_partial(map: u64, t: u8) -> bool
    ensures { result ≡ not (is_empty map || is_full map t || marked_past map t) }
{
    if MOST_PIECES < t {
        return 0 < map;
    }
    (0 < map) & (map < full(t))
}

#[tactic(auto, using(crate::proofs::MapLaws::code_full))]
fn full(t: u8) -> u64
    requires { t ≤ most_pieces }
    ensures { result ≡ full_map t }
{
    if t == 0 {
        return 0;
    }
    u64::MAX >> (MOST_PIECES - t)
}

// How many pieces are held.
pub fn held(map: u64) -> u32
    ensures { result ≡ ones map }
{
    map.count_ones()
}

// The lowest missing piece: one more than the trailing ones.
pub fn lowest_missing(map: u64) -> u32
    ensures { result ≡ lowest_missing map }
{
    map.trailing_ones() + 1
}
