// How many pieces a message of n octets has at u octets a piece, and the length and place of each.
ghost use Rattle.std.specs.Prelude.{◌≡◌, cond, ◌-◌, ltb};
ghost use Rattle.cut.specs.Pieces.{pieces as pieces_of, piece_length, piece_place};

// The most octets of a message.
pub const MOST_OCTETS: usize = 16_384;

// The piece length, which is MTU - 104.
pub const LEAST_UNIT: u32 = 256;

pub const MOST_UNIT: u32 = 1_396;

// One piece where n is at most u, otherwise n / u rounded up. No message has pieces of 0 octets.
#[tactic(auto, using(crate::proofs::PiecesLaws::rounded_up), unfolding(crate::specs::Pieces::pieces))]
pub fn pieces(n: usize, u: u16) -> usize
    ensures { result ≡ pieces_of n u }
{
    let unit = u as usize;
    if n <= unit {
        return 1;
    }
    if unit == 0 {
        return 0;
    }
    n.div_ceil(unit)
}

// Where piece c starts in the message.
pub fn piece_place(u: u16, c: u8) -> usize
    ensures { result ≡ piece_place u c }
{
    c.saturating_sub(1) as usize * u as usize
}

// All pieces but the last carry u octets, the last carries the rest.
#[tactic(auto, using(crate::proofs::PiecesLaws::length_counted))]
pub fn piece_length(n: usize, u: u16, c: u8) -> usize
    ensures { result ≡ piece_length n u c }
{
    length_among(n, u, c, pieces(n, u))
}

// The same of a message that has t pieces, so that whoever needs their number too counts them once.
pub fn length_among(n: usize, u: u16, c: u8, t: usize) -> usize
    ensures { result ≡ cond (ltb c t) u (n - piece_place u c) }
{
    if (c as usize) < t {
        return u as usize;
    }
    let start = piece_place(u, c);
    n.saturating_sub(start)
}
