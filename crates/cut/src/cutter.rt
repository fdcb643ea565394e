// The cutter: writes the PDU of one piece into a lent buffer, by the piece's number.
//
// Every public function is total. Lengths are in octets, and pieces are counted from 1. What a piece is cut by (n, u and
// its number) stays three parameters, as each definition takes them.
ghost use Rattle.std.specs.Prelude.{◌≡◌, true, cond, Ok, Err, length};
ghost use Rattle.octets.specs.Run.{laid};
ghost use Rattle.refusal.specs.declared.Refusal.TheVariants as refusal;
ghost use Rattle.cut.specs.Pieces.{pieces as pieces_of};
ghost use Rattle.cut.specs.Cutter.{cut_for, pdu, given_within, piece_within, cuts, cutter_answer, cutter_buffer};

use crate::pieces::{MOST_OCTETS, length_among, piece_place, pieces};
use crate::possible::is_unit;
use header::codes::{code_of, is_mode, is_pri};
use header::{Cut, Given, Head, SIZE, write_head};
use octets::lay_once;
use refusal::Refusal;

// All refusals have one number, so what costs least is tried first; the pieces are counted once. The buffer may be slow
// memory: nothing is stored before nothing is left to refuse, and then each octet of the PDU once, in rising order.
#[tactic(auto, unfolding(crate::specs::Cutter::cuts, crate::specs::Cutter::cutter_answer, crate::specs::Cutter::cutter_buffer))]
pub fn cutter(
    given: Given,
    message: &[u8],
    u: u16,
    piece: u8,
    buffer: &mut [u8],
) -> Result<u16, Refusal>
    ensures answer { result ≡ cutter_answer given message.now u piece (length buffer.old) }
    ensures written { buffer.new ≡ cutter_buffer given message.now u piece buffer.old }
{
    let n = message.len();
    let t = counted(n, u, piece)?;
    if !given_within(given) {
        return Err(Refusal::Writing);
    }
    let cut = cut_for(n, u, piece, t);
    if buffer.len() < cut.bsize as usize {
        return Err(Refusal::Writing);
    }
    write_pdu(given, message, u, piece, cut, buffer);
    Ok(cut.bsize)
}

// The number of pieces, where n, u and the piece number are within their limits. None is counted before n and u are
// known to be within theirs: that takes a division.
#[tactic(auto, unfolding(crate::specs::Cutter::piece_within))]
fn counted(n: usize, u: u16, c: u8) -> Result<usize, Refusal>
    ensures { result ≡ cond (piece_within n u c) (Ok (pieces_of n u)) (Err refusal.Writing) }
{
    if !((n <= MOST_OCTETS) & is_unit(u as u32) & (1 <= c)) {
        return Err(Refusal::Writing);
    }
    let t = pieces(n, u);
    if t < c as usize {
        Err(Refusal::Writing)
    } else {
        Ok(t)
    }
}

#[tactic(auto, unfolding(crate::specs::Cutter::given_within))]
fn given_within(g: Given) -> bool
    ensures { result ≡ given_within g }
{
    g.field.within()
        & g.node.within()
        & g.number.within()
        & code_of(g.tcd).is_user()
        & is_mode(g.mode)
        & is_pri(g.pri)
}

// What the header says of piece c of t.
#[tactic(auto, using(crate::proofs::PiecesLaws::length_counted, crate::proofs::PiecesLaws::pieces_most, crate::proofs::CutterLaws::within_facts, crate::proofs::CutterLaws::within_short))]
fn cut_for(n: usize, u: u16, c: u8, t: usize) -> Cut
    requires { (piece_within n u c ≡ true) × (t ≡ pieces_of n u) }
    ensures { result ≡ cut_for n u c }
{
    let own = length_among(n, u, c, t);
    Cut {
        ml: (n + SIZE) as u32,
        bsize: (own + SIZE) as u16,
        cbn: c,
        tbn: t as u8,
    }
}

// The header, then the piece behind it.
#[tactic(auto, using(crate::proofs::CutterLaws::within_end, crate::proofs::CutterLaws::bsize_is, crate::proofs::CutterLaws::pdu_written, crate::proofs::ReadLaws::cuts_within, crate::proofs::ReadLaws::cuts_room))]
fn write_pdu(given: Given, message: &[u8], u: u16, piece: u8, cut: Cut, buffer: &mut [u8])
    requires { (cuts given message.now u piece (length buffer.old) ≡ true) × (cut ≡ cut_for (length message.now) u piece) }
    ensures { buffer.new ≡ laid buffer.old 0 (pdu given message.now u piece) }
{
    let start = piece_place(u, piece);
    let own = cut.bsize as usize - SIZE;
    write_head(buffer, Head { given, cut });
    lay_once(buffer, SIZE, &message[start..start + own]);
}
