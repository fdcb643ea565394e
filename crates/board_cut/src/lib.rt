// The cutter, its answer in numbers.
#![tactic(auto)]

ghost use Rattle.std.specs.Prelude.{◌≡◌, length};
ghost use Rattle.cut.specs.Cutter.{cutter_answer, cutter_buffer};
ghost use Rattle.board.specs.Calls.{cutting_of};

use board::Cutting;
use cut::cutter::cutter;
use header::Given;
use refusal::number_in;

pub fn adp_cut(given: Given, message: &[u8], u: u16, piece: u8, buffer: &mut [u8]) -> Cutting
    ensures answer { result ≡ cutting_of (cutter_answer given message.now u piece (length buffer.old)) }
    ensures written { buffer.new ≡ cutter_buffer given message.now u piece buffer.old }
{
    let cut = cutter(given, message, u, piece, buffer);
    Cutting {
        number: number_in(cut),
        length: cut.unwrap_or(0),
    }
}
