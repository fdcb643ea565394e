// How a message is cut into pieces (D.4.3), and whether a PDU's cut is possible.
//
// Every public function is total. Lengths are in octets, and pieces are counted from 1.

#![tactic(auto)]

pub mod cutter;
pub mod pieces;
pub mod possible;
