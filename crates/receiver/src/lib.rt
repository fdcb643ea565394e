// The receiver's message call, on a state by value with storage and a packet lent, and the octets that it delivers. The
// other calls are crates of their own.
//
// Every public function is total: it takes any state, any storage and any octets.

#![tactic(auto)]

pub mod message;
pub mod part;
