// The fault section of an alive signal (5.4, Table 9; 02, Item 2): what stands behind octet 128 of its PDU, read and written.
//
// specs/Section.antt says what a section is; `reading` takes exactly the octets of such sections, and `writing` makes them.
// Every public function is total. An octet past the end of what is lent reads as 0.
#![tactic(auto)]

pub mod bits;
pub mod places;
pub mod reading;
pub mod writing;

// The most octets of a section: what an alive PDU has behind its first 128.
pub const MOST: usize = signal::MOST - signal::SIZE;

// The octets of a name.
pub const NAME: usize = 8;

// A module, from 1, and what is wrong with it.
#[repr(C)]
#[derive(Clone, Copy)]
pub struct Error {
    pub module: u16,
    pub error: u16,
}

impl Error {
    pub const NONE: Error = Error {
        module: 0,
        error: 0,
    };
}
