// What the calls for a board answer: structs of numbers, laid out by C's rules. Each call stands in a crate of its own above
// this one, so that the compiler sees one caller of what the call is made of (those of the fault section share one);
// include/adp.h declares them all.
//
// specs/Calls.antt says what each answers and leaves.
#![tactic(auto)]

// What the message call answers. The delivered octets are `length` octets from `start` on, of the packet where `slice`
// is 1, of the storage where it is 2, and of neither where it is 0.
#[repr(C)]
#[derive(Clone, Copy)]
pub struct Told {
    pub number: u8,
    pub verdict: u8,
    pub held: u8,
    pub slice: u8,
    pub skipped: u32,
    pub age: u32,
    pub dropped_version: u32,
    pub dropped_number: u32,
    pub start: usize,
    pub length: usize,
}

// What the clock call answers: which messages were dropped and which senders died, first sender lowest.
#[repr(C)]
#[derive(Clone, Copy)]
pub struct Ticked {
    pub number: u8,
    pub dropped: u16,
    pub dead: u16,
}

// What the question answers: whether a message is open, and of the first sender that has one its lowest missing piece.
#[repr(C)]
#[derive(Clone, Copy)]
pub struct Missing {
    pub number: u8,
    pub open: bool,
    pub sender: u8,
    pub piece: u8,
}

// What the cutter answers: the PDU's length is 0 on a refusal.
#[repr(C)]
#[derive(Clone, Copy)]
pub struct Cutting {
    pub number: u8,
    pub length: u16,
}

// What reading a fault section answers: all but the number is 0 on a refusal.
#[repr(C)]
#[derive(Clone, Copy)]
pub struct Report {
    pub number: u8,
    pub modules: u32,
    pub errors: u32,
    pub options: u32,
    pub name: [u8; 8],
}

// Where a section's options stand in it: `length` octets from `start` on, both 0 where there are none.
#[repr(C)]
#[derive(Clone, Copy)]
pub struct Options {
    pub start: usize,
    pub length: usize,
}

// What writing a section answers: its length is 0 on a refusal. The fields are those of Cutting, but C has two structs.
#[repr(C)]
#[derive(Clone, Copy)]
pub struct Written {
    pub number: u8,
    pub length: u16,
}
