// The refusals of 01 and 02, one variant for each number: why a call is refused.
#![tactic(auto)]

ghost use Rattle.std.specs.Prelude.{◌≡◌};
ghost use Rattle.refusal.specs.Numbers.{number_of, number_in};

// In the order of their numbers, which are the paper's.
#[derive(Clone, Copy, PartialEq, Eq, Debug)]
pub enum Refusal {
    // a state outside its limits
    State = 9,
    // setup outside its limits
    Setup = 10,
    // the storage's length is wrong
    Storage = 11,
    // the PDU is too short or too long, or its length is not its BSIZE
    Length = 12,
    // a fixed field, PRI, MODE, the code or SEQ is out of range
    Header = 13,
    // the sender is not registered
    Sender = 14,
    // a test message at an online node
    Test = 15,
    // the cut is not possible
    Cut = 16,
    // the number check says repeat
    Repeat = 17,
    // the open message has the same version and a larger number
    Older = 18,
    // the same version and number, but TCD, n, TBN or u differ
    Differs = 19,
    // the piece is already held
    Held = 20,
    // the clock is back or above its limit
    Clock = 21,
    // an alive signal's ML, CBN, TBN, group or body is wrong
    Alive = 22,
    // what is to be written is outside its limits, or the buffer is short
    Writing = 23,
    // a fault section is wrong
    Fault = 24,
    // the group is not registered
    Group = 25,
    // the two tables are wrong
    Tables = 26,
}

impl Refusal {
    pub fn number(self) -> u8
        ensures { result ≡ number_of self }
    {
        self as u8
    }
}

// The number that is printed of an answer: a refusal's, 0 where nothing is refused.
pub fn number_in<T: Copy>(answer: Result<T, Refusal>) -> u8
    ensures { result ≡ number_in answer }
{
    match answer {
        Ok(_) => 0,
        Err(refusal) => refusal.number(),
    }
}
