// What the calls take and answer, and beside each enum its number and values in this paper, as specs/Told.antt lists
// them for each case.
#![tactic(auto)]

ghost use Rattle.std.specs.Prelude.{◌≡◌};
ghost use Rattle.answers.specs.Told.{outcome_told, refused_by, question_told, asked_of};

use groups::Groups;
use refusal::{Refusal, number_in};
use ring::{Number, Verdict, Version};
use state::{Address, Receiver, Sender};

// What became of a packet.
#[derive(Clone, Copy)]
pub enum Outcome {
    // with `Refusal::Repeat` how far back the number lies, otherwise 0
    Refused { refusal: Refusal, age: u32 },
    Stored,
    Delivered(Verdict),
}

impl Outcome {
    pub fn number(self) -> u8
        ensures { result ≡ (outcome_told self).number }
    {
        match self {
            Outcome::Refused { refusal, .. } => refusal.number(),
            Outcome::Stored => 0,
            Outcome::Delivered(_) => 1,
        }
    }

    // Why it was refused, if it was.
    pub fn refusal(self) -> Option<Refusal>
        ensures { result ≡ refused_by self }
    {
        match self {
            Outcome::Refused { refusal, .. } => Some(refusal),
            _ => None,
        }
    }

    // 0 where nothing is delivered.
    pub fn verdict(self) -> u8
        ensures { result ≡ (outcome_told self).verdict }
    {
        match self {
            Outcome::Delivered(verdict) => verdict.printed(),
            _ => 0,
        }
    }

    // How old a repeat was.
    pub fn age(self) -> u32
        ensures { result ≡ (outcome_told self).age }
    {
        match self {
            Outcome::Refused { age, .. } => age,
            Outcome::Stored => 0,
            Outcome::Delivered(verdict) => verdict.age(),
        }
    }

    // How many numbers were skipped.
    pub fn skipped(self) -> u32
        ensures { result ≡ (outcome_told self).skipped }
    {
        match self {
            Outcome::Delivered(verdict) => verdict.skipped(),
            _ => 0,
        }
    }
}

// Where a delivered message lies. Three cases that are told apart in what is printed, so no Option.
#[derive(Clone, Copy, PartialEq, Eq, Debug)]
pub enum Where {
    Nothing,
    // behind the header of the packet
    Packet,
    // in the storage
    Storage { start: usize, length: usize },
}

// The message that was dropped to make room. No Option: 01 answers "both 0 if none".
#[derive(Clone, Copy)]
pub struct Dropped {
    pub version: Version,
    pub number: Number,
}

impl Dropped {
    pub const NONE: Dropped = Dropped {
        version: Version(0),
        number: Number(0),
    };
}

// What one sender's record makes of a PDU.
#[derive(Clone, Copy)]
pub struct Admission {
    pub outcome: Outcome,
    pub held: u8,
    pub dropped: Dropped,
    pub sender: Sender,
}

// What the message call answers.
#[derive(Clone, Copy)]
pub struct Answer {
    pub outcome: Outcome,
    // pieces then held for the PDU's sender
    pub held: u8,
    pub dropped: Dropped,
    pub lies: Where,
    pub state: Receiver,
}

// What the multicast call answers: it leaves the state as it is.
#[derive(Clone, Copy)]
pub struct GroupAnswer {
    pub outcome: Outcome,
    pub lies: Where,
}

// What of a state the multicast call looks at: whether it is within its limits, its settings, and at which place the
// packet's sender stands.
#[derive(Clone, Copy)]
pub struct Listener {
    pub valid: bool,
    pub test: bool,
    pub n1: u16,
    pub count: u8,
    pub at: u8,
    pub groups: Groups,
}

// What setup takes. Places of the tables past their counts are not looked at.
#[repr(C)]
#[derive(Clone, Copy)]
pub struct Setup {
    pub mode: u8,
    pub n1: u16,
    pub t: u32,
    pub count: u8,
    pub senders: [Address; Receiver::PLACES],
    pub groups: Groups,
}

// What setup answers. The state stands beside the refusal: a refused setup answers the empty one.
#[derive(Clone, Copy)]
pub struct Started {
    pub call: Result<(), Refusal>,
    pub state: Receiver,
}

// What the alive call answers. The state stands beside the refusal: a refused call hands back the one it was given.
#[derive(Clone, Copy)]
pub struct Noted {
    pub call: Result<(), Refusal>,
    pub state: Receiver,
}

// What is missing of an open message, for the question: the sender's place in the table, from 0, and its lowest missing
// piece, from 1.
#[derive(Clone, Copy, PartialEq, Eq, Debug)]
pub struct MissingPiece {
    pub sender: u8,
    pub piece: u8,
}

// The question's answer as it is told: where no message is open, sender and piece are 0.
#[derive(Clone, Copy, PartialEq, Eq, Debug)]
pub struct Asked {
    pub number: u8,
    pub open: bool,
    pub sender: u8,
    pub piece: u8,
}

impl Asked {
    pub fn of(answer: Result<Option<MissingPiece>, Refusal>) -> Asked
        ensures { result ≡ asked_of answer }
    {
        Asked {
            number: number_in(answer),
            open: is_open(answer),
            sender: sender_in(answer),
            piece: piece_in(answer),
        }
    }
}

fn is_open(answer: Result<Option<MissingPiece>, Refusal>) -> bool
    ensures { result ≡ (question_told answer).«open» }
{
    matches!(answer, Ok(Some(_)))
}

fn sender_in(answer: Result<Option<MissingPiece>, Refusal>) -> u8
    ensures { result ≡ (question_told answer).sender }
{
    match answer {
        Ok(Some(missing)) => missing.sender,
        _ => 0,
    }
}

fn piece_in(answer: Result<Option<MissingPiece>, Refusal>) -> u8
    ensures { result ≡ (question_told answer).piece }
{
    match answer {
        Ok(Some(missing)) => missing.piece,
        _ => 0,
    }
}

// What the clock call answers: which messages were dropped and which senders died, first sender lowest. The state
// stands beside the refusal: a refused call hands back the one it was given.
#[derive(Clone, Copy)]
pub struct Ticked {
    pub call: Result<(), Refusal>,
    pub dropped: u16,
    pub dead: u16,
    pub state: Receiver,
}
