// One sender's record: what it makes of a PDU whose header is in order. The refusals 15 to 20, and opening, adding,
// dropping and delivering.
//
// Every public function is total: the record need not be within its limits.
#![tactic(auto)]

ghost use Rattle.std.specs.Prelude.{◌≡◌, true, not, ◌&&◌, [], ◌∷◌};
ghost use Rattle.ring.specs.Ring.{newer as is_newer};
ghost use Rattle.cut.specs.Possible.{possible as is_possible};
ghost use Rattle.map.specs.Map.{holds as holds_of};
ghost use Rattle.refusal.specs.declared.Refusal.TheVariants as refusals;
ghost use Rattle.refusal.specs.Numbers.{number_of};
ghost use Rattle.answers.specs.Told.{age_with, refusal as refused};
ghost use Rattle.rules.specs.calls.Admit.{rejoins as is_rejoining, same_cut, sender_rows, same_version, map_after, kept_after, dropped_by, last_by, closed, message_of, admitted, not_admitted, admission, verdict_of};
ghost use Rattle.rules.specs.calls.First.{row, checked};

use answers::{Admission, Dropped, Outcome};
use cut::possible::{message_length, possible, unit};
use header::Head;
use map::{holds, is_full, marked};
use refusal::Refusal;
use ring::{Verdict, newer, number_check};
use state::{Last, Message, Sender};

// What the record makes of the PDU with this header, at a node with these settings and this clock.
pub fn admit(s: Sender, test: bool, n1: u16, clock: u64, h: Head) -> Admission
    ensures { result ≡ admission test n1 clock s h }
{
    let arrival = Arrival { s, n1, h };
    if let Err(refusal) = arrival.check(test) {
        return arrival.refused_by(refusal);
    }
    arrival.admitted_by(clock)
}

// A PDU with this header, come to its sender's record at a node with this N1.
#[derive(Clone, Copy)]
struct Arrival {
    s: Sender,
    n1: u16,
    h: Head,
}

// ---- the refusals

impl Arrival {
    // The first of 15 to 20 that applies.
    fn check(self, test: bool) -> Result<(), Refusal>
        ensures { result ≡ checked (sender_rows test self.n1 self.s self.h) }
    {
        if (self.h.given.mode == 1) & !test {
            return Err(Refusal::Test);
        }
        if !possible(self.h.cut) {
            return Err(Refusal::Cut);
        }
        if self.verdict().is_repeat() {
            return Err(Refusal::Repeat);
        }
        self.check_open()
    }

    // The first of 18 to 20 that applies: only a message that is open, of the PDU's version, is looked at.
    fn check_open(self) -> Result<(), Refusal>
        ensures { result ≡ checked (row refusals.Older (self.s.«open» && same_version self.s self.h && is_newer self.s.message.number self.h.given.number) ∷ row refusals.Differs (is_rejoining self.s self.h && not (same_cut self.s.message self.h)) ∷ row refusals.Held (is_rejoining self.s self.h && holds_of self.s.message.map self.h.cut.cbn) ∷ []) }
    {
        let m = self.s.message;
        let given = self.h.given;
        if !(self.s.open & (m.version == given.version)) {
            return Ok(());
        }
        if newer(m.number, given.number) {
            return Err(Refusal::Older);
        }
        if !self.rejoins() {
            return Ok(());
        }
        if !same_cut(m, self.h) {
            return Err(Refusal::Differs);
        }
        if holds(m.map, self.h.cut.cbn) {
            return Err(Refusal::Held);
        }
        Ok(())
    }

    // What the number check says.
    fn verdict(self) -> Verdict
        ensures { result ≡ verdict_of self.n1 self.s self.h }
    {
        let last = self.s.last;
        let given = self.h.given;
        number_check(
            self.n1,
            last.version,
            last.number,
            given.version,
            given.number,
        )
    }

    // Whether the open message has the PDU's version and number.
    fn rejoins(self) -> bool
        ensures { result ≡ is_rejoining self.s self.h }
    {
        let m = self.s.message;
        let given = self.h.given;
        self.s.open & (m.version == given.version) & (m.number == given.number)
    }

    // A refusal alters nothing.
    fn refused_by(self, refusal: Refusal) -> Admission
        ensures { result ≡ not_admitted self.s (refused refusal (verdict_of self.n1 self.s self.h)) }
    {
        let age = self.age_with(refusal);
        Admission {
            outcome: Outcome::Refused { refusal, age },
            held: 0,
            dropped: Dropped::NONE,
            sender: self.s,
        }
    }

    // How old a repeat is: with another refusal nobody asks.
    fn age_with(self, refusal: Refusal) -> u32
        ensures { result ≡ age_with (number_of refusal) (verdict_of self.n1 self.s self.h) }
    {
        match refusal {
            Refusal::Repeat => self.verdict().age(),
            _ => 0,
        }
    }
}

fn same_cut(m: Message, h: Head) -> bool
    ensures { result ≡ same_cut m h }
{
    (m.tcd == h.given.tcd)
        & (m.n as u32 == message_length(h.cut))
        & (m.tbn == h.cut.tbn)
        & (m.u as u32 == unit(h.cut))
}

// ---- what an admitted PDU does

impl Arrival {
    fn admitted_by(self, clock: u64) -> Admission
        requires { is_possible self.h.cut ≡ true }
        ensures { result ≡ admitted self.n1 clock self.s self.h }
    {
        let map = self.map_after();
        let dropped = self.dropped_by();
        if is_full(map, self.h.cut.tbn) {
            let v = self.verdict();
            return Admission {
                outcome: Outcome::Delivered(v),
                held: 0,
                dropped,
                sender: self.delivered(v),
            };
        }
        let held = self.kept_after();
        let message = message_of(clock, map, held, self.h);
        Admission {
            outcome: Outcome::Stored,
            held,
            dropped,
            sender: self.s.with_message(true, message),
        }
    }

    // The map of the message that the PDU belongs to, with its piece.
    fn map_after(self) -> u64
        ensures { result ≡ map_after self.s self.h }
    {
        if self.rejoins() {
            return marked(self.s.message.map, self.h.cut.cbn);
        }
        marked(0, self.h.cut.cbn)
    }

    // How many pieces of that message are then held: one more than was kept, and nothing is counted. A record outside its
    // limits may have 255 kept.
    fn kept_after(self) -> u8
        ensures { result ≡ kept_after self.s self.h }
    {
        if !self.rejoins() {
            return 1;
        }
        self.s.message.held.saturating_add(1)
    }

    // The open message, where the PDU has another version, or the same version and a newer number.
    fn dropped_by(self) -> Dropped
        ensures { result ≡ dropped_by self.s self.h }
    {
        let m = self.s.message;
        let given = self.h.given;
        let same_version = m.version == given.version;
        if self.s.open & (!same_version | (same_version & newer(given.number, m.number))) {
            return Dropped {
                version: m.version,
                number: m.number,
            };
        }
        Dropped::NONE
    }

    // The record once the message is delivered: nothing is then open.
    fn delivered(self, v: Verdict) -> Sender
        ensures { result ≡ closed self.s (last_by v self.s self.h) }
    {
        let none_open = self.s.with_message(false, Message::NONE);
        none_open.with_last(self.last_after(v))
    }

    // Delivery stores V_SEQ and SEQ, but for an unchecked message.
    fn last_after(self, v: Verdict) -> Last
        ensures { result ≡ last_by v self.s self.h }
    {
        if v.is_unchecked() {
            return self.s.last;
        }
        Last {
            version: self.h.given.version,
            number: self.h.given.number,
        }
    }
}

// The open message with this map and this number of pieces held.
fn message_of(clock: u64, map: u64, held: u8, h: Head) -> Message
    requires { is_possible h.cut ≡ true }
    ensures { result ≡ message_of clock map held h }
{
    Message {
        version: h.given.version,
        number: h.given.number,
        tcd: h.given.tcd,
        n: message_length(h.cut) as u16,
        tbn: h.cut.tbn,
        held,
        u: unit(h.cut) as u16,
        map,
        stamp: clock,
    }
}
