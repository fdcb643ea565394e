// The multicast call: a message of one piece to a registered group, judged by the last version and number of its sender,
// group and priority, which stand in two lent tables.
//
// Every public function is total: it takes any state, any tables, any group and any octets. The state does not change. Places
// in the tables are said in `rules`, as is what becomes of a packet.
#![tactic(auto)]

ghost use Rattle.std.specs.Prelude.{◌≡◌, [], ◌∷◌, leb};
ghost use Rattle.answers.specs.declared.Outcome.TheVariants.{Refused};
ghost use Rattle.groups.specs.Groups.{place_of};
ghost use Rattle.refusal.specs.declared.Refusal.TheVariants as refusals;
ghost use Rattle.rules.specs.calls.First.{row, checked};
ghost use Rattle.rules.specs.calls.Multicast.{entries_of, entry_place, entry_at, tables_within, one_piece, place_for, verdict_in, early_cast_rows, cast_outcome, is_kept, cast_tables, handed_by, multicast_answer, multicast_tables};
ghost use Rattle.multicast.specs.Lent.{tables};

use answers::{GroupAnswer, Listener, Outcome, Where};
use groups::{Group, Groups};
use header::{Cut, Head, SIZE, length_outside, read_head};
use octets::{at, put};
use receiver::message::head_within;
use refusal::Refusal;
use ring::{Number, Verdict, Version, number_check};
use state::{Address, Last, Receiver};

// The most octets of a PDU that comes to a group.
pub const MOST: usize = 1_472;

// The entries of each sender and group: PRI is 0 to 7.
pub const PRIORITIES: usize = 8;

pub fn multicast(
    state: Receiver,
    versions: &mut [u32],
    numbers: &mut [u32],
    group: Group,
    packet: &[u8],
) -> GroupAnswer
    ensures answer { result ≡ multicast_answer state (tables versions.old numbers.old) group.0 packet.now }
    ensures versions { versions.new ≡ (multicast_tables state (tables versions.old numbers.old) group.0 packet.now).versions }
    ensures numbers { numbers.new ≡ (multicast_tables state (tables versions.old numbers.old) group.0 packet.now).numbers }
{
    let h = read_head(packet);
    let look = state.look(Address::of(h));
    let s = Listener {
        valid: look.valid,
        test: state.test,
        n1: state.n1,
        count: state.count,
        at: look.at,
        groups: state.groups,
    };
    let outcome = take(s, versions, numbers, group, packet, h);
    GroupAnswer {
        outcome,
        lies: handed(outcome),
    }
}

// The same by what is looked at of a state, and the packet's header.
pub fn take(
    s: Listener,
    versions: &mut [u32],
    numbers: &mut [u32],
    group: Group,
    packet: &[u8],
    h: Head,
) -> Outcome
    ensures answer { result ≡ cast_outcome s (tables versions.old numbers.old) group.0 packet.now h }
    ensures versions { versions.new ≡ (cast_tables s (tables versions.old numbers.old) group.0 packet.now h).versions }
    ensures numbers { numbers.new ≡ (cast_tables s (tables versions.old numbers.old) group.0 packet.now h).numbers }
{
    let cast = Cast { s, group, h };
    let outcome = cast.outcome(Tables { versions, numbers }, packet);
    if is_kept(outcome) {
        let place = cast.place();
        put(versions, place, h.given.version.0);
        put(numbers, place, h.given.number.0);
    }
    outcome
}

// Where the message lies, if it was delivered: a message of one piece, behind its header.
pub fn handed(o: Outcome) -> Where
    ensures { result ≡ handed_by o }
{
    match o {
        Outcome::Delivered(_) => Where::Packet,
        _ => Where::Nothing,
    }
}

// Whether it is a delivery, and not unchecked.
fn is_kept(o: Outcome) -> bool
    ensures { result ≡ is_kept o }
{
    match o {
        Outcome::Delivered(verdict) => !verdict.is_unchecked(),
        _ => false,
    }
}

// ---- the two lent tables, as they are read

#[derive(Clone, Copy)]
struct Tables<'a> {
    versions: &'a [u32],
    numbers: &'a [u32],
}

impl<'a> Tables<'a> {
    // Whether both have as many entries as they should, each within the limits of a last number. All are looked at, whatever
    // the first says: so several are compared at once.
    fn within(self, entries: usize) -> bool
        ensures { result ≡ tables_within entries (tables self.entry.versions.now self.entry.numbers.now) }
    {
        if self.versions.len() != entries {
            return false;
        }
        if self.numbers.len() != entries {
            return false;
        }
        let mut within = true;
        for place in 0..entries {
            within &= self.last(place).within();
        }
        within
    }

    // The entry at a place, zeros past the end.
    fn last(self, place: usize) -> Last
        ensures { result ≡ entry_at (tables self.entry.versions.now self.entry.numbers.now) place }
    {
        Last {
            version: Version(at(self.versions, place, 0)),
            number: Number(at(self.numbers, place, 0)),
        }
    }
}

fn entries(senders: u8, groups: u8) -> usize
    ensures { result ≡ entries_of senders groups }
{
    (senders as usize) * (groups as usize) * PRIORITIES
}

// ---- a packet to a group, and what is looked at of the state

#[derive(Clone, Copy)]
struct Cast {
    s: Listener,
    group: Group,
    h: Head,
}

impl Cast {
    // The first refusal that applies, or the verdict with which the message is delivered.
    fn outcome(self, lent: Tables, packet: &[u8]) -> Outcome
        ensures { result ≡ cast_outcome self.s (tables lent.entry.versions.now lent.entry.numbers.now) self.group.0 packet.now self.h }
    {
        if let Err(refusal) = self.check_early(lent, packet) {
            return refused(refusal);
        }
        if (self.h.given.mode == 1) & !self.s.test {
            return refused(Refusal::Test);
        }
        if !one_piece(self.h.cut) {
            return refused(Refusal::Cut);
        }
        let verdict = self.verdict(lent);
        if verdict.is_repeat() {
            return Outcome::Refused {
                refusal: Refusal::Repeat,
                age: verdict.age(),
            };
        }
        Outcome::Delivered(verdict)
    }

    // The first of 9, 26, 12 to 14 and 25 that applies.
    fn check_early(self, lent: Tables, packet: &[u8]) -> Result<(), Refusal>
        ensures { result ≡ checked (early_cast_rows self.s (tables lent.entry.versions.now lent.entry.numbers.now) self.group.0 packet.now self.h) }
    {
        if !self.s.valid {
            return Err(Refusal::State);
        }
        if !lent.within(entries(self.s.count, self.s.groups.count)) {
            return Err(Refusal::Tables);
        }
        if length_outside(SIZE, MOST, packet.len(), self.h) {
            return Err(Refusal::Length);
        }
        if !head_within(packet, self.h) {
            return Err(Refusal::Header);
        }
        if self.s.count <= self.s.at {
            return Err(Refusal::Sender);
        }
        check_group(self.s.groups, self.group)
    }

    // What the number check says.
    fn verdict(self, lent: Tables) -> Verdict
        ensures { result ≡ verdict_in self.s (tables lent.entry.versions.now lent.entry.numbers.now) self.group.0 self.h }
    {
        let last = lent.last(self.place());
        number_check(
            self.s.n1,
            last.version,
            last.number,
            self.h.given.version,
            self.h.given.number,
        )
    }

    // The place of the packet's sender, group and priority in the tables.
    fn place(self) -> usize
        ensures { result ≡ place_for self.s self.group.0 self.h }
    {
        let groups = self.s.groups;
        entry_place(
            groups.count,
            self.s.at,
            groups.place(self.group),
            self.h.given.pri,
        )
    }
}

fn entry_place(groups: u8, sender: u8, group: u8, pri: u8) -> usize
    ensures { result ≡ entry_place groups sender group pri }
{
    ((sender as usize) * (groups as usize) + (group as usize)) * PRIORITIES + (pri as usize)
}

// Whether the group is registered.
fn check_group(groups: Groups, group: Group) -> Result<(), Refusal>
    ensures { result ≡ checked (row refusals.Group (leb groups.count (place_of groups group.0)) ∷ []) }
{
    if groups.count <= groups.place(group) {
        Err(Refusal::Group)
    } else {
        Ok(())
    }
}

// CBN = TBN = 1, and p = n.
fn one_piece(cut: Cut) -> bool
    ensures { result ≡ one_piece cut }
{
    (cut.cbn == 1) & (cut.tbn == 1) & (cut.bsize as u32 == cut.ml)
}

// A refusal but `Refusal::Repeat`, which has an age.
fn refused(refusal: Refusal) -> Outcome
    ensures { result ≡ Refused refusal 0 }
{
    Outcome::Refused { refusal, age: 0 }
}
