// The receiver's state: its types, its constructor and its limits (number 9), and the table of senders. What every call
// does to it is said in `rules`, as definitions; the functions that do it stand in the crates above.
//
// What is not open, not alive or past the senders is written 0 and never looked at.
#![tactic(auto)]

ghost use Rattle.std.specs.Prelude.{◌≡◌, Bool, cond, not, ◌||◌, ◌+◌, ◌<◌, ltb};
ghost use Rattle.state.specs.Limits.{is_address, same_address, last_within, message_within, sender_within, settings_within, addresses_within, valid};
ghost use Rattle.state.specs.Key.{key_of, Narrow, new_key};
ghost use Rattle.state.specs.Held.{held_at};
ghost use Rattle.state.specs.Table.{source, look_at};
ghost use Rattle.state.specs.State.{senders_most, new_sender, with_message, with_heard, with_last, empty_receiver};

use cut::pieces::MOST_OCTETS;
use cut::possible::several;
use groups::Groups;
use header::Head;
use header::codes::{DataField, Node, code_of};
use map::{held, is_partial};
use ring::{M, Number, Version};

// The last delivered version RV and number R.
#[derive(Clone, Copy, PartialEq, Eq)]
pub struct Last {
    pub version: Version,
    pub number: Number,
}

// An open message: piece c is held where bit c - 1 of the map is set, bit 0 lowest; `held` is how many are; the stamp is
// the clock at its newest piece.
//
// The two octets stand together: apart, the record would be longer by eight.
#[derive(Clone, Copy, PartialEq, Eq)]
pub struct Message {
    pub version: Version,
    pub number: Number,
    pub tcd: u16,
    pub n: u16,
    pub tbn: u8,
    pub held: u8,
    pub u: u16,
    pub map: u64,
    pub stamp: u64,
}

// When an alive sender was heard, and after how many seconds of silence it is dead.
#[derive(Clone, Copy, PartialEq, Eq)]
pub struct Heard {
    pub stamp: u64,
    pub timeout: u32,
}

// Where a sender sends from.
#[repr(C)]
#[derive(Clone, Copy, PartialEq, Eq)]
pub struct Address {
    pub field: DataField,
    pub node: Node,
}

// Flags and not Options: a program shows what damage left in a record that is not open or alive (docs/EDGES.md, r and W).
// They stand together: apart, each would cost one move more for every sender where a state is copied.
#[derive(Clone, Copy, PartialEq, Eq)]
pub struct Sender {
    pub address: Address,
    pub open: bool,
    pub alive: bool,
    pub last: Last,
    pub message: Message,
    pub heard: Heard,
}

#[derive(Clone, Copy, PartialEq, Eq)]
pub struct Receiver {
    // a test node; otherwise online
    pub test: bool,
    pub n1: u16,
    // the drop time T in ms
    pub t: u32,
    pub clock: u64,
    pub count: u8,
    pub groups: Groups,
    pub senders: [Sender; Receiver::PLACES],
}

impl Address {
    pub const NONE: Address = Address {
        field: DataField(0),
        node: Node(0),
    };

    // Where a PDU comes from.
    pub fn of(h: Head) -> Address
        ensures { result ≡ source h }
    {
        let given = h.given;
        let field = given.field;
        let node = given.node;
        Address { field, node }
    }

    pub fn within(self) -> bool
        ensures { result ≡ is_address self }
    {
        let field = self.field;
        let node = self.node;
        field.within() & node.within()
    }

    pub fn same(self, other: Address) -> bool
        ensures { result ≡ same_address self other }
    {
        self == other
    }

    // The address as one number, so that an address is compared with those before it at once, and these are lent, not
    // copied.
    pub fn key(self) -> u32
        ensures value { result ≡ key_of self }
        ensures narrow { Narrow self }
    {
        self.field.0 as u32 * 65_536 + self.node.0 as u32
    }

    // Whether the first count addresses are within their limits, and none stands there twice.
    pub fn all_within(senders: [Address; Receiver::PLACES], count: u8) -> bool
        ensures { result ≡ addresses_within senders count }
    {
        if Receiver::PLACES < count as usize {
            return false;
        }
        let mut within = true;
        let mut seen = [0u32; Receiver::PLACES];
        for (i, a) in senders[..count as usize].iter().enumerate() {
            let key = a.key();
            within = within & (a.within() & fresh(&seen, key));
            seen[i] = key;
        }
        within
    }
}

impl Last {
    pub const NONE: Last = Last {
        version: Version(0),
        number: Number(0),
    };

    // R is at most M, and not 0 under a version not 0.
    pub fn within(self) -> bool
        ensures { result ≡ last_within self }
    {
        (self.number.0 <= M) & ((self.version.0 == 0) | (0 < self.number.0))
    }
}

impl Message {
    pub const NONE: Message = Message {
        version: Version(0),
        number: Number(0),
        tcd: 0,
        n: 0,
        tbn: 0,
        held: 0,
        u: 0,
        map: 0,
        stamp: 0,
    };

    pub fn within(self, clock: u64) -> bool
        ensures { result ≡ message_within clock self }
    {
        let number = self.number;
        number.within()
            & code_of(self.tcd).is_user()
            & several(self.n as u32, self.tbn, self.u as u32)
            & is_partial(self.map, self.tbn)
            & (self.held as u32 == held(self.map))
            & (self.stamp <= clock)
    }
}

impl Heard {
    pub const NONE: Heard = Heard {
        stamp: 0,
        timeout: 0,
    };
}

// What can be heard at another time, alive or not: a sender's record, and its words (crate words).
pub trait Listened {
    ghost use Rattle.state.specs.declared.Heard.{Heard};

    ghost heard_as: { Self → Bool → Heard → Self };

    fn with_heard(self, alive: bool, heard: Heard) -> Self
        ensures { result ≡ heard_as self alive heard };
}

impl Listened for Sender {
    ghost heard_as = { with_heard };

    fn with_heard(mut self, alive: bool, heard: Heard) -> Sender {
        self.alive = alive;
        self.heard = heard;
        self
    }
}

impl Sender {
    pub const NONE: Sender = Sender {
        address: Address::NONE,
        last: Last::NONE,
        open: false,
        message: Message::NONE,
        alive: false,
        heard: Heard::NONE,
    };

    // A sender at setup: not heard, nothing open, nothing delivered.
    pub fn new(address: Address) -> Sender
        ensures { result ≡ new_sender address }
    {
        let mut new = Sender::NONE;
        new.address = address;
        new
    }

    pub fn with_message(mut self, open: bool, message: Message) -> Sender
        ensures { result ≡ with_message self «open» message }
    {
        self.open = open;
        self.message = message;
        self
    }

    pub fn with_last(mut self, last: Last) -> Sender
        ensures { result ≡ with_last self last }
    {
        self.last = last;
        self
    }

    pub fn within(self, clock: u64) -> bool
        ensures { result ≡ sender_within clock self }
    {
        let address = self.address;
        let last = self.last;
        address.within()
            & last.within()
            & self.message_within(clock)
            & (!self.alive | (self.heard.stamp <= clock))
    }

    // Only an open message is looked at.
    fn message_within(self, clock: u64) -> bool
        ensures { result ≡ (not self.«open» || message_within clock self.message) }
    {
        let message = self.message;
        if self.open {
            return message.within(clock);
        }
        true
    }
}

impl Receiver {
    // How many senders there may be.
    pub const PLACES: usize = 16;

    // The octets of storage that each has.
    pub const AREA: usize = MOST_OCTETS;

    // The last ms that the clock may show.
    pub const CLOCK_MOST: u64 = 1_099_511_627_776;

    pub const N1_MOST: u16 = 1_024;

    pub const DROP_TIME_MOST: u32 = 600_000;

    // What a refused setup returns: no senders.
    pub fn empty() -> Self
        ensures { result ≡ empty_receiver }
    {
        Receiver {
            test: false,
            n1: 1,
            t: 1,
            clock: 0,
            count: 0,
            groups: Groups::NONE,
            senders: [Sender::NONE; Receiver::PLACES],
        }
    }

    // Number 9: whether the state is within its limits.
    pub fn within(self) -> bool
        ensures { result ≡ valid self }
    {
        let look = self.look(Address::NONE);
        look.valid
    }

    // The settings, the clock and the count; of the states without senders only the empty one passes, at any time.
    fn settings_within(self) -> bool
        ensures { result ≡ settings_within self }
    {
        let groups = self.groups;
        (self.clock <= Receiver::CLOCK_MOST)
            & (self.count as usize <= Receiver::PLACES)
            & ((1 <= self.n1) & (self.n1 <= Receiver::N1_MOST))
            & ((1 <= self.t) & (self.t <= Receiver::DROP_TIME_MOST))
            & groups.within()
            & ((0 < self.count)
                | (!self.test & (self.n1 == 1) & (self.t == 1) & (groups.count == 0)))
    }

    // For the maintenance page: how many pieces of the sender at a place are held, the number kept. Nothing is counted, and
    // 9 is not judged.
    pub fn held(self, place: u8) -> u8
        ensures { result ≡ held_at self place }
    {
        if self.count <= place {
            return 0;
        }
        let Some(s) = self.senders.get(place as usize) else {
            return 0;
        };
        if s.open { s.message.held } else { 0 }
    }

    // One pass over the table, for the calls that need both: whether the state is within its limits, and if it is, at
    // which place the sender with this address stands; the count if none has it.
    pub fn look(self, a: Address) -> Look
        ensures { result ≡ look_at self a }
    {
        let count = self.count;
        if Receiver::PLACES < count as usize {
            return Look::OUTSIDE;
        }
        let clock = self.clock;
        let mut valid = self.settings_within();
        let mut at = 0;
        let mut seen = [0u32; Receiver::PLACES];
        for (i, s) in self.senders[..count as usize].iter().enumerate() {
            let key = s.address.key();
            valid = valid & (s.within(clock) & fresh(&seen, key));
            seen[i] = key;
            at = Look::next_place(at, i as u8, s.address == a);
        }
        if !valid {
            return Look::OUTSIDE;
        }
        Look { valid, at }
    }
}

// What one pass over the table finds. No Option of a place: each call hands both to the rows of its refusals, which
// would take an Option apart again.
#[derive(Clone, Copy, PartialEq, Eq)]
pub struct Look {
    pub valid: bool,
    pub at: u8,
}

impl Look {
    // A state outside its limits.
    pub const OUTSIDE: Look = Look {
        valid: false,
        at: 0,
    };

    // The place that was found, once the sender at place i was looked at too; how many were looked at if it was none of
    // them.
    fn next_place(at: u8, i: u8, here: bool) -> u8
        requires { i < senders_most }
        ensures { result ≡ cond (ltb at i) at (cond here i (i + 1)) }
    {
        if at < i {
            return at;
        }
        if here { i } else { i + 1 }
    }
}

// Whether none of the keys is this one. Places that hold none yet are 0, and no sender's key is: so the count is
// constant, and all are compared at once.
pub fn fresh(seen: &[u32; Receiver::PLACES], key: u32) -> bool
    ensures { result ≡ new_key seen.now senders_most key }
{
    let mut new = true;
    for other in seen.iter() {
        new = new & (*other != key);
    }
    new
}
