// A receiver's state in words of 64 bits that a board lends, so that it is changed where it stands. On the other side
// stands C: every word means something, while a lent struct might hold an octet that is no bool, which no contract
// covers.
//
// Every function is total: it takes any words, as many as there are. Which words are a state, and which state they are,
// is said in specs/Words.antt.
#![tactic(auto)]

ghost use Rattle.std.specs.Prelude.{◌≡◌, cond, ◌%◌, set as set_at};
ghost use Rattle.octets.specs.Run.{laid};
ghost use Rattle.state.specs.State.{no_message};
ghost use Rattle.words.specs.Words.{place, word, groups_in, groups_word, message_in, flag, record_at, record_words, record_of, joined_by, heard_as, pair as pair_of, cut_word};
ghost use Rattle.words.specs.Shown.{heard_shown, shown};

use groups::{Group, Groups};
use header::codes::{DataField, Node};
use ring::{Number, Version};
use state::{Address, Heard, Last, Listened, Message, Sender};

pub mod places;

// Four octets, and two.
pub const HALF: u64 = 4_294_967_296;

pub const QUARTER: u64 = 65_536;

// ---- one word

// The word at a place, 0 past the end.
pub fn at(words: &[u64], k: usize) -> u64
    ensures { result ≡ word words.now k }
{
    octets::at(words, k, 0)
}

// Puts a word down at a place, if there is one.
pub fn set(words: &mut [u64], k: usize, x: u64)
    ensures { words.new ≡ set_at words.old k x }
{
    octets::put(words, k, x);
}

// ---- the groups

// The groups, with a count that an octet holds.
pub fn groups(words: &[u64]) -> Groups
    ensures { result ≡ groups_in (word words.now 5 % 256) (word words.now 6) }
{
    let count = (at(words, places::GROUP_COUNT) % 256) as u8;
    let list = at(words, places::GROUPS).to_le_bytes().map(Group);
    Groups { count, list }
}

// The word of the groups.
pub fn groups_word(groups: Groups) -> u64
    ensures { result ≡ groups_word groups }
{
    u64::from_le_bytes(groups.list.map(|group| group.0))
}

// ---- one sender's words

#[derive(Clone, Copy, PartialEq, Eq)]
pub struct Record {
    // data field and node
    pub address: u64,
    // the last delivered version and number
    pub last: u64,
    // 1 where a message is open
    pub open: u64,
    // its version and number
    pub message: u64,
    // its code, length and unit, how many pieces are held, and of how many
    pub cut: u64,
    pub map: u64,
    pub stamp: u64,
    // 1 where the sender is alive
    pub alive: u64,
    // when it was heard, and after how many seconds of silence it is dead
    pub heard: u64,
    pub timeout: u64,
}

// Where the words of the sender at a place begin.
pub fn first_of(i: u8) -> usize
    ensures { result ≡ place i }
{
    places::SENDERS + (i as usize) * places::EACH
}

// The words of the sender at a place.
pub fn load(words: &[u64], i: u8) -> Record
    ensures { result ≡ record_at words.now i }
{
    let at = first_of(i);
    let Some(record) = words.get(at..at + places::EACH) else {
        return Record::NONE;
    };
    Record {
        address: record[places::ADDRESS],
        last: record[places::LAST],
        open: record[places::OPEN],
        message: record[places::MESSAGE],
        cut: record[places::CUT],
        map: record[places::MAP],
        stamp: record[places::STAMP],
        alive: record[places::ALIVE],
        heard: record[places::HEARD],
        timeout: record[places::TIMEOUT],
    }
}

// Puts the words of the sender at a place down.
pub fn put(words: &mut [u64], i: u8, r: Record)
    ensures { words.new ≡ laid words.old (place i) (record_words r) }
{
    let at = first_of(i);
    if at + places::EACH <= words.len() {
        words[at..at + places::EACH].copy_from_slice(&[
            r.address, r.last, r.open, r.message, r.cut, r.map, r.stamp, r.alive, r.heard,
            r.timeout,
        ]);
    }
}

// The words with what an alive signal changes of the sender.
impl Listened for Record {
    ghost heard_as = { heard_as };

    fn with_heard(mut self, alive: bool, h: Heard) -> Record {
        self.alive = alive as u64;
        self.heard = h.stamp;
        self.timeout = h.timeout as u64;
        self
    }
}

impl Record {
    pub const NONE: Record = Record {
        address: 0,
        last: 0,
        open: 0,
        message: 0,
        cut: 0,
        map: 0,
        stamp: 0,
        alive: 0,
        heard: 0,
        timeout: 0,
    };

    // The open message.
    fn message_of(self) -> Message
        ensures { result ≡ message_in self }
    {
        let version = Version((self.message / HALF) as u32);
        let number = Number((self.message % HALF) as u32);
        Message {
            version,
            number,
            tcd: (self.cut / (HALF * QUARTER)) as u16,
            n: (self.cut / HALF % QUARTER) as u16,
            tbn: (self.cut % 256) as u8,
            held: (self.cut / 256 % 256) as u8,
            u: (self.cut / QUARTER % QUARTER) as u16,
            map: self.map,
            stamp: self.stamp,
        }
    }

    fn open_message(self) -> Message
        ensures { result ≡ cond (flag self.«open») (message_in self) no_message }
    {
        if self.open == 1 {
            return self.message_of();
        }
        Message::NONE
    }

    fn alive_heard(self) -> Heard
        ensures { result ≡ heard_shown self }
    {
        if self.alive == 1 {
            return Heard {
                stamp: self.heard,
                timeout: (self.timeout % HALF) as u32,
            };
        }
        Heard::NONE
    }

    // What is looked at of the sender.
    pub fn sender(self) -> Sender
        ensures { result ≡ shown self }
    {
        let address = Address {
            field: DataField((self.address / QUARTER % 256) as u8),
            node: Node((self.address % QUARTER) as u16),
        };
        let last = Last {
            version: Version((self.last / HALF) as u32),
            number: Number((self.last % HALF) as u32),
        };
        let message = self.open_message();
        let heard = self.alive_heard();
        Sender {
            address,
            open: self.open == 1,
            alive: self.alive == 1,
            last,
            message,
            heard,
        }
    }

    // The words with what a message call changes of the sender.
    pub fn joined(mut self, s: Sender) -> Record
        ensures { result ≡ joined_by self s }
    {
        let last = s.last;
        let m = s.message;
        self.last = pair(last.version, last.number);
        self.open = s.open as u64;
        self.message = pair(m.version, m.number);
        self.cut = cut_of(m);
        self.map = m.map;
        self.stamp = m.stamp;
        self
    }

    // The words of a sender.
    pub fn of(s: Sender) -> Record
        ensures { result ≡ record_of s }
    {
        let mut r = Record::NONE.joined(s);
        let address = s.address;
        let heard = s.heard;
        r.address = address.key() as u64;
        r.with_heard(s.alive, heard)
    }
}

fn pair(version: Version, number: Number) -> u64
    ensures { result ≡ pair_of version.0 number.0 }
{
    version.0 as u64 * HALF + number.0 as u64
}

fn cut_of(m: Message) -> u64
    ensures { result ≡ cut_word m }
{
    m.tcd as u64 * (HALF * QUARTER)
        + m.n as u64 * HALF
        + m.u as u64 * QUARTER
        + m.held as u64 * 256
        + m.tbn as u64
}
