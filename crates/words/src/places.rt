// Where each word stands: the table of specs/Words.antt, for the code.

pub const TEST: usize = 0;

pub const N1: usize = 1;

pub const T: usize = 2;

pub const CLOCK: usize = 3;

pub const COUNT: usize = 4;

// how many groups there are, and the groups
pub const GROUP_COUNT: usize = 5;

pub const GROUPS: usize = 6;

// where the first sender's words begin
pub const SENDERS: usize = 7;

// how many words each sender has
pub const EACH: usize = 10;

// how many words a state has
pub const WORDS: usize = 167;

// ---- within one sender's words

pub const ADDRESS: usize = 0;

pub const LAST: usize = 1;

pub const OPEN: usize = 2;

pub const MESSAGE: usize = 3;

pub const CUT: usize = 4;

pub const MAP: usize = 5;

pub const STAMP: usize = 6;

pub const ALIVE: usize = 7;

pub const HEARD: usize = 8;

pub const TIMEOUT: usize = 9;
