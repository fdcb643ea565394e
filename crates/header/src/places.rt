// Where each field of the header starts: the table of specs/Places.antt, for the code.

pub const H_TYPE: usize = 0;

pub const ML: usize = 4;

pub const DOMAIN: usize = 8;

pub const DATA_FIELD: usize = 9;

pub const NODE: usize = 10;

pub const DA: usize = 12;

pub const V_SEQ: usize = 16;

pub const SEQ: usize = 20;

pub const M_CTL: usize = 24;

pub const INQ_ID: usize = 28;

pub const TCD: usize = 40;

pub const VER: usize = 42;

pub const GTID: usize = 44;

pub const MODE: usize = 52;

pub const PVER: usize = 54;

pub const PRI: usize = 55;

pub const CBN: usize = 56;

pub const TBN: usize = 57;

pub const BSIZE: usize = 58;

pub const FUI: usize = 60;
