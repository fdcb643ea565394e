// Where what is looked at in the alive header starts: the table of specs/AlivePlaces.antt, for the code.

pub const AL_TM_OUT: usize = 84;

pub const AL_MODE: usize = 90;

pub const AL_PROTOCOL: usize = 91;

pub const AL_VER: usize = 105;
