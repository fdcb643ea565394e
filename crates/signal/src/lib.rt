// The alive header (5.3, Table 8), which stands behind the ADP header of an alive signal: what 01 looks at, read by
// value.
//
// Every function is total. An octet past the end of a packet reads as 0.
#![tactic(auto)]

ghost use Rattle.std.specs.Prelude.{◌≡◌};
ghost use Rattle.signal.specs.Alive.{body_of, is_body, group_of};

pub mod places;

use octets::{read1, read4};

// The octets of the ADP header and the alive header.
pub const SIZE: usize = 128;

// The most octets of an alive PDU.
pub const MOST: usize = 1_472;

#[derive(Clone, Copy)]
pub struct Body {
    // al_tm_out, in seconds
    pub timeout: u32,
    pub mode: u8,
    pub protocol: u8,
    pub ver: u8,
}

impl Body {
    #[tactic(auto, unfolding(crate::specs::Alive::is_body))]
    pub fn within(self) -> bool
        ensures { result ≡ is_body self }
    {
        (self.protocol == 4) & (self.ver == 1) & ((1 <= self.mode) & (self.mode <= 3))
    }
}

#[tactic(auto, unfolding(crate::specs::Alive::body_of))]
pub fn read_body(packet: &[u8]) -> Body
    ensures { result ≡ body_of packet.now }
{
    Body {
        timeout: read4(packet, places::AL_TM_OUT),
        mode: read1(packet, places::AL_MODE),
        protocol: read1(packet, places::AL_PROTOCOL),
        ver: read1(packet, places::AL_VER),
    }
}

// The group that a destination address names.
pub fn group(da: u32) -> u16
    ensures { result ≡ group_of da }
{
    (da % 65_536) as u16
}
