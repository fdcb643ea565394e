// The ADP header (5.1): read from a packet and written into a buffer, by value.
//
// Every function is total. An octet past the end of a packet reads as 0, and a buffer that is shorter than a header
// stays as it is. Which values are admitted is said in `codes`; reading and writing take any.
#![tactic(auto)]

ghost use Rattle.std.specs.Prelude.{◌≡◌, eqb};
ghost use Rattle.header.specs.Head.{value_at, given_of, cut_of, head_of, headed, is_fixed, length_outside, common_within};
ghost use Rattle.header.specs.Places.Field.{inq_id};
ghost use Rattle.header.specs.private.Filled.{fill, front_slots, middle_slots, back_slots};

pub mod codes;
pub mod places;

use crate::codes::{DataField, Node, is_mode, is_pri};
use octets::{lay, read1, read2, read4, read8, write1, write2, write4};
use ring::{Number, Version};

pub const SIZE: usize = 64;

// "NUXM" in ASCII
const NUXM: u32 = 0x4e55_584d;

// What the caller gives for every piece of a message: all of Table 7 but the fixed fields and what the cut makes.
#[repr(C)]
#[derive(Clone, Copy, PartialEq, Eq)]
pub struct Given {
    pub field: DataField,
    pub node: Node,
    pub da: u32,
    pub version: Version,
    pub number: Number,
    pub mctl: u32,
    pub tcd: u16,
    pub mode: u16,
    pub pri: u8,
}

// What the cut makes: message length + 64, PDU length, piece number from 1, number of pieces.
#[derive(Clone, Copy, PartialEq, Eq)]
pub struct Cut {
    pub ml: u32,
    pub bsize: u16,
    pub cbn: u8,
    pub tbn: u8,
}

#[derive(Clone, Copy, PartialEq, Eq)]
pub struct Head {
    pub given: Given,
    pub cut: Cut,
}

// ---- reading

#[tactic(auto, unfolding(crate::specs::Head::head_of))]
pub fn read_head(packet: &[u8]) -> Head
    ensures { result ≡ head_of packet.now }
{
    Head {
        given: read_given(packet),
        cut: read_cut(packet),
    }
}

fn read_given(packet: &[u8]) -> Given
    ensures { result ≡ given_of packet.now }
{
    Given {
        field: DataField(read1(packet, places::DATA_FIELD)),
        node: Node(read2(packet, places::NODE)),
        da: read4(packet, places::DA),
        version: Version(read4(packet, places::V_SEQ)),
        number: Number(read4(packet, places::SEQ)),
        mctl: read4(packet, places::M_CTL),
        tcd: read2(packet, places::TCD),
        mode: read2(packet, places::MODE),
        pri: read1(packet, places::PRI),
    }
}

fn read_cut(packet: &[u8]) -> Cut
    ensures { result ≡ cut_of packet.now }
{
    Cut {
        ml: read4(packet, places::ML),
        bsize: read_bsize(packet),
        cbn: read1(packet, places::CBN),
        tbn: read1(packet, places::TBN),
    }
}

// The PDU's length alone, for whoever judges it before the rest of the header is there.
pub fn read_bsize(packet: &[u8]) -> u16
    ensures { result ≡ (cut_of packet.now).bsize }
{
    read2(packet, places::BSIZE)
}

// Whether every field that Table 7 fixes holds what it fixes.
#[tactic(auto, unfolding(crate::specs::Head::is_fixed))]
pub fn is_fixed(packet: &[u8]) -> bool
    ensures { result ≡ is_fixed packet.now }
{
    (read4(packet, places::H_TYPE) == NUXM)
        & (read1(packet, places::DOMAIN) == 0)
        & no_inquiry(packet)
        & (read2(packet, places::VER) == 0)
        & (read8(packet, places::GTID) == 0)
        & (read1(packet, places::PVER) == 1)
        & (read4(packet, places::FUI) == 0)
}

// INQ_ID has 12 octets, more than the widest number.
fn no_inquiry(packet: &[u8]) -> bool
    ensures { result ≡ eqb (value_at packet.now inq_id) 0 }
{
    (read8(packet, places::INQ_ID) == 0) & (read4(packet, places::INQ_ID + 8) == 0)
}

// ---- what every PDU is judged by

// Whether a PDU of k octets is too short, too long, or of another length than its BSIZE.
pub fn length_outside(least: usize, most: usize, k: usize, h: Head) -> bool
    ensures { result ≡ length_outside least most k h }
{
    (k < least) | (most < k) | (k != h.cut.bsize as usize)
}

// The fixed fields, PRI and MODE.
pub fn common_within(packet: &[u8], h: Head) -> bool
    ensures { result ≡ common_within packet.now h }
{
    is_fixed(packet) & is_pri(h.given.pri) & is_mode(h.given.mode)
}

// ---- writing

// Writes a header at the front of a buffer that has room for one. The buffer may be slow memory: each field, a fixed
// one too, is stored once, in Table 7's order, so that no octet is stored twice or read, and all rise. No contract says
// that; bench/stores shows it.
pub fn write_head(buffer: &mut [u8], h: Head)
    ensures { buffer.new ≡ headed buffer.old h }
{
    if SIZE <= buffer.len() {
        write_front(buffer, h);
        write_middle(buffer, h);
        write_back(buffer, h);
    }
}

#[tactic(auto, unfolding(crate::specs::private::Filled::fill))]
fn write_front(buffer: &mut [u8], h: Head)
    ensures { buffer.new ≡ fill (front_slots h) buffer.old }
{
    write4(buffer, places::H_TYPE, NUXM);
    write4(buffer, places::ML, h.cut.ml);
    write1(buffer, places::DOMAIN, 0);
    write1(buffer, places::DATA_FIELD, h.given.field.0);
    write2(buffer, places::NODE, h.given.node.0);
    write4(buffer, places::DA, h.given.da);
}

fn write_middle(buffer: &mut [u8], h: Head)
    ensures { buffer.new ≡ fill (middle_slots h) buffer.old }
{
    write4(buffer, places::V_SEQ, h.given.version.0);
    write4(buffer, places::SEQ, h.given.number.0);
    write4(buffer, places::M_CTL, h.given.mctl);
    lay(buffer, places::INQ_ID, &[0u8; 12]);
    write2(buffer, places::TCD, h.given.tcd);
    write2(buffer, places::VER, 0);
    lay(buffer, places::GTID, &[0u8; 8]);
}

#[tactic(auto, unfolding(crate::specs::private::Filled::fill))]
fn write_back(buffer: &mut [u8], h: Head)
    ensures { buffer.new ≡ fill (back_slots h) buffer.old }
{
    write2(buffer, places::MODE, h.given.mode);
    write1(buffer, places::PVER, 1);
    write1(buffer, places::PRI, h.given.pri);
    write1(buffer, places::CBN, h.cut.cbn);
    write1(buffer, places::TBN, h.cut.tbn);
    write2(buffer, places::BSIZE, h.cut.bsize);
    write4(buffer, places::FUI, 0);
}
