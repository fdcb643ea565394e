// The delivered octets, as a returned part of one of two lent slices. Nothing is copied.
ghost use Rattle.std.specs.Prelude.{◌≡◌};
ghost use Rattle.rules.specs.calls.Part.{behind_header, stored_part, part_of};

use answers::Where;
use header::SIZE;
use octets::{from, run};

// A message of one piece: the packet behind its header.
pub fn behind_header(packet: &[u8]) -> &[u8]
    ensures { result.now ≡ behind_header packet.now }
{
    from(packet, SIZE)
}

// A message of several pieces: the storage from where it starts.
fn stored_part(storage: &[u8], start: usize, size: usize) -> &[u8]
    ensures { result.now ≡ stored_part storage.now start size }
{
    let part = run(storage, start, size);
    if part.len() < size { &part[..0] } else { part }
}

pub fn part<'a>(lies: Where, packet: &'a [u8], storage: &'a [u8]) -> &'a [u8]
    ensures { result.now ≡ part_of lies packet.now storage.now }
{
    match lies {
        Where::Nothing => &packet[..0],
        Where::Packet => behind_header(packet),
        Where::Storage { start, length } => stored_part(storage, start, length),
    }
}
