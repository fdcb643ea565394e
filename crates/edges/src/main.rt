// Both sides of each edge: reads the calls of docs/EDGES.md as fields from standard input, makes each on the proved
// functions, and prints its lines. The octets of every PDU come from outside, so that nothing here is written by what
// it tests.
#![tactic(auto)]

mod calls;

ghost use Rattle.std.specs.Prelude.{◌≤◌};

use calls::call;
use edges_calls::look;
use edges_lines::Field;
use edges_multicast::{ENTRIES, table_call};
use io::read_full;
use octets::{from, read1, read2};
use state::Receiver;

// The number of standard input.
const STDIN: i32 = 0;

// The octets in front of a field's contents: its tag and its length.
const HEAD: usize = 3;

// The most octets of a field, with its head.
const FIELD: usize = 65_538;

fn main() {
    // "The storage: 262,144 octets (16 × 16,384)."
    let mut storage = [0u8; 262_144];
    let mut versions = [0u32; ENTRIES];
    let mut numbers = [0u32; ENTRIES];
    let mut field = [0u8; FIELD];
    run(&mut storage, &mut versions, &mut numbers, &mut field);
}

// Makes the call of each field.
fn run(
    storage: &mut [u8],
    versions: &mut [u32; ENTRIES],
    numbers: &mut [u32; ENTRIES],
    field: &mut [u8; FIELD],
) {
    let mut w = Receiver::empty();
    // A proved loop has to end, and nothing says that an input does: no run uses these turns up.
    for _ in 0..u64::MAX {
        let read = read_field(field);
        if read == 0 {
            return;
        }
        let octets = &field[0..read];
        let next = Field {
            tag: read1(octets, 0),
            contents: from(octets, HEAD),
        };
        look(w, storage, next);
        table_call(w, versions, numbers, next);
        w = call(w, storage, next);
    }
}

// Reads the next field to the front of the buffer and answers how many octets it is, 0 at the input's end.
fn read_field(field: &mut [u8; FIELD]) -> usize
    ensures { result ≤ 65538 }
{
    if read_full(STDIN, &mut field[..HEAD]) < HEAD {
        return 0;
    }
    let more = read2(field, 1) as usize;
    HEAD + read_full(STDIN, &mut field[HEAD..HEAD + more])
}
