// Runs a capture: reads tagged fields from standard input, one at a time, and writes the line of each to standard
// output.
//
// Memory does not grow with the input: one field is held, and 16,384 octets for each of at most four senders.
#![tactic(auto)]

ghost use Rattle.std.specs.Prelude.{◌≤◌};

use capture_fields::HEAD;
use capture_lines::{Line, Text, text_of};
use capture_run::{lent, line_in, next_turn, wanted};
use state::Receiver;

// The numbers of standard input and standard output.
const STDIN: i32 = 0;

const STDOUT: i32 = 1;

// A setup of the program has at most four senders.
const ROOM: usize = 4 * Receiver::AREA;

// The most octets of a field, with its head.
const FIELD: usize = 65_538;

fn main() {
    let mut storage = [0u8; ROOM];
    let mut field = [0u8; FIELD];
    let mut state = Receiver::empty();
    // A proved loop has to end, and nothing says that an input does: no run uses these turns up.
    for _turn in 0..u64::MAX {
        let read = read_field(&mut field);
        let room = lent(state.count, ROOM);
        let taken = next_turn(state, &mut storage[..room], &field[..read]);
        if let Some(line) = line_in(&taken)
            && !write_line(line)
        {
            return;
        }
        let Ok(Some(next)) = taken else {
            return;
        };
        state = next.state;
    }
}

// Reads the next field to the front of the buffer, however the reads are cut up, and answers how many octets it is.
// They are fewer than the field has only where the input ends, and only the head where that is bad.
fn read_field(field: &mut [u8; FIELD]) -> usize
    ensures { result ≤ 65538 }
{
    let head = io::read_full(STDIN, &mut field[..HEAD]);
    let more = wanted(&field[..head]);
    if more == 0 {
        return head;
    }
    head + io::read_full(STDIN, &mut field[HEAD..HEAD + more])
}

// Whether the line was written.
fn write_line(line: Line) -> bool {
    let Text { octets, length } = text_of(line);
    io::write_all(STDOUT, &octets[..length])
}
