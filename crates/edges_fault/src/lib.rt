// The calls of docs/EDGES.md on a fault section, each with its line: G reads it, B asks for a module, L for an error, O
// for the options, Z writes one.
//
// No contract can say what is printed, so these functions have none: they answer nothing, and nothing is lent to them
// to write.
#![tactic(auto)]

use edges_lines::calls::written_line;
use edges_lines::{Field, line, line_with_eight, sum};
use fault::NAME;
use fault::reading::{Report, error_at, is_dead, name_at, options, read_section};
use fault::writing::write_section;
use octets::{from, read2, read4, run};
use refusal::{Refusal, number_in};
use std::array;

// "A buffer of up to 4,096 octets is at hand for Z".
const ROOM: usize = 4_096;

// More 16-bit numbers than a field has room for.
const NUMBERS: usize = 32_768;

// The call of a field by its tag, none for any other.
pub fn fault_call(field: Field) {
    let contents = field.contents;
    match field.tag {
        b'G' => report_line(read_section(contents)),
        b'B' => dead_line(is_dead(from(contents, 4), read4(contents, 0))),
        b'L' => error_line(from(contents, 4), read4(contents, 0)),
        b'O' => options_line(options(contents)),
        b'Z' => write_call(contents),
        _ => (),
    }
}

// On a refusal all but its number is 0.
fn report_line(answer: Result<Report, Refusal>) {
    match answer {
        Ok(r) => line_with_eight(
            b'G',
            &[0, r.modules as u64, r.errors as u64, r.options as u64],
            &r.name,
        ),
        Err(refusal) => line_with_eight(b'G', &[refusal.number() as u64, 0, 0, 0], &[0; NAME]),
    }
}

fn dead_line(dead: bool) {
    line(b'B', &[dead as u64]);
}

fn error_line(section: &[u8], k: u32) {
    let e = error_at(section, k);
    line(b'L', &[e.module as u64, e.error as u64]);
}

fn options_line(part: &[u8]) {
    line(b'O', &[part.len() as u64, sum(part)]);
}

// ---- writing

// "The buffer's octets are each 170 before the call."
fn write_call(contents: &[u8]) {
    let mut buffer = [170u8; ROOM];
    let room = read2(contents, 0) as usize % (ROOM + 1);
    write_into(&mut buffer[..room], contents);
}

fn write_into(buffer: &mut [u8], contents: &[u8]) {
    let octets = read2(contents, 6) as usize;
    let behind = from(contents, 8 + octets);
    let count = read2(behind, 0) as usize % NUMBERS;
    let rest = from(behind, 2 + 2 * count);
    let numbers: [u16; NUMBERS] = array::from_fn(|i| read2(behind, 2 + 2 * i));
    let written = write_section(
        read4(contents, 2),
        run(contents, 8, octets),
        &numbers[..count],
        name_at(rest, 0),
        from(rest, NAME),
        buffer,
    );
    written_line(b'Z', number_in(written), written.unwrap_or(0), buffer);
}
