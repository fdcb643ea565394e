// The calls of docs/EDGES.md that leave the state as it is, each with its lines: the question, how many pieces are
// held, the cutter, the part that is handed over, the next field, the state shown, a fault section; and the line of a
// message call, which hands over a part too.
//
// No contract can say what is written, so these functions have none: they answer nothing, and nothing is lent to them
// to write.
#![tactic(auto)]

use answers::{Answer, Where};
use capture_fields::{Kind, Unread, next_field};
use cut::cutter::cutter;
use edges_fault::fault_call;
use edges_lines::calls::{message_line, question_line, written_line};
use edges_lines::record::state_lines;
use edges_lines::{Field, line, octets_line, sum, title};
use header::codes::{DataField, Node};
use header::{Given, SIZE};
use octets::{from, read1, read2, read4, read8, run};
use question::question;
use receiver::part::part;
use refusal::number_in;
use ring::{Number, Version};
use state::Receiver;

// The call of a field by its tag, none for any other.
pub fn look(w: Receiver, storage: &[u8], field: Field) {
    let contents = field.contents;
    match field.tag {
        b'#' => title(contents),
        b'Q' => question_call(w),
        b'H' => held_call(w, contents),
        b'W' => state_lines(w),
        b'K' => cut_call(contents),
        b'R' => part_call(storage, contents),
        b'F' => field_call(contents),
        _ => fault_call(field),
    }
}

// ---- the question

fn question_call(w: Receiver) {
    question_line(question(w), w);
}

// ---- how many pieces are held

fn held_call(w: Receiver, contents: &[u8]) {
    line(b'H', &[w.held(read1(contents, 0)) as u64]);
}

// ---- the cutter

// The buffer has as many octets as the call says, "each of them 170 before the call".
fn cut_call(contents: &[u8]) {
    let mut buffer = [170u8; 1_473];
    let room = (read2(contents, 0) % 1_474) as usize;
    cut_into(&mut buffer[..room], contents);
}

fn cut_into(buffer: &mut [u8], contents: &[u8]) {
    let cut = cutter(
        given_in(contents),
        from(contents, 29),
        read2(contents, 2),
        read1(contents, 4),
        buffer,
    );
    cutting_lines(number_in(cut), cut.unwrap_or(0), buffer);
}

fn given_in(contents: &[u8]) -> Given {
    Given {
        field: DataField(read1(contents, 5)),
        node: Node(read2(contents, 6)),
        da: read4(contents, 8),
        version: Version(read4(contents, 12)),
        number: Number(read4(contents, 16)),
        mctl: read4(contents, 20),
        tcd: read2(contents, 24),
        mode: read2(contents, 26),
        pri: read1(contents, 28),
    }
}

fn cutting_lines(number: u8, length: u16, buffer: &[u8]) {
    written_line(b'K', number, length, buffer);
    if number == 0 {
        octets_line(b'k', run(buffer, 0, SIZE));
    }
}

// ---- part

fn part_call(storage: &[u8], contents: &[u8]) {
    let lent = read4(contents, 17) as usize;
    let handed = part(
        where_in(contents),
        from(contents, 21),
        run(storage, 0, lent),
    );
    line(b'R', &[handed.len() as u64, sum(handed)]);
}

fn where_in(contents: &[u8]) -> Where {
    match read1(contents, 0) {
        0 => Where::Nothing,
        1 => Where::Packet,
        _ => Where::Storage {
            start: read8(contents, 1) as usize,
            length: read8(contents, 9) as usize,
        },
    }
}

// ---- the line of a message call

// Of its answer, and of the storage and the packet that were lent to it.
pub fn message_lines(tag: u8, a: Answer, storage: &[u8], packet: &[u8]) {
    let delivered = part(a.lies, packet, storage);
    let counted = [delivered.len() as u64, sum(delivered), sum(storage)];
    message_line(tag, a.outcome, a.held, a.dropped, counted);
}

// ---- the next field

fn field_call(octets: &[u8]) {
    match next_field(octets) {
        Ok(None) => line(b'F', &[0, 0, 0, 7]),
        Err(Unread::Cut) => line(b'F', &[1, 0, 0, 7]),
        Err(Unread::Bad) => line(b'F', &[2, 0, 0, 7]),
        Ok(Some(field)) => { whole_line(field.kind, capture_fields::contents(octets, field.size)) }
    }
}

fn whole_line(kind: Kind, contents: &[u8]) {
    line(
        b'F',
        &[3, kind as u64, contents.len() as u64, sum(contents)],
    );
}
