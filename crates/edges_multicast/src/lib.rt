// The fields of docs/EDGES.md that are about the two lent tables, each with its lines: a setup clears them, M is the
// multicast call, e damages an entry, E shows them. None of them changes the state.
//
// No contract can say what is printed; what a field leaves of the tables is said in `Fields`.
#![tactic(auto)]

ghost use Rattle.std.specs.Prelude.{◌≡◌, length};
ghost use Rattle.multicast.specs.Lent.{tables};
ghost use Rattle.edges_multicast.specs.Fields.{lent_cast, cast_in, damaged_by, tables_by};

use answers::GroupAnswer;
use edges_lines::calls::multicast_line;
use edges_lines::{Field, line, sum, sum_of_numbers};
use groups::Group;
use multicast::multicast;
use octets::{from, read1, read2, read4, run};
use receiver::part::part;
use state::Receiver;

// "two of 1,040 entries each"
pub const ENTRIES: usize = 1_040;

// The octets in front of the PDU of a multicast call: how many entries of each table are lent, and the group.
const PDU: usize = 5;

// The call of a field by its tag, none for any other.
pub fn table_call(
    w: Receiver,
    versions: &mut [u32; ENTRIES],
    numbers: &mut [u32; ENTRIES],
    field: Field,
)
    ensures versions { versions.new ≡ (tables_by w (tables versions.old numbers.old) field.entry.tag field.entry.contents.now).versions }
    ensures numbers { numbers.new ≡ (tables_by w (tables versions.old numbers.old) field.entry.tag field.entry.contents.now).numbers }
{
    match field.tag {
        b'S' | b's' => {
            *versions = [0u32; ENTRIES];
            *numbers = [0u32; ENTRIES];
        }
        b'M' | b'm' => multicast_call(w, versions, numbers, field),
        b'e' => damage(versions, numbers, field.contents),
        b'E' => table_lines(versions, numbers),
        _ => (),
    }
}

// ---- the multicast call

// As many entries are lent as the field says; those behind them stay.
fn multicast_call(w: Receiver, versions: &mut [u32], numbers: &mut [u32], field: Field)
    requires { (length versions.old ≡ 1040) × (length numbers.old ≡ 1040) }
    ensures versions { versions.new ≡ (cast_in w (tables versions.old numbers.old) field.entry.contents.now).versions }
    ensures numbers { numbers.new ≡ (cast_in w (tables versions.old numbers.old) field.entry.contents.now).numbers }
{
    let of_versions = read2(field.contents, 0) as usize % (ENTRIES + 1);
    let of_numbers = read2(field.contents, 2) as usize % (ENTRIES + 1);
    lent_call(
        w,
        &mut versions[..of_versions],
        &mut numbers[..of_numbers],
        field,
    );
}

fn lent_call(w: Receiver, versions: &mut [u32], numbers: &mut [u32], field: Field)
    ensures versions { versions.new ≡ (lent_cast w (tables versions.old numbers.old) field.entry.contents.now).versions }
    ensures numbers { numbers.new ≡ (lent_cast w (tables versions.old numbers.old) field.entry.contents.now).numbers }
{
    let packet = from(field.contents, PDU);
    let group = Group(read1(field.contents, 4));
    let a = multicast(w, versions, numbers, group, packet);
    cast_line(field.tag, a, versions, numbers, packet);
}

// No storage is lent to this call: its part lies in the packet.
fn cast_line(tag: u8, a: GroupAnswer, versions: &[u32], numbers: &[u32], packet: &[u8]) {
    let delivered = part(a.lies, packet, run(packet, 0, 0));
    let counted = [
        delivered.len() as u64,
        sum(delivered),
        sum_of_numbers(versions),
        sum_of_numbers(numbers),
    ];
    multicast_line(tag, a.outcome, counted);
}

// ---- damage

fn damage(versions: &mut [u32; ENTRIES], numbers: &mut [u32; ENTRIES], contents: &[u8])
    ensures versions { versions.new ≡ (damaged_by (tables versions.old numbers.old) contents.now).versions }
    ensures numbers { numbers.new ≡ (damaged_by (tables versions.old numbers.old) contents.now).numbers }
{
    let place = read2(contents, 0) as usize % ENTRIES;
    versions[place] = read4(contents, 2);
    numbers[place] = read4(contents, 6);
}

// ---- the tables shown

fn table_lines(versions: &[u32; ENTRIES], numbers: &[u32; ENTRIES]) {
    line(b'E', &[shown(versions, numbers) as u64]);
    entry_lines(versions, numbers);
}

// "how many of the 1,040 places have a version or a number that is not 0"
fn shown(versions: &[u32; ENTRIES], numbers: &[u32; ENTRIES]) -> usize {
    versions
        .iter()
        .zip(numbers)
        .filter(|(version, number)| is_shown(**version, **number))
        .count()
}

// "an e line for each of them, in order of place"
fn entry_lines(versions: &[u32; ENTRIES], numbers: &[u32; ENTRIES]) {
    for (place, (version, number)) in versions.iter().zip(numbers).enumerate() {
        entry_line(place, *version, *number);
    }
}

fn entry_line(place: usize, version: u32, number: u32) {
    if is_shown(version, number) {
        line(b'e', &[place as u64, version as u64, number as u64]);
    }
}

fn is_shown(version: u32, number: u32) -> bool {
    (version != 0) | (number != 0)
}
