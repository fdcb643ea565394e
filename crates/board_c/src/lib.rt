// The calls of include/adp.h, exported for C: each is the call of the same name of a library of Rattle, with the same clauses.
#![tactic(auto)]

ghost use Rattle.std.specs.Prelude.{◌≡◌, length};
ghost use Rattle.board.specs.Calls.{setup_for, setup_words, message_for, storage_for, tally_for, multicast_for, tables_for, alive_for, clock_for, question_for, held_for, cutting_of, reported, options_for, written_of};
ghost use Rattle.cut.specs.Cutter.{cutter_answer, cutter_buffer};
ghost use Rattle.fault.specs.Reading.{reading_of, dead_at, error_at};
ghost use Rattle.fault.specs.Writing.{writing_of, buffer_of};
ghost use Rattle.multicast.specs.Lent.{tables};
ghost use Rattle.rules.specs.calls.Alive.{alive_answer};
ghost use Rattle.rules.specs.calls.Clock.{clock_answer};
ghost use Rattle.rules.specs.calls.Message.{message_answer};
ghost use Rattle.words.specs.Words.{state_in, left_by};

use answers::Setup;
use board::{Cutting, Missing, Options, Report, Ticked, Told, Written};
use fault::{Error, NAME};
use header::Given;

#[unsafe(no_mangle)]
pub extern "C" fn adp_setup(state: &mut [u64], settings: Setup) -> u8
    ensures answer { result ≡ setup_for state.old settings }
    ensures left { state.new ≡ setup_words state.old settings }
{
    board_setup::adp_setup(state, settings)
}

#[unsafe(no_mangle)]
pub extern "C" fn adp_message(state: &mut [u64], storage: &mut [u8], packet: &[u8]) -> Told
    ensures answer { result ≡ message_for state.old (length storage.old) packet.now }
    ensures left { state.new ≡ left_by state.old (message_answer (state_in state.old) (length storage.old) packet.now).state }
    ensures stored { storage.new ≡ storage_for state.old storage.old packet.now }
{
    board_message::adp_message(state, storage, packet)
}

#[unsafe(no_mangle)]
pub extern "C" fn adp_message_tallied(
    state: &mut [u64],
    storage: &mut [u8],
    packet: &[u8],
    tally: &mut [u32; 2],
) -> Told
    ensures answer { result ≡ message_for state.old (length storage.old) packet.now }
    ensures left { state.new ≡ left_by state.old (message_answer (state_in state.old) (length storage.old) packet.now).state }
    ensures stored { storage.new ≡ storage_for state.old storage.old packet.now }
    ensures tallied { tally.new ≡ tally_for tally.old state.old (length storage.old) packet.now }
{
    board_tallied::adp_message_tallied(state, storage, packet, tally)
}

#[unsafe(no_mangle)]
pub extern "C" fn adp_multicast(
    state: &[u64],
    versions: &mut [u32],
    numbers: &mut [u32],
    group: u8,
    packet: &[u8],
) -> Told
    ensures answer { result ≡ multicast_for state.now (tables versions.old numbers.old) group packet.now }
    ensures versions { versions.new ≡ (tables_for state.now (tables versions.old numbers.old) group packet.now).versions }
    ensures numbers { numbers.new ≡ (tables_for state.now (tables versions.old numbers.old) group packet.now).numbers }
{
    board_multicast::adp_multicast(state, versions, numbers, group, packet)
}

#[unsafe(no_mangle)]
pub extern "C" fn adp_alive(state: &mut [u64], packet: &[u8]) -> u8
    ensures answer { result ≡ alive_for state.old packet.now }
    ensures left { state.new ≡ left_by state.old (alive_answer (state_in state.old) packet.now).state }
{
    board_alive::adp_alive(state, packet)
}

#[unsafe(no_mangle)]
pub extern "C" fn adp_clock(state: &mut [u64], ms: u64) -> Ticked
    ensures answer { result ≡ clock_for state.old ms }
    ensures left { state.new ≡ left_by state.old (clock_answer (state_in state.old) ms).state }
{
    board_clock::adp_clock(state, ms)
}

#[unsafe(no_mangle)]
pub extern "C" fn adp_question(state: &[u64]) -> Missing
    ensures { result ≡ question_for state.now }
{
    board_question::adp_question(state)
}

#[unsafe(no_mangle)]
pub extern "C" fn adp_held(state: &[u64], place: u8) -> u8
    ensures { result ≡ held_for state.now place }
{
    board_held::adp_held(state, place)
}

#[unsafe(no_mangle)]
pub extern "C" fn adp_cut(
    given: Given,
    message: &[u8],
    u: u16,
    piece: u8,
    buffer: &mut [u8],
) -> Cutting
    ensures answer { result ≡ cutting_of (cutter_answer given message.now u piece (length buffer.old)) }
    ensures written { buffer.new ≡ cutter_buffer given message.now u piece buffer.old }
{
    board_cut::adp_cut(given, message, u, piece, buffer)
}

#[unsafe(no_mangle)]
pub extern "C" fn adp_fault_read(section: &[u8]) -> Report
    ensures { result ≡ reported (reading_of section.now) }
{
    board_fault::adp_fault_read(section)
}

#[unsafe(no_mangle)]
pub extern "C" fn adp_fault_dead(section: &[u8], x: u32) -> bool
    ensures { result ≡ dead_at section.now x }
{
    board_fault::adp_fault_dead(section, x)
}

#[unsafe(no_mangle)]
pub extern "C" fn adp_fault_error(section: &[u8], index: u32) -> Error
    ensures { result ≡ error_at section.now index }
{
    board_fault::adp_fault_error(section, index)
}

#[unsafe(no_mangle)]
pub extern "C" fn adp_fault_options(section: &[u8]) -> Options
    ensures { result ≡ options_for section.now }
{
    board_fault::adp_fault_options(section)
}

#[unsafe(no_mangle)]
pub extern "C" fn adp_fault_write(
    modules: u32,
    bits: &[u8],
    errors: &[u16],
    name: &[u8; NAME],
    options: &[u8],
    buffer: &mut [u8],
) -> Written
    ensures answer { result ≡ written_of (writing_of modules bits.now errors.now options.now (length buffer.old)) }
    ensures written { buffer.new ≡ buffer_of modules bits.now errors.now name.now options.now buffer.old }
{
    board_fault::adp_fault_write(modules, bits, errors, name, options, buffer)
}
