// Each public call once more, to tie its contract to the courses of specs/Course.antt: that it is a call of a course is
// shown from nothing but the contract of the function that it calls. A weaker contract would be refused here. No
// program calls these functions.
//
// The first equations of each contract are those of the call itself. A call that is lent no storage leaves any storage
// as it is.
#![tactic(auto)]

ghost use Rattle.std.specs.Prelude.{◌≡◌, List, ℕ, ◌*◌, length};
ghost use Rattle.refusal.specs.Numbers.{number_in};
ghost use Rattle.cut.specs.Cutter.{cutter_answer, cutter_buffer};
ghost use Rattle.fault.specs.Reading.{reading_of, dead_at, error_at, options_of};
ghost use Rattle.fault.specs.Section.{SectionOf};
ghost use Rattle.fault.specs.Writing.{writing_of, buffer_of};
ghost use Rattle.state.specs.Held.{held_at};
ghost use Rattle.rules.specs.calls.Alive.{alive_answer};
ghost use Rattle.rules.specs.calls.Clock.{clock_answer};
ghost use Rattle.rules.specs.calls.Message.{area, message_answer, message_storage};
ghost use Rattle.rules.specs.calls.Multicast.{multicast_answer, multicast_tables};
ghost use Rattle.rules.specs.calls.Part.{part_of};
ghost use Rattle.rules.specs.pasts.Past as past;
ghost use Rattle.rules.specs.pasts.Past.{step, after, said};
ghost use Rattle.rules.specs.calls.Question.{question_answer};
ghost use Rattle.rules.specs.calls.Setup.{setup_answer};
ghost use Rattle.multicast.specs.Lent.{tables};
ghost use Rattle.tally.specs.Tally.{counted as counted_of};
ghost use Rattle.words.specs.Words.{words_most, state_in, left_by};
ghost use Rattle.board.specs.Calls.{setup_for, setup_words, message_for, storage_for, tally_for, alive_for, clock_for, question_for, multicast_for, tables_for, held_for};
ghost use Rattle.promises.specs.Board.{board, world_of, BoardMeets, BoardStarts};
ghost use Rattle.promises.specs.Course.{world, messages_of, Leads, SetupMeets, MessageMeets, TallyMeets, PartMeets, AliveMeets, ClockMeets, QuestionMeets, GroupMeets, HeldMeets, CutterMeets, ReadMeets, DeadMeets, ErrorMeets, OptionsMeets, parts, WriteMeets};

use answers::{Answer, GroupAnswer, MissingPiece, Noted, Setup, Started, Ticked, Where};
use board::Told;
use board_alive::adp_alive;
use board_clock::adp_clock;
use board_held::adp_held;
use board_message::adp_message;
use board_multicast::adp_multicast;
use board_question::adp_question;
use board_setup::adp_setup;
use board_tallied::adp_message_tallied;
use fault::reading::Report;
use fault::{Error, NAME, reading, writing};
use groups::Group;
use header::Given;
use refusal::Refusal;
use state::Receiver;
use tally::Tally;

// The storage may hold any octets.
pub fn setup(q: Setup) -> Started
    ensures answer { result ≡ setup_answer q }
    ensures begins { (storage : List ℕ) → length storage ≡ result.state.count * area → SetupMeets q result (world result.state storage) }
{
    setup::setup(q)
}

pub fn message(state: Receiver, storage: &mut [u8], packet: &[u8]) -> Answer
    ensures answer { result ≡ message_answer state (length storage.old) packet.now }
    ensures stored { storage.new ≡ message_storage state storage.old packet.now }
    ensures meets { MessageMeets (world state storage.old) packet.now result (world result.state storage.new) }
{
    receiver::message::message(state, storage, packet)
}

// Two calls: the second is given "the state and storage that the one before left".
pub fn messages(state: Receiver, storage: &mut [u8], first: &[u8], second: &[u8]) -> Answer
    ensures answer { result ≡ (said (step (world state storage.old) (past.message first.now)) (past.message second.now)).0 }
    ensures stored { storage.new ≡ (after (world state storage.old) (messages_of first.now second.now)).storage }
    ensures course { Leads (world state storage.old) (messages_of first.now second.now) (world result.state storage.new) }
{
    let a = message(state, storage, first);
    let next = a.state;
    message(next, storage, second)
}

// The message call with the tally lent.
pub fn tallied(tally: &mut Tally, state: Receiver, storage: &mut [u8], packet: &[u8]) -> Answer
    ensures answer { result ≡ message_answer state (length storage.old) packet.now }
    ensures stored { storage.new ≡ message_storage state storage.old packet.now }
    ensures tallied { tally.new ≡ counted_of tally.old (message_answer state (length storage.old) packet.now).outcome }
    ensures meets { TallyMeets tally.old (world state storage.old) packet.now result tally.new (world result.state storage.new) }
{
    tally::message(tally, state, storage, packet)
}

pub fn part<'a>(lies: Where, packet: &'a [u8], storage: &'a [u8]) -> &'a [u8]
    ensures answer { result.now ≡ part_of lies packet.now storage.now }
    ensures meets { PartMeets lies packet.now storage.now result.now }
{
    receiver::part::part(lies, packet, storage)
}

pub fn alive(state: Receiver, packet: &[u8]) -> Noted
    ensures answer { result ≡ alive_answer state packet.now }
    ensures meets { (storage : List ℕ) → AliveMeets (world state storage) packet.now result (world result.state storage) }
{
    alive::alive(state, packet)
}

pub fn clock(state: Receiver, ms: u64) -> Ticked
    ensures answer { result ≡ clock_answer state ms }
    ensures meets { (storage : List ℕ) → ClockMeets (world state storage) ms result (world result.state storage) }
{
    clock::clock(state, ms)
}

pub fn question(state: Receiver) -> Result<Option<MissingPiece>, Refusal>
    ensures answer { result ≡ question_answer state }
    ensures meets { (storage : List ℕ) → QuestionMeets (world state storage) result (world state storage) }
{
    question::question(state)
}

// A packet to a group: state and storage stay.
pub fn multicast(
    state: Receiver,
    versions: &mut [u32],
    numbers: &mut [u32],
    group: Group,
    packet: &[u8],
) -> GroupAnswer
    ensures answer { result ≡ multicast_answer state (tables versions.old numbers.old) group.0 packet.now }
    ensures versions { versions.new ≡ (multicast_tables state (tables versions.old numbers.old) group.0 packet.now).versions }
    ensures numbers { numbers.new ≡ (multicast_tables state (tables versions.old numbers.old) group.0 packet.now).numbers }
    ensures meets { (storage : List ℕ) → GroupMeets (world state storage) (tables versions.old numbers.old) group.0 packet.now result (tables versions.new numbers.new) (world state storage) }
{
    multicast::multicast(state, versions, numbers, group, packet)
}

// What the maintenance page is told: the same of any storage.
pub fn held(state: Receiver, place: u8) -> u8
    ensures answer { result ≡ held_at state place }
    ensures meets { (storage : List ℕ) → HeldMeets (world state storage) place result }
{
    state.held(place)
}

pub fn cutter(
    given: Given,
    message: &[u8],
    u: u16,
    piece: u8,
    buffer: &mut [u8],
) -> Result<u16, Refusal>
    ensures answer { result ≡ cutter_answer given message.now u piece (length buffer.old) }
    ensures written { buffer.new ≡ cutter_buffer given message.now u piece buffer.old }
    ensures meets { CutterMeets given message.now u piece buffer.old result buffer.new }
{
    cut::cutter::cutter(given, message, u, piece, buffer)
}

// ---- the fault section

pub fn read_section(s: &[u8]) -> Result<Report, Refusal>
    ensures answer { result ≡ reading_of s.now }
    ensures meets { ReadMeets s.now result }
    // What is read is exactly the octets of sections within the rules.
    ensures section { (number_in result ≡ 0 → SectionOf s.now) × (SectionOf s.now → number_in result ≡ 0) }
{
    reading::read_section(s)
}

pub fn is_dead(s: &[u8], x: u32) -> bool
    ensures answer { result ≡ dead_at s.now x }
    ensures meets { DeadMeets s.now x result }
{
    reading::is_dead(s, x)
}

pub fn error_at(s: &[u8], k: u32) -> Error
    ensures answer { result ≡ error_at s.now k }
    ensures meets { ErrorMeets s.now k result }
{
    reading::error_at(s, k)
}

pub fn options(s: &[u8]) -> &[u8]
    ensures answer { result.now ≡ options_of s.now }
    ensures meets { OptionsMeets s.now result.now }
{
    reading::options(s)
}

pub fn write_section(
    modules: u32,
    bits: &[u8],
    errors: &[u16],
    name: [u8; NAME],
    options: &[u8],
    buffer: &mut [u8],
) -> Result<u16, Refusal>
    ensures answer { result ≡ writing_of modules bits.now errors.now options.now (length buffer.old) }
    ensures written { buffer.new ≡ buffer_of modules bits.now errors.now name options.now buffer.old }
    ensures meets { WriteMeets (parts modules bits.now errors.now name options.now) buffer.old result buffer.new }
{
    writing::write_section(modules, bits, errors, name, options, buffer)
}

// ---- the calls for C

pub fn board_message(state: &mut [u64], storage: &mut [u8], packet: &[u8]) -> Told
    ensures answer { result ≡ message_for state.old (length storage.old) packet.now }
    ensures left { state.new ≡ left_by state.old (message_answer (state_in state.old) (length storage.old) packet.now).state }
    ensures stored { storage.new ≡ storage_for state.old storage.old packet.now }
    ensures meets { BoardMeets (board state.old storage.old) (past.message packet.now) result (board state.new storage.new) }
{
    adp_message(state, storage, packet)
}

// The message call with the tally lent: the same call.
pub fn board_tallied(
    state: &mut [u64],
    storage: &mut [u8],
    packet: &[u8],
    tally: &mut [u32; 2],
) -> Told
    ensures answer { result ≡ message_for state.old (length storage.old) packet.now }
    ensures left { state.new ≡ left_by state.old (message_answer (state_in state.old) (length storage.old) packet.now).state }
    ensures kept { storage.new ≡ storage_for state.old storage.old packet.now }
    ensures tallied { tally.new ≡ tally_for tally.old state.old (length storage.old) packet.now }
    ensures message { BoardMeets (board state.old storage.old) (past.message packet.now) result (board state.new storage.new) }
{
    adp_message_tallied(state, storage, packet, tally)
}

pub fn board_alive(state: &mut [u64], packet: &[u8]) -> u8
    ensures answer { result ≡ alive_for state.old packet.now }
    ensures left { state.new ≡ left_by state.old (alive_answer (state_in state.old) packet.now).state }
    ensures meets { (storage : List ℕ) → BoardMeets (board state.old storage) (past.alive packet.now) result (board state.new storage) }
{
    adp_alive(state, packet)
}

pub fn board_clock(state: &mut [u64], ms: u64) -> board::Ticked
    ensures answer { result ≡ clock_for state.old ms }
    ensures left { state.new ≡ left_by state.old (clock_answer (state_in state.old) ms).state }
    ensures meets { (storage : List ℕ) → BoardMeets (board state.old storage) (past.clock ms) result (board state.new storage) }
{
    adp_clock(state, ms)
}

pub fn board_question(state: &[u64]) -> board::Missing
    ensures answer { result ≡ question_for state.now }
    ensures meets { (storage : List ℕ) → BoardMeets (board state.now storage) (past.aside past.question) result (board state.now storage) }
{
    adp_question(state)
}

pub fn board_multicast(
    state: &[u64],
    versions: &mut [u32],
    numbers: &mut [u32],
    group: u8,
    packet: &[u8],
) -> Told
    ensures answer { result ≡ multicast_for state.now (tables versions.old numbers.old) group packet.now }
    ensures versions { versions.new ≡ (tables_for state.now (tables versions.old numbers.old) group packet.now).versions }
    ensures numbers { numbers.new ≡ (tables_for state.now (tables versions.old numbers.old) group packet.now).numbers }
    ensures meets { (storage : List ℕ) → BoardMeets (board state.now storage) (past.aside (past.multicast (tables versions.old numbers.old) group packet.now)) (result, tables versions.new numbers.new) (board state.now storage) }
{
    adp_multicast(state, versions, numbers, group, packet)
}

// Of any words: it is not asked whether they are a state.
pub fn board_held(state: &[u64], place: u8) -> u8
    ensures answer { result ≡ held_for state.now place }
    ensures meets { (storage : List ℕ) → HeldMeets (world_of (board state.now storage)) place result }
{
    adp_held(state, place)
}

// Of as many words as a state has.
pub fn board_setup(state: &mut [u64], settings: Setup) -> u8
    ensures answer { result ≡ setup_for state.old settings }
    ensures left { state.new ≡ setup_words state.old settings }
    ensures begins { (storage : List ℕ) → length state.old ≡ words_most → length storage ≡ (state_in state.new).count * area → BoardStarts settings state.old result (board state.new storage) }
{
    adp_setup(state, settings)
}
