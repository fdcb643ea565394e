// One field of a run: the receiver's call on its contents, and the line that its answer gives.
//
// Every public function is total: octets, states and storage may be any. What a program adds is reading and writing
// alone.
#![tactic(auto)]

ghost use Rattle.std.specs.Prelude.{◌≡◌, ◌≤◌};
ghost use Rattle.answers.specs.Told.{outcome_told};
ghost use Rattle.rules.specs.calls.Alive.{alive_answer};
ghost use Rattle.rules.specs.calls.Clock.{clock_answer};
ghost use Rattle.rules.specs.calls.Message.{message_storage};
ghost use Rattle.rules.specs.calls.Setup.{setup_answer};
ghost use Rattle.capture_fields.specs.Field.{next_of, setup_of, clock_of};
ghost use Rattle.capture_run.specs.Turn.{length_shown, started_turn, ticked_turn, noted_turn, turn_of, storage_of, turn_by, turn_storage, line_in, wanted_by, lent_of};
ghost use Rattle.capture_fields.specs.declared.Kind.TheVariants as kind;

use alive::alive;
use answers::Outcome;
use capture_fields::{HEAD, Kind, Unread, clock_of, contents, next_field, setup_of};
use capture_lines::Line;
use clock::clock;
use octets::read2;
use receiver::message::message;
use receiver::part::part;
use refusal::{Refusal, number_in};
use setup::setup;
use state::Receiver;

// The state that a field leaves, and the line that it prints.
#[derive(Clone, Copy)]
pub struct Turn {
    pub state: Receiver,
    pub line: Line,
}

// The field at the front of what was read. A bad or cut one ends the run, and so does the end of what is read.
#[tactic(auto, unfolding(crate::specs::Turn::turn_by, crate::specs::Turn::turn_storage))]
pub fn next_turn(state: Receiver, storage: &mut [u8], read: &[u8]) -> Result<Option<Turn>, Unread>
    ensures answer { result ≡ turn_by state storage.old read.now (next_of read.now) }
    ensures stored { storage.new ≡ turn_storage state storage.old read.now (next_of read.now) }
{
    let Some(field) = next_field(read)? else {
        return Ok(None);
    };
    Ok(Some(turn_of(state, storage, field.kind, contents(read, field.size))))
}

// The line of a turn; a bad or cut field has one too.
pub fn line_in(turn: &Result<Option<Turn>, Unread>) -> Option<Line>
    ensures { result ≡ line_in turn.now }
{
    match turn {
        Ok(Some(turn)) => Some(turn.line),
        Ok(None) => None,
        Err(_) => Some(Line::End),
    }
}

// What a field of this kind with these contents does.
#[tactic(auto, unfolding(crate::specs::Turn::turn_of, crate::specs::Turn::storage_of))]
pub fn turn_of(state: Receiver, storage: &mut [u8], kind: Kind, contents: &[u8]) -> Turn
    ensures answer { result ≡ turn_of state storage.old kind contents.now }
    ensures stored { storage.new ≡ storage_of state storage.old kind contents.now }
{
    match kind {
        Kind::Setup => setup_turn(state, contents),
        Kind::Message => message_turn(state, storage, contents),
        Kind::Clock => clock_turn(state, contents),
        Kind::Alive => alive_turn(state, contents),
    }
}

// A refused setup leaves the state in use.
fn setup_turn(state: Receiver, contents: &[u8]) -> Turn
    ensures { result ≡ started_turn state (setup_answer (setup_of contents.now)) }
{
    let a = setup(setup_of(contents));
    Turn {
        state: match a.call {
            Ok(()) => a.state,
            Err(_) => state,
        },
        line: Line::Setup {
            answer: number_in(a.call),
        },
    }
}

#[tactic(auto, unfolding(crate::specs::Turn::turn_of))]
fn message_turn(state: Receiver, storage: &mut [u8], contents: &[u8]) -> Turn
    ensures answer { result ≡ turn_of state storage.old kind.Message contents.now }
    ensures stored { storage.new ≡ message_storage state storage.old contents.now }
{
    let a = message(state, storage, contents);
    let delivered = part(a.lies, contents, storage);
    let line = Line::Message {
        answer: a.outcome.number(),
        verdict: a.outcome.verdict(),
        held: a.held,
        length: shown(a.outcome, delivered.len()),
    };
    Turn {
        state: a.state,
        line,
    }
}

// The length of a delivery, and of a repeat how old it was.
fn shown(outcome: Outcome, length: usize) -> usize
    ensures { result ≡ length_shown (outcome_told outcome) length }
{
    match outcome {
        Outcome::Refused {
            refusal: Refusal::Repeat,
            age,
        } => age as usize,
        _ => length,
    }
}

fn clock_turn(state: Receiver, contents: &[u8]) -> Turn
    ensures { result ≡ ticked_turn (clock_answer state (clock_of contents.now)) }
{
    let a = clock(state, clock_of(contents));
    let line = Line::Clock {
        answer: number_in(a.call),
        dropped: a.dropped,
        dead: a.dead,
    };
    Turn {
        state: a.state,
        line,
    }
}

fn alive_turn(state: Receiver, contents: &[u8]) -> Turn
    ensures { result ≡ noted_turn (alive_answer state contents.now) }
{
    let a = alive(state, contents);
    let line = Line::Alive {
        answer: number_in(a.call),
    };
    Turn {
        state: a.state,
        line,
    }
}

// ---- what is read and lent

// How many octets of contents are to be read behind this head.
#[tactic(auto, unfolding(crate::specs::Turn::wanted_by))]
pub fn wanted(head: &[u8]) -> usize
    ensures value { result ≡ wanted_by head.now (next_of head.now) }
    ensures upper_bound { result ≤ 65535 }
{
    match next_field(head) {
        Err(Unread::Cut) if head.len() == HEAD => read2(head, 1) as usize,
        _ => 0,
    }
}

// How many octets of a storage of this length are lent to a message call.
pub fn lent(count: u8, room: usize) -> usize
    ensures { result ≡ lent_of count room }
{
    room.min(count as usize * Receiver::AREA)
}
