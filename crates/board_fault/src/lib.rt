// The fault section of an alive signal, read and written for C. It stands behind octet 128 of the PDU; no call needs a state.
#![tactic(auto)]

ghost use Rattle.std.specs.Prelude.{◌≡◌, length};
ghost use Rattle.fault.specs.Reading.{reading_of, dead_at, error_at};
ghost use Rattle.fault.specs.Writing.{writing_of, buffer_of};
ghost use Rattle.board.specs.Calls.{reported, options_for, written_of};

use board::{Options, Report, Written};
use fault::reading::{error_at, is_dead, options, options_at, read_section};
use fault::writing::write_section;
use fault::{Error, NAME};
use refusal::number_in;

pub fn adp_fault_read(section: &[u8]) -> Report
    ensures { result ≡ reported (reading_of section.now) }
{
    match read_section(section) {
        Ok(r) => {
            let name = r.name;
            Report {
                number: 0,
                modules: r.modules,
                errors: r.errors,
                options: r.options,
                name,
            }
        }
        Err(refusal) => Report {
            number: refusal.number(),
            modules: 0,
            errors: 0,
            options: 0,
            name: [0; NAME],
        },
    }
}

pub fn adp_fault_dead(section: &[u8], x: u32) -> bool
    ensures { result ≡ dead_at section.now x }
{
    is_dead(section, x)
}

pub fn adp_fault_error(section: &[u8], index: u32) -> Error
    ensures { result ≡ error_at section.now index }
{
    error_at(section, index)
}

#[tactic(auto, unfolding(board::specs::Calls::options_for))]
pub fn adp_fault_options(section: &[u8]) -> Options
    ensures { result ≡ options_for section.now }
{
    let part = options(section);
    let length = part.len();
    if length == 0 {
        return Options {
            start: 0,
            length: 0,
        };
    }
    Options {
        start: options_at(section),
        length,
    }
}

// C cannot pass an array, so the name is lent.
pub fn adp_fault_write(
    modules: u32,
    bits: &[u8],
    errors: &[u16],
    name: &[u8; NAME],
    options: &[u8],
    buffer: &mut [u8],
) -> Written
    ensures answer { result ≡ written_of (writing_of modules bits.now errors.now options.now (length buffer.old)) }
    ensures written { buffer.new ≡ buffer_of modules bits.now errors.now name.now options.now buffer.old }
{
    let written = write_section(modules, bits, errors, *name, options, buffer);
    Written {
        number: number_in(written),
        length: written.unwrap_or(0),
    }
}
