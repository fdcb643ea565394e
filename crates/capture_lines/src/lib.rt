// The lines that a run prints, as octets.
#![tactic(auto)]

ghost use Rattle.std.specs.Prelude.{◌≡◌, [], ◌∷◌, ◌≤◌, length};
ghost use Rattle.io.specs.Counts.{IsPrefixLen};
ghost use Rattle.capture_lines.specs.Line.{word_of, line_with, line_of, text_of, added};

use octets::lay;

// What is said of a field. 01's numbers stand in it as they are printed.
#[derive(Clone, Copy, PartialEq, Eq, Debug)]
pub enum Line {
    Setup {
        answer: u8,
    },
    Message {
        answer: u8,
        verdict: u8,
        held: u8,
        length: usize,
    },
    Clock {
        answer: u8,
        dropped: u16,
        dead: u16,
    },
    Alive {
        answer: u8,
    },
    // a bad or cut field
    End,
}

// A line's octets: the first of an array that has room for every line. Behind them are zeros. An array with a length,
// since memory is fixed: no heap.
#[derive(Clone, Copy, PartialEq, Eq, Debug)]
pub struct Text {
    pub octets: [u8; 96],
    pub length: usize,
}

#[tactic(auto, unfolding(crate::specs::Line::line_of))]
pub fn text_of(line: Line) -> Text
    ensures value { result ≡ text_of (line_of line) }
    ensures prefix_len { IsPrefixLen result.length result.octets }
{
    match line {
        Line::Setup { answer } => line_with(b'S', &[answer as u64]),
        Line::Message {
            answer,
            verdict,
            held,
            length,
        } => line_with(
            b'P',
            &[answer as u64, verdict as u64, held as u64, length as u64],
        ),
        Line::Clock {
            answer,
            dropped,
            dead,
        } => line_with(b'C', &[answer as u64, dropped as u64, dead as u64]),
        Line::Alive { answer } => line_with(b'A', &[answer as u64]),
        Line::End => line_with(b'E', &[]),
    }
}

// A letter, the numbers, and a newline.
fn line_with(l: u8, numbers: &[u64]) -> Text
    requires { length numbers.now ≤ 4 }
    ensures value { result ≡ text_of (line_with l numbers.now) }
    ensures prefix_len { IsPrefixLen result.length result.octets }
{
    let mut t = letter(l);
    for n in numbers {
        t = word(t, *n);
    }
    newline(t)
}

#[tactic(auto, unfolding(crate::specs::Line::text_of))]
fn letter(l: u8) -> Text
    ensures { result ≡ text_of (l ∷ []) }
{
    let mut octets = [0; 96];
    octets[0] = l;
    Text { octets, length: 1 }
}

#[tactic(auto, unfolding(crate::specs::Line::added))]
fn newline(t: Text) -> Text
    requires { t.length ≤ 95 }
    ensures { result ≡ added t (10 ∷ []) }
{
    let mut octets = t.octets;
    let at = t.length;
    lay(&mut octets, at, &[10]);
    Text {
        octets,
        length: at + 1,
    }
}

// A blank, and a number in decimal.
fn word(t: Text, n: u64) -> Text
    requires { t.length ≤ 75 }
    ensures { result ≡ added t (word_of n) }
{
    let mut octets = t.octets;
    let at = t.length;
    lay(&mut octets, at, &[32]);
    let mut digits = [0u8; 20];
    let k = io::decimal(n, &mut digits);
    lay(&mut octets, at + 1, &digits[..k]);
    Text {
        octets,
        length: at + 1 + k,
    }
}
