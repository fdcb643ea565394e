// The lines of a state: its settings, and each of its senders in table order.
use crate::{line, line_with_eight};
use state::{Receiver, Sender};

pub fn state_lines(w: Receiver) {
    let g = w.groups;
    line_with_eight(
        b'W',
        &[
            w.test as u64,
            w.n1 as u64,
            w.t as u64,
            w.clock,
            w.count as u64,
            g.count as u64,
        ],
        &g.list.map(|group| group.0),
    );
    for (place, s) in w.senders.iter().enumerate().take(w.count as usize) {
        sender_line(place, *s);
    }
}

fn sender_line(place: usize, s: Sender) {
    let source = s.address;
    let last = s.last;
    let m = s.message;
    let heard = s.heard;
    line(
        b'w',
        &[
            place as u64,
            source.field.0 as u64,
            source.node.0 as u64,
            last.version.0 as u64,
            last.number.0 as u64,
            s.open as u64,
            m.version.0 as u64,
            m.number.0 as u64,
            m.tcd as u64,
            m.n as u64,
            m.tbn as u64,
            m.u as u64,
            m.map,
            m.held as u64,
            m.stamp,
            s.alive as u64,
            heard.stamp,
            heard.timeout as u64,
        ],
    );
}
