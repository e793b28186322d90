// The line of a stretch, and whether writing goes on.
ghost use Rattle.verdictlines.specs.Stopped.{IsMark, StaysStopped};

use calls::{Ending, Stream, write_alone};
use digits::{lower_digit, upper_digit};
use lane::Stretch;
use lanes::View;
use reader::LINE_FEED;
use text::put_numbers;

// Whether writing goes on: all was taken so far; a write failed; nobody reads any more.
pub const GOING: u8 = 0;

const UNWRITTEN: u8 = 1;

pub const CLOSED: u8 = 2;

// Whether writing goes on after a text.
fn mark_of(ending: Ending) -> u8
    ensures { IsMark result }
{
    match ending {
        Ending::Whole => GOING,
        Ending::Unread => UNWRITTEN,
        Ending::Unwritten => UNWRITTEN,
        Ending::Closed => CLOSED,
    }
}

// Writes the front of a text to standard output; nothing after a write that failed.
pub fn send(rt: &HostRuntime, out: &[u8], end: usize, stopped: &mut u8)
    ensures { StaysStopped stopped.old stopped.new }
{
    if *stopped != GOING {
        return;
    }
    if out.len() < end {
        *stopped = UNWRITTEN;
        return;
    }
    let ending = write_alone(rt, Stream::Output, &out[..end]);
    *stopped = mark_of(ending);
}

// The ten digits of a value's last five octets.
fn value_digits(value: u64) -> [u8; 10] {
    let [_, _, _, a, b, c, d, e] = value.to_be_bytes();
    [
        upper_digit(a),
        lower_digit(a),
        upper_digit(b),
        lower_digit(b),
        upper_digit(c),
        lower_digit(c),
        upper_digit(d),
        lower_digit(d),
        upper_digit(e),
        lower_digit(e),
    ]
}

// Puts a text at a place of another, where there is room.
fn put_at(out: &mut [u8], place: usize, text: &[u8]) {
    if out.len() < place {
        return;
    }
    if text.len() <= out.len() - place {
        octets::copy(text, &mut out[place..]);
    }
}

// Writes the line of a stretch, where there is one: LANE FROM TO VALUE.
pub fn write_stretch(
    rt: &HostRuntime,
    view: View,
    number: usize,
    stretch: Stretch,
    stopped: &mut u8,
)
    ensures { StaysStopped stopped.old stopped.new }
{
    if stretch.until <= stretch.from {
        return;
    }
    let mut out = [0u8; 128];
    let numbers = [number as u64, stretch.from, stretch.until - 1];
    let digits = value_digits(stretch.value);
    let end = put_numbers(&numbers, &mut out, 0);
    if 100 < end {
        return;
    }
    out[end] = b' ';
    if view.codes {
        out[end + 1] = digits[8];
        out[end + 2] = digits[9];
        out[end + 3] = LINE_FEED;
        send(rt, &out, end + 4, stopped);
        return;
    }
    put_at(&mut out, end + 1, &digits);
    out[end + 11] = LINE_FEED;
    send(rt, &out, end + 12, stopped);
}
