// A shown line, and what it says: docs/PROGRAMS.md has its form.
ghost use Rattle.std.specs.Prelude.{◌≡◌, ◌+◌, ◌≤◌, length};
ghost use Rattle.verdictlines.specs.Shown.{OctetIn, shown_time, shown_answer, is_shown, read_port, read_answer, read_shown};

use digits::{all_digits, octet_of};
use lanes::{View, answer_value};
use numbers::Answer;

// A shown line: its mark, twelve digits of the time, and ten of an answer or four of a port and its
// code.
const MARK: u8 = b'=';

const ANSWER_LINE: usize = 23;

const CODE_LINE: usize = 17;

// The last port, and the largest code.
const LAST: u64 = 15;

// What a shown line says.
#[derive(Clone, Copy)]
pub struct Shown {
    pub lane: usize,
    pub time: u64,
    pub value: u64,
}

// Whether a line is a shown one.
pub fn is_shown(line: &[u8]) -> bool
    ensures { result ≡ is_shown line.now }
{
    if line.len() == 0 {
        return false;
    }
    line[0] == MARK
}

// The octet of the two digits that begin at a place, as a wider number.
fn octet_in(line: &[u8], place: usize) -> u64
    requires { place + 2 ≤ length line.now }
    ensures { OctetIn line.now place result }
{
    octet_of(line[place], line[place + 1]) as u64
}

// The time: "twelve digits", high first.
fn time_in(line: &[u8]) -> u64
    requires { 13 ≤ length line.now }
    ensures { result ≡ shown_time line.now }
{
    let a = octet_in(line, 1);
    let b = octet_in(line, 3);
    let c = octet_in(line, 5);
    let d = octet_in(line, 7);
    let e = octet_in(line, 9);
    let f = octet_in(line, 11);
    ((((a * 256 + b) * 256 + c) * 256 + d) * 256 + e) * 256 + f
}

// The answer that the ten digits behind the time say.
fn answer_in(line: &[u8]) -> Answer
    requires { 23 ≤ length line.now }
    ensures { result ≡ shown_answer line.now }
{
    let selected = octet_in(line, 13);
    let clockstate = octet_in(line, 15);
    let clockquality = octet_in(line, 17);
    let switchkind = octet_in(line, 19);
    let switchinput = octet_in(line, 21);
    Answer {
        number: 0,
        selected: selected as u8,
        clockstate: clockstate as u8,
        clockquality: clockquality as u8,
        switchkind: switchkind as u8,
        switchinput: switchinput as u8,
    }
}

// What a line says of a port.
fn read_port(line: &[u8]) -> Option<Shown>
    ensures { result ≡ read_port line.now }
{
    if line.len() != CODE_LINE {
        return None;
    }
    if !all_digits(&line[1..]) {
        return None;
    }
    let time = time_in(line);
    let port = octet_in(line, 13);
    let code = octet_in(line, 15);
    if LAST < port {
        return None;
    }
    if LAST < code {
        return None;
    }
    Some(Shown {
        lane: port as usize,
        time,
        value: code,
    })
}

// What a line says of an answer.
fn read_answer(view: View, line: &[u8]) -> Option<Shown>
    ensures { result ≡ read_answer view line.now }
{
    if line.len() != ANSWER_LINE {
        return None;
    }
    if !all_digits(&line[1..]) {
        return None;
    }
    let time = time_in(line);
    let answer = answer_in(line);
    let value = answer_value(view, answer);
    Some(Shown {
        lane: 0,
        time,
        value,
    })
}

// What a line that begins with the mark says.
pub fn read_shown(view: View, line: &[u8]) -> Option<Shown>
    ensures { result ≡ read_shown view line.now }
{
    if view.codes {
        return read_port(line);
    }
    read_answer(view, line)
}
