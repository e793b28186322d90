// What the lanes are told: what is right from when to when, span by span, and what is shown. Each
// keeps of its values when they were right last, in places of a lent array.
ghost use Rattle.std.specs.Prelude.{◌≡◌, max};
ghost use Rattle.inplace.specs.Lists.{selector_at};
ghost use Rattle.lane.specs.Lane.{capped};
ghost use Rattle.verdictlines.specs.Stopped.{StaysStopped};
ghost use Rattle.verdictlines.specs.Told.{new_from, last_at, lane_of, room_of, pushed, shown_in, shown_told, spans_since, spans_told, span_from, lanes_of, places_of, ports_told, span_told, spans_told_all};

use crate::Question;
use crate::stretch::write_stretch;
use inplace::{SMALL, TIMES, WIDER, codes_at, time_at};
use lane::{Lane, Tolerance, right, shown};
use lanes::{ROOM, View, next_span, span_end, value_index, value_of};

// The most spans between two events: each due moment begins one.
const SPANS: u64 = 49;

// A sum, or the largest number where it is larger.
pub fn capped(one: u64, other: u64) -> u64
    ensures { result ≡ capped one other }
{
    one.saturating_add(other)
}

// The later of two times.
pub fn later(one: u64, other: u64) -> u64
    ensures { result ≡ max one other }
{
    one.max(other)
}

// When the value at an index was right last.
fn last_at(room: &[u64; ROOM], index: usize) -> u64
    ensures { result ≡ last_at room.now index }
{
    if index < ROOM {
        return room[index];
    }
    0
}

// From when on it is new to a lane that a value is right.
fn new_from(tolerance: Tolerance, lane: Lane, from: u64) -> u64
    ensures { result ≡ new_from tolerance lane from }
{
    if lane.after == 0 {
        return from;
    }
    let floor = capped(lane.after, tolerance.early);
    later(from, floor)
}

// A lane after a value is right from one millisecond to another, as far as that is new to it.
pub fn push(
    rt: &HostRuntime,
    question: Question,
    number: usize,
    lane: Lane,
    room: &mut [u64; ROOM],
    from: u64,
    to: u64,
    value: u64,
    stopped: &mut u8,
) -> Lane
    ensures { (result ≡ lane_of (pushed question number lane room.old from to value)) ×
        (room.new ≡ room_of (pushed question number lane room.old from to value)) ×
        (StaysStopped stopped.old stopped.new) }
{
    let Question { view, tolerance } = question;
    let start = new_from(tolerance, lane, from);
    if to < start {
        return lane;
    }
    let standing = value_index(view, number, lane.value);
    let last = last_at(room, standing);
    let judged = right(tolerance, lane, last, start, to, value);
    let index = value_index(view, number, value);
    let over = capped(to, 1);
    if index < ROOM {
        room[index] = over;
    }
    write_stretch(rt, view, number, judged.ended, stopped);
    judged.lane
}

// A lane after a value was shown in it, where it is known what is right up to `early` behind that.
pub fn show(
    rt: &HostRuntime,
    question: Question,
    number: usize,
    known: Lane,
    room: &[u64; ROOM],
    time: u64,
    value: u64,
    stopped: &mut u8,
) -> Lane
    ensures { (result ≡ (shown_in question number known room.now time value).lane) ×
        (StaysStopped stopped.old stopped.new) }
{
    let Question { view, tolerance } = question;
    let index = value_index(view, number, value);
    let last = last_at(room, index);
    let judged = shown(tolerance, known, last, time, value);
    write_stretch(rt, view, number, judged.ended, stopped);
    judged.lane
}

// A lane after a value was shown in it: first it is told what is right up to a border, of what the
// state has shown since a time; while nothing is due, that is one thing.
pub fn tell_shown(
    rt: &HostRuntime,
    question: Question,
    number: usize,
    lane: Lane,
    room: &mut [u64; ROOM],
    times: &[u64; TIMES],
    small: &[u8; SMALL],
    wider: &[u16; WIDER],
    due: u64,
    since: u64,
    right: u64,
    border: u64,
    time: u64,
    value: u64,
    stopped: &mut u8,
) -> Lane
    ensures { (result ≡ lane_of (shown_told question number lane room.old
        (selector_at times.now small.now wider.now) due since right
        border time value)) ×
        (room.new ≡ room_of (shown_told question number lane room.old
        (selector_at times.now small.now wider.now) due since right
        border time value)) ×
        (StaysStopped stopped.old stopped.new) }
{
    if border < due {
        let known = push(
            rt, question, number, lane, room, since, border, right, stopped,
        );
        return show(rt, question, number, known, room, time, value, stopped);
    }
    let known = advance(
        rt, question, number, lane, room, times, small, wider, since, border, stopped,
    );
    show(rt, question, number, known, room, time, value, stopped)
}

// A lane after all that is right up to `until`, where no event comes, of a state that has shown the
// same since a time: a copy of it is brought on from span to span.
pub fn advance(
    rt: &HostRuntime,
    question: Question,
    number: usize,
    before: Lane,
    room: &mut [u64; ROOM],
    times: &[u64; TIMES],
    small: &[u8; SMALL],
    wider: &[u16; WIDER],
    since: u64,
    until: u64,
    stopped: &mut u8,
) -> Lane
    ensures { (result ≡ lane_of (spans_told question number (spans_since
        (selector_at times.now small.now wider.now) since until) before
        room.old)) ×
        (room.new ≡ room_of (spans_told question number (spans_since
        (selector_at times.now small.now wider.now) since until) before
        room.old)) ×
        (StaysStopped stopped.old stopped.new) }
{
    let view = question.view;
    let mut later = *times;
    let mut after = *small;
    let mut lane = before;
    let mut from = since;
    let mut to = span_end(times, small, wider, until);
    for _ in 0..SPANS {
        let value = value_of(view, &later, &after, wider, number);
        lane = push(rt, question, number, lane, room, from, to, value, stopped);
        if until <= to {
            return lane;
        }
        to = next_span(&mut later, &mut after, wider, to, until);
        from = time_at(&later);
    }
    lane
}

// The lanes of the ports after their codes are right from one millisecond to another.
fn push_codes(
    rt: &HostRuntime,
    question: Question,
    before: [Lane; 16],
    room: &mut [u64; ROOM],
    from: u64,
    to: u64,
    codes: [u8; 16],
    stopped: &mut u8,
) -> [Lane; 16]
    ensures { (result ≡ lanes_of (ports_told question from to codes 16 0 before room.old)) ×
        (room.new ≡ places_of (ports_told question from to codes 16 0 before room.old)) ×
        (StaysStopped stopped.old stopped.new) }
{
    let mut lanes = before;
    for number in 0..16 {
        let value = codes[number] as u64;
        lanes[number] = push(
            rt,
            question,
            number,
            lanes[number],
            room,
            from,
            to,
            value,
            stopped,
        );
    }
    lanes
}

// The lanes after what a state shows is right from one millisecond to another.
fn push_all(
    rt: &HostRuntime,
    question: Question,
    before: [Lane; 16],
    room: &mut [u64; ROOM],
    times: &[u64; TIMES],
    small: &[u8; SMALL],
    wider: &[u16; WIDER],
    from: u64,
    to: u64,
    stopped: &mut u8,
) -> [Lane; 16]
    ensures { (result ≡ lanes_of (span_told question (span_from
        (selector_at times.now small.now wider.now) from to) before room.old)) ×
        (room.new ≡ places_of (span_told question (span_from
        (selector_at times.now small.now wider.now) from to) before room.old)) ×
        (StaysStopped stopped.old stopped.new) }
{
    let view = question.view;
    if view.codes {
        let codes = codes_at(times, small, wider);
        return push_codes(rt, question, before, room, from, to, codes, stopped);
    }
    let mut lanes = before;
    let value = value_of(view, times, small, wider, 0);
    lanes[0] = push(rt, question, 0, lanes[0], room, from, to, value, stopped);
    lanes
}

// Tells all lanes, in place, all that is right up to `until`, where no event comes, of a state that
// has shown the same since a time: a copy of the state is brought on from span to span.
pub fn advance_all(
    rt: &HostRuntime,
    question: Question,
    lanes: &mut [Lane; 16],
    room: &mut [u64; ROOM],
    times: &[u64; TIMES],
    small: &[u8; SMALL],
    wider: &[u16; WIDER],
    since: u64,
    until: u64,
    stopped: &mut u8,
)
    ensures { (lanes.new ≡ lanes_of (spans_told_all question (spans_since
        (selector_at times.now small.now wider.now) since until) lanes.old
        room.old)) ×
        (room.new ≡ places_of (spans_told_all question (spans_since
        (selector_at times.now small.now wider.now) since until) lanes.old
        room.old)) ×
        (StaysStopped stopped.old stopped.new) }
{
    let mut later = *times;
    let mut after = *small;
    let mut from = since;
    let mut to = span_end(times, small, wider, until);
    for _ in 0..SPANS {
        let next = push_all(
            rt, question, *lanes, room, &later, &after, wider, from, to, stopped,
        );
        *lanes = next;
        if until <= to {
            return;
        }
        to = next_span(&mut later, &mut after, wider, to, until);
        from = time_at(&later);
    }
}
