// What a selector shows, and what is right from when to when: the lanes of a card.
//
// A value is what is judged of an answer, five octets as one number with 0 for what is not judged;
// or the code of a port. A state stands in three lent arrays; with any numbers in them it is
// answered for, no sum can wrap, and no public function has a `requires`.
#![tactic(auto)]

ghost use Rattle.std.specs.Prelude.{◌≡◌, ◌-◌, min};
ghost use Rattle.lanes.specs.Value.{Judging, answer_value, code_value, value_of, index_count, input_index, no_switch_index, switch_index, four_index, answer_index, code_index, value_index, Indexed};
ghost use Rattle.inplace.specs.Lists.{selector_at};
ghost use Rattle.lanes.specs.Span.{span_of, state_behind};

use inplace::{SMALL, TIMES, WIDER, answer_at, codes_at, next_due, tick_once};
use numbers::Answer;

// How many values have an index.
pub const ROOM: usize = 36_992;

// The same as a wider number.
const INDEXES: u64 = 36_992;

// What is judged: the codes of the sixteen ports; or of an answer the selected input, the clock
// state, the clock quality, the switch with its input.
#[derive(Clone, Copy)]
pub struct View {
    pub codes: bool,
    pub selected: bool,
    pub state: bool,
    pub quality: bool,
    pub switch: bool,
}

// An octet if it is judged, otherwise 0.
fn judged(test: bool, octet: u8) -> u64
    ensures { Judging test octet result }
{
    if test { octet as u64 } else { 0 }
}

// What is judged of the five octets of an answer, as one number.
pub fn answer_value(view: View, answer: Answer) -> u64
    ensures { result ≡ answer_value view answer }
{
    let selected = judged(view.selected, answer.selected);
    let state = judged(view.state, answer.clockstate);
    let quality = judged(view.quality, answer.clockquality);
    let switch = judged(view.switch, answer.switchkind);
    let on = judged(view.switch, answer.switchinput);
    (((selected * 256 + state) * 256 + quality) * 256 + switch) * 256 + on
}

// The code of a port, as a value.
#[tactic(auto, unfolding(crate::specs::Value::code_value))]
fn code_value(codes: [u8; 16], lane: usize) -> u64
    ensures { result ≡ code_value codes lane }
{
    if lane < 16 { codes[lane] as u64 } else { 0 }
}

// What a state shows in a lane.
#[tactic(auto, unfolding(crate::specs::Value::value_of))]
pub fn value_of(
    view: View,
    times: &[u64; TIMES],
    small: &[u8; SMALL],
    wider: &[u16; WIDER],
    lane: usize,
) -> u64
    ensures { result ≡ value_of view
        (selector_at times.now small.now wider.now) lane }
{
    if view.codes {
        let codes = codes_at(times, small, wider);
        code_value(codes, lane)
    } else {
        let answer = answer_at(times, small, wider, 0);
        answer_value(view, answer)
    }
}

// The index of a selected input among seventeen; 17 for any other number.
#[tactic(auto, unfolding(crate::specs::Value::input_index))]
fn input_index(number: u64) -> u64
    ensures { Indexed (input_index number) 17 result }
{
    match number {
        255 => 16,
        0..=15 => number,
        _ => 17,
    }
}

// The index of no switch, and of one that is not judged; 34 for any other number.
#[tactic(auto, unfolding(crate::specs::Value::no_switch_index))]
fn no_switch_index(on: u64) -> u64
    ensures { Indexed (no_switch_index on) 34 result }
{
    match on {
        255 => 33,
        0 => 0,
        _ => 34,
    }
}

// The index of a switch with its input among 34; 34 for any other numbers.
#[tactic(auto, unfolding(crate::specs::Value::switch_index))]
fn switch_index(switch: u64, on: u64) -> u64
    ensures { Indexed (switch_index switch on) 34 result }
{
    match switch {
        0 => no_switch_index(on),
        1 | 2 if on < 16 => 1 + (switch - 1) * 16 + on,
        _ => 34,
    }
}

// The index of four of them; the count of indexes for what is never right.
#[tactic(auto, unfolding(crate::specs::Value::four_index))]
fn four_index(selected: u64, state: u64, quality: u64, switch: u64) -> u64
    ensures { Indexed (four_index selected state quality switch) index_count result }
{
    if 16 < selected || 3 < state || 15 < quality || 33 < switch {
        return INDEXES;
    }
    ((selected * 4 + state) * 16 + quality) * 34 + switch
}

// The index of what is judged of an answer.
#[tactic(auto, unfolding(crate::specs::Value::answer_index))]
fn answer_index(value: u64) -> u64
    ensures { Indexed (answer_index value) index_count result }
{
    let first = input_index(value / 4_294_967_296 % 256);
    let last = switch_index(value / 256 % 256, value % 256);
    four_index(first, value / 16_777_216 % 256, value / 65_536 % 256, last)
}

// The index of a port's code.
#[tactic(auto, unfolding(crate::specs::Value::code_index))]
fn code_index(lane: usize, value: u64) -> u64
    ensures { Indexed (code_index lane value) index_count result }
{
    if 15 < value || 15 < lane {
        return INDEXES;
    }
    lane as u64 * 16 + value
}

// The index of a value of a lane; the count of indexes for a value that is never right.
#[tactic(auto, unfolding(crate::specs::Value::value_index))]
pub fn value_index(view: View, lane: usize, value: u64) -> usize
    ensures { Indexed (value_index view lane value) index_count result }
{
    if view.codes {
        code_index(lane, value) as usize
    } else {
        answer_index(value) as usize
    }
}

// When a span ends before what is next due, or with `until`.
fn end_before(due: u64, until: u64) -> u64
    ensures { result ≡ min until (due - 1) }
{
    until.min(due.saturating_sub(1))
}

// The end of the span that begins with a state: before the next due moment, or `until`.
pub fn span_end(times: &[u64; TIMES], small: &[u8; SMALL], wider: &[u16; WIDER], until: u64) -> u64
    ensures { result ≡ (span_of
        (selector_at times.now small.now wider.now) until).to }
{
    let next = next_due(times, small, wider);
    end_before(next, until)
}

// Brings a state on to behind a span's end, by the tick that is due there, and answers with the end
// of the span that begins then.
pub fn next_span(
    times: &mut [u64; TIMES],
    small: &mut [u8; SMALL],
    wider: &[u16; WIDER],
    to: u64,
    until: u64,
) -> u64
    ensures { (selector_at times.new small.new wider.now ≡
        state_behind (selector_at times.old small.old wider.now) to) ×
        (result ≡ (span_of (selector_at times.new small.new wider.now)
        until).to) }
{
    let time = to.saturating_add(1);
    let due = tick_once(times, small, wider, time);
    end_before(due, until)
}
