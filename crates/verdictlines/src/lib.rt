// Log lines and shown lines: what each does to what is carried, and so to the lanes of what a card
// shows. The program `verdict` hands the lines of its stream to `take_lines`, and at the stream's
// end asks `whole_lanes`; what a lane is then known to have been wrong in is written on the way.
#![tactic(auto)]

mod bench;
pub mod lines;
mod shown;
pub mod stretch;
mod tell;

ghost use Rattle.std.specs.Prelude.{◌≡◌};
ghost use Rattle.verdictlines.specs.Stopped.{StaysStopped};
ghost use Rattle.verdictlines.specs.Told.{lanes_of, places_of};
ghost use Rattle.verdictlines.specs.Bench.{bench_in, whole_told};
ghost use Rattle.verdictlines.specs.Carried.{fresh_bench};

use bench::shown_by;
use inplace::time_at;
use lane::{Lane, Tolerance, fresh_lane};
use lanes::{ROOM, View};
use logline::held::LogHeld;
use numbers::profile::ProvPlace;
use tell::{advance_all, capped, later};

// What is asked for.
#[derive(Clone, Copy)]
pub struct Question {
    pub view: View,
    pub tolerance: Tolerance,
}

// What a state shows: the codes of its ports, and what is judged of its answer.
#[derive(Clone, Copy)]
pub struct Shows {
    pub codes: [u8; 16],
    pub value: u64,
}

// What is carried from line to line beside the log and the lanes: from when on the lanes have not
// been told what is right, and what the state has shown since then; whether an event has come that
// leaves its time; the millisecond behind which events have to come, 0 where nothing was shown; how
// many lines have come; and whether one of them is trouble.
#[derive(Clone, Copy)]
pub struct Kept {
    pub since: u64,
    pub shows: Shows,
    pub happened: bool,
    pub closed: u64,
    pub line: u64,
    pub trouble: bool,
}

// What is carried from line to line.
#[derive(Clone, Copy)]
pub struct BenchHeld {
    pub log: LogHeld,
    pub lanes: [Lane; 16],
    pub kept: Kept,
}

// What is carried before any line.
pub fn fresh_bench(view: View, provplace: ProvPlace, marks: u16) -> BenchHeld
    ensures { bench_in result ≡ fresh_bench view provplace marks }
{
    let log = LogHeld::fresh(provplace, marks);
    let shows = shown_by(view, &log.held.times, &log.held.small, &log.held.wider);
    BenchHeld {
        log,
        lanes: [fresh_lane(); 16],
        kept: Kept {
            since: 0,
            shows,
            happened: false,
            closed: 0,
            line: 0,
            trouble: false,
        },
    }
}

// The lanes once it is known what is right to beyond the end.
pub fn whole_lanes(
    rt: &HostRuntime,
    question: Question,
    bench: &BenchHeld,
    room: &mut [u64; ROOM],
    stopped: &mut u8,
) -> [Lane; 16]
    ensures { (result ≡ lanes_of (whole_told question (bench_in bench.now) room.old)) ×
        (room.new ≡ places_of (whole_told question (bench_in bench.now) room.old)) ×
        (StaysStopped stopped.old stopped.new) }
{
    let tolerance = question.tolerance;
    let held = &bench.log.held;
    let behind = capped(capped(tolerance.end, tolerance.early), 1);
    let until = later(behind, time_at(&held.times));
    let mut lanes = bench.lanes;
    advance_all(
        rt,
        question,
        &mut lanes,
        room,
        &held.times,
        &held.small,
        &held.wider,
        bench.kept.since,
        until,
        stopped,
    );
    lanes
}
