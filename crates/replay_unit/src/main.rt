// Replays events for the station clock unit: document 02, L13, "Programs" of its readings. Reads
// `e LINE` and `s LINE` from standard input and writes a line for each to standard output: both
// answers, `ais` or `out`, the source, and the sixteen codes of both. The unit starts as the
// arguments OPTION PLACE MARKS MINIMUM say; where that could not be done, it says so on standard
// error.
#![tactic(auto)]

ghost use Rattle.std.specs.Prelude.{◌≡◌, length};
ghost use Rattle.calls.specs.Calls.{TextSaid};
ghost use Rattle.replay_unit.specs.Said.{unit_start_stream, unit_start_said};

use calls::{Ending, Stream, write_alone};
use lineloop::serve;
use start::StartError;
use unitstart::{UnitStart, read_unit_start};

fn main(rt: HostRuntime) {
    let read = read_unit_start(&rt);
    let Ok(start) = read else {
        say_unit_start(&rt, read);
        return;
    };
    let started = answerer::of_unit(start.profile, start.minimum);
    let ended = serve(&rt, started.answerer);
    calls::say(&rt, ended.ending);
}

// Writes a line that says a start.
fn start_line(
    rt: &HostRuntime,
    stream: Stream,
    line: &[u8],
    start: Result<UnitStart, StartError>,
) -> Ending
    requires { (stream ≡ unit_start_stream start) × (line.now ≡ unit_start_said start) }
    ensures { TextSaid (length (unit_start_said start)) result }
{
    write_alone(rt, stream, line)
}

// Says that there is no start: of a refused one its number on standard output, and nothing else; of
// words that are none on standard error, in one line, what they are. Of a start nothing is said.
fn say_unit_start(rt: &HostRuntime, start: Result<UnitStart, StartError>) -> Ending
    ensures { TextSaid (length (unit_start_said start)) result }
{
    match start {
        Ok(_) => start_line(rt, Stream::Error, b"", start),
        Err(StartError::Refused) => start_line(rt, Stream::Output, b"06\n", start),
        Err(StartError::NoStart) => start_line(
            rt,
            Stream::Error,
            b"replay_unit OPTION PLACE MARKS MINIMUM: 1 or 2, decimal, four hexadecimal digits, decimal\n",
            start,
        ),
    }
}
