// Frames for an outside dissector, in hexadecimal, one a line: each of the sixteen codes without
// the event flag, then each with it. `tests/programs/dissect-frames` has them decoded. Where they
// can't be written, it says so on standard error.
#![tactic(auto)]

use calls::{Ending, Stream, is_whole, say, write_text};
use frame::write_frame;

// The sender of these frames, an address for local use.
const SOURCE: [u8; 6] = [0x02, 0x00, 0x5e, 0x10, 0x20, 0x30];

// "We write 60 octets"
const WRITTEN_LENGTH: usize = 60;

// Two digits an octet, and LF.
const LINE: usize = 121;

// "the sixteen codes"
const CODE_COUNT: u8 = 16;

fn main(rt: HostRuntime) {
    let mut sent = 0;
    let ending = print_frames(&rt, false, &mut sent);
    if !is_whole(ending) {
        say(&rt, ending);
        return;
    }
    let ending = print_frames(&rt, true, &mut sent);
    say(&rt, ending);
}

// A line for each code, 0000 to 1111, till a write fails.
fn print_frames(rt: &HostRuntime, event: bool, sent: &mut usize) -> Ending {
    for code in 0..CODE_COUNT {
        let ending = print_frame(rt, event, code, sent);
        if !is_whole(ending) {
            return ending;
        }
    }
    Ending::Whole
}

// One line. The buffer starts with no octet zero, so that all 60 are seen to be written.
fn print_frame(rt: &HostRuntime, event: bool, code: u8, sent: &mut usize) -> Ending {
    let mut buffer = [0xff; WRITTEN_LENGTH];
    let _ = write_frame(&mut buffer, &SOURCE, event, code);
    let mut line = [b'\n'; LINE];
    digits::write_digits(&buffer, &mut line);
    write_text(rt, Stream::Output, &line, sent)
}
