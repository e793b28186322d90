// The outgoing words of an event log: document 02, "1,544 kbit/s words". Reads standard input to
// its end and writes the sixteen words after each line, ports 0 to 15, to standard output, `-` in
// option I, from fresh; START in its arguments gives the place of PROV and the marks with which a
// log of option II starts. Where that could not be done, it says so on standard error.
#![tactic(auto)]

use replayer::Form;

fn main(rt: HostRuntime) {
    console::run(&rt, Form::Words);
}
