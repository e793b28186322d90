// How long each tick was: document 02, "How long can a tick be?". Reads an event log from standard
// input to its end and writes for each line the count of due moments that its tick served, from
// fresh; START in its arguments gives the place of PROV and the marks with which a log of option II
// starts. Where that could not be done, it says so on standard error.
#![tactic(auto)]

use replayer::Form;

fn main(rt: HostRuntime) {
    console::run(&rt, Form::Counts);
}
