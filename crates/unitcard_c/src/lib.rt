// The unit's library for C: libunitcard.a, whose header is include/nurrispane.h. Each function is
// that of the same name in the crate `unitcard`, with its promises; a static library exports its own
// functions alone, and no crate can stand on one.
#![tactic(auto)]

ghost use Rattle.std.specs.Prelude.{◌≡◌};
ghost use Rattle.card.specs.Lent.{header_version};
ghost use Rattle.unitcard.specs.Lent.{unit_octets, lent_at, start_lent_unit, step_lent_unit};

use inplace::{SMALL, TIMES, WIDER};
use onestep::watch::{DUE, TOLD};
use unitcard::SENT;

// The version of the unit's library: that of its header.
#[unsafe(no_mangle)]
pub extern "C" fn nurrispane_unit_version_in() -> u32
    ensures { result ≡ header_version }
{
    unitcard::exports::nurrispane_unit_version_in()
}

// How many octets the library takes a unit to have.
#[unsafe(no_mangle)]
pub extern "C" fn nurrispane_unit_octets_in() -> u32
    ensures { result ≡ unit_octets }
{
    unitcard::exports::nurrispane_unit_octets_in()
}

// Starts a unit with a profile and a minimum, whatever it held: it is fresh then. An option that is
// neither 1 nor 2, a minimum that is not 1 to 4, of option II 1 to 8, or a place above 8 is refused
// with 6, and nothing starts: the unit is kept but for the numbers in what is told.
#[unsafe(no_mangle)]
pub extern "C" fn nurrispane_unit_fresh_in(
    times: &mut [u64; TIMES],
    small: &mut [u8; SMALL],
    wider: &mut [u16; WIDER],
    due: &mut [u64; DUE],
    told: &mut [u8; TOLD],
    station_times: &mut [u64; TIMES],
    station_small: &mut [u8; SMALL],
    station_wider: &mut [u16; WIDER],
    station_due: &mut [u64; DUE],
    station_told: &mut [u8; TOLD],
    sent: &mut [u8; SENT],
    option: u8,
    provplace: u8,
    marks: u16,
    minimum: u8,
)
    ensures { lent_at times.new small.new wider.new due.new
        told.new station_times.new station_small.new
        station_wider.new station_due.new station_told.new
        sent.new ≡
        start_lent_unit
        (lent_at times.old small.old wider.old due.old
        told.old station_times.old station_small.old
        station_wider.old station_due.old station_told.old
        sent.old)
        option provplace marks minimum }
{
    unitcard::exports::nurrispane_unit_fresh_in(
        times,
        small,
        wider,
        due,
        told,
        station_times,
        station_small,
        station_wider,
        station_due,
        station_told,
        sent,
        option,
        provplace,
        marks,
        minimum,
    );
}

// One event with a lent frame, which is looked at for a frame event alone, sent to a half: the unit
// after it takes the place of the unit before it. A half that is neither 0 nor 1 is refused with 6
// by both, and nothing happens.
#[unsafe(no_mangle)]
pub extern "C" fn nurrispane_unit_step_in(
    times: &mut [u64; TIMES],
    small: &mut [u8; SMALL],
    wider: &mut [u16; WIDER],
    due: &mut [u64; DUE],
    told: &mut [u8; TOLD],
    station_times: &mut [u64; TIMES],
    station_small: &mut [u8; SMALL],
    station_wider: &mut [u16; WIDER],
    station_due: &mut [u64; DUE],
    station_told: &mut [u8; TOLD],
    sent: &mut [u8; SENT],
    half: u8,
    kind: u8,
    time: u64,
    input: u8,
    argument: u16,
    frame: &[u8],
)
    ensures { lent_at times.new small.new wider.new due.new
        told.new station_times.new station_small.new
        station_wider.new station_due.new station_told.new
        sent.new ≡
        step_lent_unit
        (lent_at times.old small.old wider.old due.old
        told.old station_times.old station_small.old
        station_wider.old station_due.old station_told.old
        sent.old)
        half kind time input argument frame.now }
{
    unitcard::exports::nurrispane_unit_step_in(
        times,
        small,
        wider,
        due,
        told,
        station_times,
        station_small,
        station_wider,
        station_due,
        station_told,
        sent,
        half,
        kind,
        time,
        input,
        argument,
        frame,
    );
}
