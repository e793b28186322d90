// What C calls for the unit: include/nurrispane.h. Pointers to arrays of numbers and numbers alone,
// so that a call is the same to every C compiler. The first five arrays are the equipment's, the
// next five the station's. C gets them by `unitcard_c`: a library exports nothing by itself.
ghost use Rattle.std.specs.Prelude.{◌≡◌};
ghost use Rattle.card.specs.Lent.{header_version};
ghost use Rattle.unitcard.specs.Lent.{unit_octets, lent_at, start_lent_unit, step_lent_unit};

use crate::{SENT, STATION, half_in, send, start_half, step_half, tell_half};
use card::{names_option, read_for};
use inplace::{SMALL, TIMES, WIDER, profile_at};
use numbers::Event;
use numbers::profile::{limits_of, profile_in};
use numbers::quality::Quality;
use numbers::refusal::{ACCEPTED, ARGUMENT_OUT_OF_RANGE};
use onestep::watch::{DUE, TOLD, refuse};
use unit::{Half, goes_to, unit_start_number};

// That of the header, as the card's library has it.
const VERSION: u32 = 6;

// How long a unit is in C.
const UNIT_OCTETS: u32 = 1_176;

// The version of the unit's library: that of its header.
#[unsafe(no_mangle)]
pub extern "C" fn nurrispane_unit_version_in() -> u32
    ensures { result ≡ header_version }
{
    VERSION
}

// How many octets the library takes a unit to have.
#[unsafe(no_mangle)]
pub extern "C" fn nurrispane_unit_octets_in() -> u32
    ensures { result ≡ unit_octets }
{
    UNIT_OCTETS
}

// Starts a unit with a profile and a minimum, whatever it held: it is fresh then. An option that is
// neither 1 nor 2, a minimum that is not 1 to 4, of option II 1 to 8, or a place above 8 is refused
// with 6, and nothing starts: the unit is kept but for the numbers in what is told.
#[unsafe(no_mangle)]
pub extern "C" fn nurrispane_unit_fresh_in(
    times: &mut [u64; TIMES],
    small: &mut [u8; SMALL],
    wider: &mut [u16; WIDER],
    due: &mut [u64; DUE],
    told: &mut [u8; TOLD],
    station_times: &mut [u64; TIMES],
    station_small: &mut [u8; SMALL],
    station_wider: &mut [u16; WIDER],
    station_due: &mut [u64; DUE],
    station_told: &mut [u8; TOLD],
    sent: &mut [u8; SENT],
    option: u8,
    provplace: u8,
    marks: u16,
    minimum: u8,
)
    ensures { lent_at times.new small.new wider.new due.new
        told.new station_times.new station_small.new
        station_wider.new station_due.new station_told.new
        sent.new ≡
        start_lent_unit
        (lent_at times.old small.old wider.old due.old
        told.old station_times.old station_small.old
        station_wider.old station_due.old station_told.old
        sent.old)
        option provplace marks minimum }
{
    if !names_option(option) {
        refuse(due, told, ARGUMENT_OUT_OF_RANGE);
        refuse(station_due, station_told, ARGUMENT_OUT_OF_RANGE);
        return;
    }
    let profile = profile_in(option, provplace, marks);
    let number = unit_start_number(option, provplace, Quality(minimum));
    if number == ACCEPTED {
        start_half(times, small, wider, due, told, profile);
        start_half(
            station_times,
            station_small,
            station_wider,
            station_due,
            station_told,
            profile,
        );
        send(station_times, station_small, station_wider, sent, minimum);
        return;
    }
    refuse(due, told, number);
    refuse(station_due, station_told, number);
}

// One event with a lent frame, which is looked at for a frame event alone, sent to a half: the unit
// after it takes the place of the unit before it. A half that is neither 0 nor 1 is refused with 6
// by both, and nothing happens.
#[unsafe(no_mangle)]
pub extern "C" fn nurrispane_unit_step_in(
    times: &mut [u64; TIMES],
    small: &mut [u8; SMALL],
    wider: &mut [u16; WIDER],
    due: &mut [u64; DUE],
    told: &mut [u8; TOLD],
    station_times: &mut [u64; TIMES],
    station_small: &mut [u8; SMALL],
    station_wider: &mut [u16; WIDER],
    station_due: &mut [u64; DUE],
    station_told: &mut [u8; TOLD],
    sent: &mut [u8; SENT],
    half: u8,
    kind: u8,
    time: u64,
    input: u8,
    argument: u16,
    frame: &[u8],
)
    ensures { lent_at times.new small.new wider.new due.new
        told.new station_times.new station_small.new
        station_wider.new station_due.new station_told.new
        sent.new ≡
        step_lent_unit
        (lent_at times.old small.old wider.old due.old
        told.old station_times.old station_small.old
        station_wider.old station_due.old station_told.old
        sent.old)
        half kind time input argument frame.now }
{
    let minimum = sent[0];
    if STATION < half {
        tell_half(times, small, wider, due, told, ARGUMENT_OUT_OF_RANGE);
        tell_half(
            station_times,
            station_small,
            station_wider,
            station_due,
            station_told,
            ARGUMENT_OUT_OF_RANGE,
        );
        send(station_times, station_small, station_wider, sent, minimum);
        return;
    }
    let event = Event {
        kind,
        time,
        input,
        argument,
    };
    let to = half_in(half);
    let read = read_for(kind, frame);
    let limits = limits_of(profile_at(small, wider));
    let to_equipment = goes_to(limits, kind, to, Half::Equipment);
    let to_station = goes_to(limits, kind, to, Half::Station);
    step_half(times, small, wider, due, told, to_equipment, event, read);
    step_half(
        station_times,
        station_small,
        station_wider,
        station_due,
        station_told,
        to_station,
        event,
        read,
    );
    send(station_times, station_small, station_wider, sent, minimum);
}
