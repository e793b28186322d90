// A unit by value, each selector's state in its three arrays, for who holds one among other things.
// Each half takes a step in place.
ghost use Rattle.std.specs.Prelude.{◌≡◌};
ghost use Rattle.selector.specs.State.{fresh_selector};
ghost use Rattle.unit.specs.Kept.{started_unit, half_step, step_unit_read};
ghost use Rattle.unit.specs.Held.{state_in, unit_in, started_in, stepped_in};

use crate::{Half, goes_to, half_step, is_minimum};
use frame::FrameRead;
use inplace::{SMALL, TIMES, WIDER, profile_at, start};
use numbers::Event;
use numbers::profile::{Profile, limits_of};
use numbers::quality::{PRC, Quality};
use numbers::refusal::{ACCEPTED, ARGUMENT_OUT_OF_RANGE};

// The three arrays of a selector's state.
#[derive(Clone, Copy)]
pub struct StateHeld {
    pub times: [u64; TIMES],
    pub small: [u8; SMALL],
    pub wider: [u16; WIDER],
}

// The unit: a selector for the equipment clock, one for the station output, and the worst quality
// that the station output still carries. Its one time is that of either selector.
#[derive(Clone, Copy)]
pub struct UnitHeld {
    pub equipment: StateHeld,
    pub station: StateHeld,
    pub minimum: Quality,
}

// What an event is answered with: a number of each selector's own.
#[derive(Clone, Copy, PartialEq, Eq)]
pub struct UnitNumbers {
    pub equipment: u8,
    pub station: u8,
}

// A start of a unit: the number that it is answered with, and the unit. Beside 6 no unit has
// started, and what stands there carries the best quality alone.
#[derive(Clone, Copy)]
pub struct UnitStartedHeld {
    pub number: u8,
    pub unit: UnitHeld,
}

impl StateHeld {
    // A fresh state of a profile.
    fn fresh(profile: Profile) -> StateHeld
        ensures { state_in result ≡ fresh_selector profile }
    {
        let mut held = StateHeld {
            times: [0; TIMES],
            small: [0; SMALL],
            wider: [0; WIDER],
        };
        start(&mut held.times, &mut held.small, &mut held.wider, profile);
        held
    }

    // The selector's own step of a half.
    fn step(&mut self, goes: bool, event: Event, read: FrameRead) -> u8
        ensures { (result ≡ (half_step (state_in self.old) goes event read).number)
            × (state_in self.new ≡ (half_step (state_in self.old) goes event read).state) }
    {
        half_step(
            &mut self.times,
            &mut self.small,
            &mut self.wider,
            goes,
            event,
            read,
        )
    }
}

// A start of a profile with a minimum: two fresh selectors, and the minimum. One that is out of
// range is refused with 6.
#[tactic(auto, unfolding(crate::specs::Kept::started_unit))]
pub fn start_unit(profile: Profile, minimum: Quality) -> UnitStartedHeld
    ensures { started_in result ≡ started_unit profile minimum }
{
    let equipment = StateHeld::fresh(profile);
    let station = StateHeld::fresh(profile);
    let (number, minimum) = if is_minimum(profile, minimum) {
        (ACCEPTED, minimum)
    } else {
        (ARGUMENT_OUT_OF_RANGE, PRC)
    };
    UnitStartedHeld {
        number,
        unit: UnitHeld {
            equipment,
            station,
            minimum,
        },
    }
}

impl UnitHeld {
    // One event with its frame read, sent to a half: the number of each selector.
    #[tactic(auto, unfolding(crate::specs::Kept::step_unit_read))]
    pub fn step_unit(&mut self, to: Half, event: Event, read: FrameRead) -> UnitNumbers
        ensures { stepped_in self.new result ≡ step_unit_read (unit_in self.old) to event read }
    {
        let profile = profile_at(&self.equipment.small, &self.equipment.wider);
        let limits = limits_of(profile);
        let to_equipment = goes_to(limits, event.kind, to, Half::Equipment);
        let to_station = goes_to(limits, event.kind, to, Half::Station);
        let equipment = self.equipment.step(to_equipment, event, read);
        let station = self.station.step(to_station, event, read);
        UnitNumbers { equipment, station }
    }
}
