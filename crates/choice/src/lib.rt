// Which of the sixteen inputs is chosen: document 01, "Choosing".
//
// A candidate is what a choice looks at of one input. Nothing here knows inputs, time or a switch,
// and no public function has a `requires`.
#![tactic(auto)]

ghost use Rattle.std.specs.Prelude.{◌≡◌};
ghost use Rattle.choice.specs.Rank.{is_placed, rank_of, floor_rank};
ghost use Rattle.choice.specs.Candidate.{is_usable, is_admitted, candidate_of, is_eligible, is_better, is_like};
ghost use Rattle.choice.specs.Leader.{lead, seed, best_of, is_passed, offer};

use numbers::quality::{NOT_TOLD, PROV, Quality, is_failed};
use numbers::{INPUT_COUNT, InputNumber, Priority};

// What a choice looks at of an input, the floor as it was set, 0 for none, or the one in force: with
// the profile and the mode nothing else makes a candidate.
#[derive(Clone, Copy, PartialEq, Eq)]
pub struct Seen {
    pub passed: Quality,
    pub priority: Priority,
    pub floor: u8,
    pub locked: bool,
}

// What qualities are compared by, lower is better.
#[derive(Clone, Copy, PartialEq, Eq, PartialOrd, Ord)]
pub struct Rank(pub u16);

// The rank of all inputs with quality mode off.
const UNRANKED: Rank = Rank(0);

// One input as a choice sees it: its quality (0 for all with quality mode off) and how it ranks,
// its priority, whether it is neither off nor locked, and whether its passed quality is usable.
#[derive(Clone, Copy)]
pub struct Candidate {
    pub quality: Quality,
    pub rank: Rank,
    pub priority: Priority,
    pub admitted: bool,
    pub usable: bool,
}

// Stands where there is no such input: not eligible.
pub const NOBODY: Candidate = Candidate {
    quality: NOT_TOLD,
    rank: Rank(0),
    priority: Priority(0),
    admitted: false,
    usable: false,
};

// The one that leads while the inputs are offered, one by one, if any does, with its rank and its
// priority, which later ones are compared with; 0 both where nothing leads.
#[derive(Clone, Copy)]
pub struct Leader {
    pub selection: Option<InputNumber>,
    pub rank: Rank,
    pub priority: Priority,
}

// Nothing leads.
const NO_LEADER: Leader = Leader {
    selection: None,
    rank: Rank(0),
    priority: Priority(0),
};

// A number doubled, with room for it.
fn doubled(number: u8) -> u16
    ensures { result ≡ floor_rank number }
{
    2 * u16::from(number)
}

// Whether a quality is PROV, and has a place.
#[tactic(auto, unfolding(crate::specs::Rank::is_placed))]
fn is_placed(provplace: u8, quality: Quality) -> bool
    ensures { result ≡ is_placed provplace quality }
{
    quality == PROV && provplace != 0
}

// The rank of a quality: twice its number, and PROV between two where it is placed.
#[tactic(auto, unfolding(crate::specs::Rank::rank_of))]
pub fn rank_of(provplace: u8, quality: Quality) -> Rank
    ensures { result ≡ rank_of provplace quality }
{
    if is_placed(provplace, quality) {
        return Rank(doubled(provplace) + 1);
    }
    Rank(doubled(quality.0))
}

// Whether a passed quality is usable: not failed, and with quality mode on from 1 to the floor.
#[tactic(auto, unfolding(crate::specs::Candidate::is_usable))]
pub fn is_usable(mode: bool, floor: u8, rank: Rank, passed: Quality) -> bool
    ensures { result ≡ is_usable mode floor rank passed }
{
    !is_failed(passed) && (!mode || (1 <= rank.0 && rank.0 <= doubled(floor)))
}

// Whether an input is neither off nor locked.
#[tactic(auto, unfolding(crate::specs::Candidate::is_admitted))]
fn is_admitted(priority: Priority, locked: bool) -> bool
    ensures { result ≡ is_admitted priority locked }
{
    priority.0 != 0 && !locked
}

impl Seen {
    // Whether a choice sees no difference, and so makes the same of both.
    #[tactic(auto, unfolding(crate::specs::Candidate::is_like))]
    pub fn is_like(self, other: Self) -> bool
        ensures { result ≡ is_like self other }
    {
        self == other
    }

    // The input as a choice sees it, where the floor is the one in force and `provplace` that of PROV.
    // With quality mode off no quality is ranked: most of the work is for the other.
    #[tactic(auto, unfolding(crate::specs::Candidate::candidate_of, crate::specs::Candidate::ranked_quality, crate::specs::Rank::rank_of, crate::specs::Rank::is_placed))]
    pub fn candidate(self, provplace: u8, mode: bool) -> Candidate
        ensures { result ≡
            candidate_of provplace self.floor self.passed self.priority
            self.locked mode }
    {
        let admitted = is_admitted(self.priority, self.locked);
        if mode {
            let rank = rank_of(provplace, self.passed);
            return Candidate {
                quality: self.passed,
                rank,
                priority: self.priority,
                admitted,
                usable: is_usable(mode, self.floor, rank, self.passed),
            };
        }
        Candidate {
            quality: NOT_TOLD,
            rank: UNRANKED,
            priority: self.priority,
            admitted,
            usable: is_usable(mode, self.floor, UNRANKED, self.passed),
        }
    }
}

impl Candidate {
    #[tactic(auto, unfolding(crate::specs::Candidate::is_eligible))]
    pub fn is_eligible(self) -> bool
        ensures { result ≡ is_eligible self }
    {
        self.admitted && self.usable
    }

    // Lower passed quality (mode on only), then lower priority number.
    #[tactic(auto, unfolding(crate::specs::Candidate::is_better))]
    pub fn is_better(self, other: Self) -> bool
        ensures { result ≡ is_better self other }
    {
        (self.rank, self.priority) < (other.rank, other.priority)
    }

    // It leads.
    fn lead(self, number: InputNumber) -> Leader
        ensures { result ≡ lead number self }
    {
        Leader {
            selection: Some(number),
            rank: self.rank,
            priority: self.priority,
        }
    }
}

// The input selected at the choice just before leads at first, if it is eligible; `candidate` is
// what the choice sees of it.
#[tactic(auto, unfolding(crate::specs::Leader::seed))]
pub fn seed(before: Option<InputNumber>, candidate: Candidate) -> Leader
    ensures { result ≡ seed before candidate }
{
    match before {
        Some(number) if number.0 < INPUT_COUNT && candidate.is_eligible() => candidate.lead(number),
        _ => NO_LEADER,
    }
}

impl Leader {
    // What later ones are compared with: a candidate of the leader's rank and priority.
    fn best(self) -> Candidate
        ensures { result ≡ best_of self }
    {
        Candidate {
            quality: NOT_TOLD,
            rank: self.rank,
            priority: self.priority,
            admitted: true,
            usable: true,
        }
    }

    // Whether a candidate passes the one that leads: nothing does, or it is strictly better.
    #[tactic(auto, unfolding(crate::specs::Leader::is_passed))]
    fn is_passed(self, candidate: Candidate) -> bool
        ensures { result ≡ is_passed self.selection candidate (best_of self) }
    {
        self.selection.is_none() || candidate.is_better(self.best())
    }

    // The one that leads once an input has been offered: a strictly better one takes over. The
    // choice is the one that leads after all sixteen: the best of the eligible inputs; of full
    // equals the one selected just before, otherwise the lowest number.
    #[tactic(auto, unfolding(crate::specs::Leader::offer))]
    pub fn offer(self, number: InputNumber, candidate: Candidate) -> Self
        ensures { result ≡ offer self number candidate }
    {
        if candidate.is_eligible() && self.is_passed(candidate) {
            return candidate.lead(number);
        }
        self
    }
}
