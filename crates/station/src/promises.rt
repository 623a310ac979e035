// What the station's rules promise over every history, each promise with the number that it turns on.
ghost use Rattle.std.specs.Prelude.{◌≡◌, ℕ, ◌+◌, ◌*◌, true};
ghost use Rattle.station.specs.Attempts.{FaultsAreEarned};
ghost use Rattle.station.specs.Keeping.{RulesKeepThePromises};
ghost use Rattle.station.specs.Stations.{least_memory};
ghost use Rattle.station.specs.Promises.{Always, AnswersWereRead, CollectsByTheRules, EndsInTime, SendsInOrder};

use super::answer::ADDRESS_LENGTH;
use super::inquiry::MOST_ATTEMPTS;
use super::outcome::LEAST_MEMORY;

// An inquiry that has the station for itself has ended by this pulse after its lodging.
const ALONE: u16 = 71;

// Each inquiry before it takes so many pulses at most.
const FOR_EACH: u16 = 70;

// Each attempt puts one copy at most.
const MOST_COPIES: u8 = MOST_ATTEMPTS;

// The pulse after its lodging by which an inquiry has ended, if so many others were unfinished when it was lodged.
pub fn latest_end(unfinished: u8) -> u16
    ensures number { result ≡ 71 + 70 * unfinished }
    ensures law { Always (EndsInTime unfinished result) }
{
    ALONE + FOR_EACH * u16::from(unfinished)
}

// The memory with which collecting gives each slip its one outcome once, and no other slip any.
pub fn least_memory() -> usize
    ensures number { result ≡ least_memory }
    ensures law { Always CollectsByTheRules }
{
    LEAST_MEMORY
}

// How often an inquiry's frame goes out at most; what goes out is whole frames, and requests go in the order lodged.
pub fn most_copies() -> u8
    ensures number { result ≡ 4 }
    ensures law { Always (SendsInOrder result) }
{
    MOST_COPIES
}

// How often an inquiry is tried, each time with its frame put or no space for it, before it is given up.
pub fn attempts_made() -> u8
    ensures number { result ≡ 4 }
    ensures law { Always (FaultsAreEarned result) }
{
    MOST_ATTEMPTS
}

// How many first bytes of a radio answer are those of the address sent; an answer was read after the first copy went out.
pub fn address_length() -> usize
    ensures number { result ≡ 6 }
    ensures law { Always (AnswersWereRead result) }
{
    ADDRESS_LENGTH
}

// Every call that does what the rules say keeps every promise; this is what lodging, pulses and collecting are to carry.
pub fn rules_keep_promises() -> bool
    ensures answer { result ≡ true }
    ensures law { RulesKeepThePromises }
{
    true
}
