// Tests of the rules on the words themselves, s of a state and d of its detail: what they say is not made, so a walk over many threads is
// short. Words that would not be written say device 255 (specs/Saying.antt), so they count where somebody waits for a device.
#![tactic(auto, unfolding(rules::specs::States::on_clock, rules::specs::States::receives, rules::specs::States::at_device, rules::specs::States::wakes_from_outside, rules::specs::States::trapped_on, rules::specs::Tables::manager, crate::specs::Saying::state_in, crate::specs::Saying::thread_in))]

ghost use Rattle.std.specs.Prelude.{◌≡◌, ◌≤◌, length};
ghost use Rattle.rules.specs.States.{on_clock as on_clock_of, receives as receives_of, at_device as at_device_of};
ghost use Rattle.rules.specs.States.{wakes_from_outside as wakes_of, awaits as awaits_of};
ghost use Rattle.words.specs.Saying.{state_in, thread_in};

use crate::saying::{CLOCK, DEVICE, PAST_BYTES, READY, RECEIVING, RUNNING, TRAPPED};
use crate::{saying, states};
use rules::numbers;

pub fn on_clock(s: u32, d: u32) -> bool
    ensures { result ≡ on_clock_of (state_in s d) }
{
    s == CLOCK && d == 0
}

pub fn receives(sender: u8, s: u32, d: u32) -> bool
    ensures { result ≡ receives_of sender (state_in s d) }
{
    s == RECEIVING && (d == PAST_BYTES || saying::byte(d) == sender)
}

// Words that would not be written are asked for 255 alone.
pub fn at_device(device: u8, s: u32, d: u32) -> bool
    ensures { result ≡ at_device_of device (state_in s d) }
{
    if s == DEVICE {
        return device == saying::byte(d);
    }
    device == numbers::NOBODY && states::at_device(device, saying::state_from(s, d))
}

// A detail where there is none, and one that is no kind of trap, says device 255.
pub fn wakes_from_outside(s: u32, d: u32) -> bool
    ensures { result ≡ wakes_of (state_in s d) }
{
    match s {
        RUNNING | READY => d != 0,
        RECEIVING => false,
        TRAPPED => d > 2,
        _ => true,
    }
}

// Is a thread of these words trapped, and n the manager that it waits for? The detail says which of the three entries is asked.
pub fn awaits(n: u8, w: &[u32]) -> bool
    requires { 11 ≤ length w.now }
    ensures { result ≡ awaits_of n (thread_in w.now) }
{
    let d = w[3] as usize;
    w[2] == TRAPPED && d < 3 && states::is_set_to(n, saying::manager_from(w[4 + d]))
}
