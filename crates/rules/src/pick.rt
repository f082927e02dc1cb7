// The pick: which of the pending devices is served. It looks at no tables, so it can be asked for by itself.
ghost use Rattle.std.specs.Prelude.{◌≡◌};
ghost use Rattle.std.specs.Int.Count.{count_trailing_zeros};
ghost use Rattle.rules.specs.Numbers.{pending_bits};
ghost use Rattle.rules.specs.Pick.{pick as pick_of};

use crate::{Picked, numbers};

// Refusal 2, as C reads it.
const REFUSED: Picked = Picked {
    refusal: 2,
    device: numbers::NOBODY,
};

// 2^48: a word has a device over 47 pending exactly if it is this or more.
const PAST_DEVICES: u64 = 281474976710656;

// The classes of devices as bits of the pending word, a digit for four devices: 0 to 31, then the even numbers by which terminals
// transmit, then the odd ones by which they receive.
const LINES: u64 = 0x0000_0000_ffff_ffff;

const TRANSMITTERS: u64 = 0x0000_5555_0000_0000;

const RECEIVERS: u64 = 0x0000_aaaa_0000_0000;

// The lowest device of a class, where one is pending: with none the trailing zeros would name device 64.
fn lowest(class: u64) -> Picked
    ensures { result ≡ record { refusal = 0; device = count_trailing_zeros pending_bits class } }
{
    Picked {
        refusal: 0,
        device: class.trailing_zeros() as u8,
    }
}

pub fn pick(pending: u64) -> Picked
    ensures { result ≡ pick_of pending }
{
    if pending == 0 {
        return REFUSED;
    }
    if pending >= PAST_DEVICES {
        return REFUSED;
    }
    if pending & LINES != 0 {
        return lowest(pending & LINES);
    }
    if pending & TRANSMITTERS != 0 {
        return lowest(pending & TRANSMITTERS);
    }
    lowest(pending & RECEIVERS)
}
