// Held words: one for a device at most.
ghost use Rattle.std.specs.Prelude.{◌≡◌, ◌<◌, true, not, nat_lt};
ghost use Rattle.rules.specs.Lists.{all, keep};
ghost use Rattle.rules.specs.Numbers.{devices};
ghost use Rattle.rules.specs.Tables.{with_held};
ghost use Rattle.rules.specs.Interrupt.{held_for, hold as hold_of};
ghost use Rattle.store.specs.Store.{tables, Shaped, Holding, Leaves, held_word};

use memory::memory as rows;

// The word that is held for a device, if one is.
pub fn word_held(m: &[u32], d: u8) -> Option<u32>
    requires { Shaped m.now × (d < devices) }
    ensures { result ≡ held_word d (tables m.now).held }
{
    rows::held(m, d)
}

// A word is held for a device, in place of one held before.
pub fn hold(m: &mut [u32], d: u8, word: u32)
    requires { Holding m.old × (d < devices) × (all (λ h. nat_lt h.device devices) (tables m.old).held ≡ true) }
    ensures { Leaves m.old m.new
        (with_held (hold_of d word (tables m.old).held) (tables m.old)) }
{
    rows::hold(m, d, word);
}

// No word is held for a device.
pub fn clear_held(m: &mut [u32], d: u8)
    requires { Holding m.old × (d < devices) × (all (λ h. nat_lt h.device devices) (tables m.old).held ≡ true) }
    ensures { Leaves m.old m.new
        (with_held (keep (λ h. not (held_for d h)) (tables m.old).held) (tables m.old)) }
{
    rows::clear_held(m, d);
}
