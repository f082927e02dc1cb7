// The last line of the event program: one of three fixed texts, by the status.
ghost use Rattle.std.specs.Prelude.{◌≤◌, length};
ghost use Rattle.rules.specs.Dispatch.{status};
ghost use Rattle.store.specs.Store.{tables, Shaped};
ghost use Rattle.buffer.specs.Puts.{Puts};
ghost use Rattle.lines.specs.Text.{last_line};

use handling::dispatch;
use rules::Status;

#[tactic(auto, unfolding(crate::specs::Text::last_line))]
pub fn put_last(out: &mut [u8], m: &[u32]) -> usize
    requires { Shaped m.now × (16 ≤ length out.old) }
    ensures { Puts (last_line (status (tables m.now))) out.old out.new result }
{
    match dispatch::status(m) {
        Status::Halted => buffer::put_bytes(out, b"SYSTEM HALTED\n"),
        Status::Panicked => buffer::put_bytes(out, b"KERNEL PANIC\n"),
        Status::Running | Status::Idle => buffer::put_bytes(out, b"SYSTEM UP\n"),
    }
}
