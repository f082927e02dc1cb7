// The start.
ghost use Rattle.std.specs.Prelude.{◌≡◌, ◌<◌, length};
ghost use Rattle.rules.specs.Tables.{start as start_of};
ghost use Rattle.store.specs.Store.{limits, tables, Holding, Room};

use rules::numbers::Limits;
use rules::{Runner, State, numbers};
use serving::requests;
use store;

// Thread 0 runs with a full slice; there is nothing else.
pub fn start(m: &mut [u32], l: Limits)
    requires { Room l (length m.old) × (0 < l.threads) }
    ensures { (tables m.new ≡ start_of) × (limits m.new ≡ l) × Holding m.new }
{
    store::clear(m, l);
    store::add_thread(m, requests::new_thread(0, None, State::Running));
    store::set_runner(m, Runner::Runs(0, numbers::SLICE));
}
