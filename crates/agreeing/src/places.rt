// State, runner, ready queue and clock queue agree, each name once; the runner's slice.
#![tactic(auto, unfolding(rules::specs::Tables::runs_as, store::specs::Store::Shaped, store::specs::Store::tables))]

ghost use Rattle.std.specs.Prelude.{◌≡◌, true, ◌&&◌, ℕ, ◌≤◌, get_or, length, ◌==◌};
ghost use Rattle.rules.specs.Lists.{one_if as one_if_of, all, times_in};
ghost use Rattle.rules.specs.Words.{by_runner};
ghost use Rattle.rules.specs.Tables.{live as live_of, runs_as};
ghost use Rattle.rules.specs.States.{is_running, is_ready, on_clock};
ghost use Rattle.rules.specs.TableRules.{places_agree as places_agree_of, runner_right as runner_right_of};
ghost use Rattle.store.specs.Store.{Shaped, tables};

use indexing::index::NamePlaces;
use memory::memory as rows;
use memory::records::{self, NameWalk};
use rules::{Runner, State, numbers};
use words::states;

// Is this name the runner's?
fn is_runner(name: u8, r: Runner) -> bool
    ensures { result ≡ runs_as name r }
{
    matches!(r, Runner::Runs(n, _) if name == n)
}

// How often each name stands in a queue.
fn tally(names: NameWalk<'_>) -> [u8; 256]
    requires { length names ≤ 255 }
    ensures { (k : ℕ) → get_or result k 0 ≡ times_in names.entry k }
{
    let mut c = [0; 256];
    for k in names {
        c[usize::from(k)] += 1;
    }
    c
}

// Does a thread run exactly if it is the runner, and stand in each queue as often as its state says?
fn agrees(s: State, name: u8, r: Runner, in_ready: u8, in_clock: u8) -> bool
    ensures { result ≡ (one_if_of (is_running s) == one_if_of (runs_as name r) && one_if_of (is_ready s) == in_ready
        && one_if_of (on_clock s) == in_clock) }
{
    states::is_running(s) == is_runner(name, r)
        && u8::from(states::is_ready(s)) == in_ready
        && u8::from(states::on_clock(s)) == in_clock
}

fn all_agree(m: &[u32]) -> bool
    requires { Shaped m.now }
    ensures { result ≡ all (λ t. one_if_of (is_running t.state) == one_if_of (runs_as t.name (tables m.now).runner)
        && one_if_of (is_ready t.state) == times_in (tables m.now).ready t.name
        && one_if_of (on_clock t.state) == times_in (tables m.now).clock t.name) (tables m.now).threads }
{
    let r = rows::runner(m);
    let in_ready = tally(records::ready(m));
    let in_clock = tally(records::clock(m));
    records::threads(m).all(|t| {
        let k = usize::from(t.name());
        agrees(t.state(), t.name(), r, in_ready[k], in_clock[k])
    })
}

fn runner_live(x: &NamePlaces<'_>, r: Runner) -> bool
    ensures { result ≡ by_runner true (λ k s. live_of k (tables x.now)) r }
{
    match r {
        Runner::NoRunner => true,
        Runner::Runs(k, _) => x.is_live(k),
    }
}

// Are the names of a queue live?
fn all_live(x: &NamePlaces<'_>, mut names: NameWalk<'_>) -> bool
    ensures { result ≡ all (λ k. live_of k (tables x.now)) names.entry }
{
    names.all(|k| x.is_live(k))
}

pub fn places_agree(x: &NamePlaces<'_>) -> bool
    ensures { result ≡ places_agree_of (tables x.now) }
{
    let m = x.words();
    all_agree(m)
        && runner_live(x, rows::runner(m))
        && all_live(x, records::ready(m))
        && all_live(x, records::clock(m))
}

// Nobody is ready without a runner; slice 1 to 5 with a runner.
pub fn runner_right(m: &[u32]) -> bool
    requires { Shaped m.now }
    ensures { result ≡ runner_right_of (tables m.now).ready (tables m.now).runner }
{
    match rows::runner(m) {
        Runner::NoRunner => rows::readies(m) == 0,
        Runner::Runs(_, slice) => 1 <= slice && slice <= numbers::SLICE,
    }
}
