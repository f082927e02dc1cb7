// Refusals: the tests in the order of the list. The first that holds refuses.
ghost use Rattle.std.specs.Prelude.{◌≡◌, not, List, [], ◌∷◌, ◌==◌, IfOk};
ghost use Rattle.rules.specs.declared.Call.TheVariants.{Send as SendCall, WaitForIo as IoCall, CreateBrother as BrotherCall};
ghost use Rattle.rules.specs.Tables.{live};
ghost use Rattle.rules.specs.Refused.{refusal_told};
ghost use Rattle.rules.specs.Refusals.{over, wants_nobody as wants_nobody_of, ends_nobody as ends_nobody_of, call_rules, first_of, no_thread_free};
ghost use Rattle.rules.specs.Refusals.{◌refuses◌, refusal as refusal_of};
ghost use Rattle.store.specs.Store.{limits, tables, Holding};
ghost use Rattle.handling.specs.Standing.{MidEvent};
ghost use Rattle.stepping.specs.Stepping.{event_of, Asks};

use handling::{dispatch, moves};
use rules::refusal::Refusal;
use rules::{Call, Event, Message, MessageKind, Runner, Status, Target, Wanted};
use serving::send;
use store;

// An event that nothing refuses; a call has the runner's name.
#[derive(Clone, Copy)]
pub enum Accepted {
    ByRunner(u8, Call),
    Tick,
    Interrupt(u8, u32),
}

// 1: halted or panicked.
fn is_over(s: Status) -> bool
    ensures { result ≡ over s }
{
    matches!(s, Status::Halted | Status::Panicked)
}

// 4: the wanted name is no live thread's.
fn wants_nobody(m: &[u32], w: Wanted) -> bool
    requires { Holding m.now }
    ensures { result ≡ wants_nobody_of (tables m.now) w }
{
    matches!(w, Wanted::Only(n) if !store::is_live(m, n))
}

fn ends_nobody(m: &[u32], who: Target) -> bool
    requires { Holding m.now }
    ensures { result ≡ ends_nobody_of (tables m.now) who }
{
    matches!(who, Target::Named(n) if !store::is_live(m, n))
}

// 4, 9, 5.
fn refuse_send(m: &[u32], me: u8, to: u8, word: u32) -> Result<(), Refusal>
    requires { Holding m.now }
    ensures { refusal_told result ≡ first_of (call_rules (limits m.now) (tables m.now) me (SendCall to word)) }
{
    if !store::is_live(m, to) {
        return Err(Refusal::NotLive);
    }
    if send::decides(m, me, to) {
        if word > 1 {
            return Err(Refusal::NoDecision);
        }
        return Ok(());
    }
    let x = Message {
        to,
        from: me,
        kind: MessageKind::Ordinary,
        word,
    };
    if !moves::is_awaited(m, x) && store::blocks_full(m) {
        return Err(Refusal::NoBlockFree);
    }
    Ok(())
}

// 7, 6.
fn refuse_brother(m: &[u32], me: u8) -> Result<(), Refusal>
    requires { Holding m.now }
    ensures { refusal_told result ≡ first_of (call_rules (limits m.now) (tables m.now) me BrotherCall) }
{
    if me == 0 {
        return Err(Refusal::BrotherOfFirst);
    }
    refuse_son(m)
}

// 6.
fn refuse_son(m: &[u32]) -> Result<(), Refusal>
    requires { Holding m.now }
    ensures { refusal_told result ≡ first_of ((no_thread_free (limits m.now) (tables m.now) refuses 6) ∷ []) }
{
    if store::threads_full(m) {
        return Err(Refusal::NoThreadFree);
    }
    Ok(())
}

// 8.
#[tactic(auto, using(store::proofs::Limits::some_name), unfolding(rules::specs::Refusals::first_of, rules::specs::Refusals::call_rules, rules::specs::Refused::refusal_number, rules::specs::Refused::refusal_told))]
fn refuse_device(m: &[u32], d: u8) -> Result<(), Refusal>
    requires { MidEvent m.now }
    ensures { refusal_told result ≡ first_of (call_rules (limits m.now) (tables m.now) 0 (IoCall d)) }
{
    if store::waiter(m, d).is_some() {
        return Err(Refusal::DeviceTaken);
    }
    Ok(())
}

// 4, 10.
fn refuse_manager(m: &[u32], me: u8, n: u8) -> Result<(), Refusal>
    requires { Holding m.now }
    ensures { refusal_told result ≡ first_of ((not (live n (tables m.now)) refuses 4) ∷ ((n == me) refuses 10) ∷ []) }
{
    if !store::is_live(m, n) {
        return Err(Refusal::NotLive);
    }
    if n == me {
        return Err(Refusal::OwnName);
    }
    Ok(())
}

// 4, 9, 5, 7, 6, 10, 8: what a call of the runner can meet.
fn refuse_call(m: &[u32], me: u8, c: Call) -> Result<(), Refusal>
    requires { MidEvent m.now }
    ensures { refusal_told result ≡ first_of (call_rules (limits m.now) (tables m.now) me c) }
{
    match c {
        Call::Send(to, word) => refuse_send(m, me, to, word),
        Call::Receive(w) if wants_nobody(m, w) => Err(Refusal::NotLive),
        Call::CreateBrother => refuse_brother(m, me),
        Call::CreateSon => refuse_son(m),
        Call::Terminate(who) if ends_nobody(m, who) => Err(Refusal::NotLive),
        Call::SetManager(_, n) => refuse_manager(m, me, n),
        Call::WaitForIo(d) => refuse_device(m, d),
        _ => Ok(()),
    }
}

// An event is accepted, or refused.
#[tactic(auto, unfolding(crate::specs::Stepping::event_of, crate::specs::Stepping::Asks, rules::specs::Refusals::refusal, rules::specs::Refusals::first_of, rules::specs::Refusals::is_malformed, rules::specs::Refusals::needs_runner, rules::specs::Refusals::own_rules, rules::specs::Tables::runs, rules::specs::Tables::me, rules::specs::Refused::refusal_number, rules::specs::Refused::refusal_told))]
pub fn accept(m: &[u32], e: Event) -> Result<Accepted, Refusal>
    requires { MidEvent m.now }
    ensures told { refusal_told result ≡ refusal_of (limits m.now) (tables m.now) e }
    ensures meant { IfOk result (λ a. event_of a ≡ e) }
    ensures asks { IfOk result (λ a. Asks (tables m.now) a) }
{
    if is_over(dispatch::status(m)) {
        return Err(Refusal::Over);
    }
    match e {
        Event::Malformed => Err(Refusal::Malformed),
        Event::ByRunner(c) => {
            let Runner::Runs(me, _) = store::runner(m) else {
                return Err(Refusal::NobodyRuns);
            };
            refuse_call(m, me, c)?;
            Ok(Accepted::ByRunner(me, c))
        }
        Event::Tick => Ok(Accepted::Tick),
        Event::Interrupt(d, word) => Ok(Accepted::Interrupt(d, word)),
    }
}
