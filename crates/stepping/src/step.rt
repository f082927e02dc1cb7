// The step: an event refused, or served, dispatched and answered.
ghost use Rattle.std.specs.Prelude.{◌≡◌, ℕ};
ghost use Rattle.rules.specs.declared.Runner.TheVariants.{Runs as RunsNow};
ghost use Rattle.rules.specs.Waking.{◌handing◌};
ghost use Rattle.rules.specs.Refusals.{call_rules, first_of, refusal as refusal_of};
ghost use Rattle.rules.specs.Step.{serve as serve_of, act as act_of, decided as decided_of, step as step_of};
ghost use Rattle.laws.specs.Decoded.{ProperCall, Proper};
ghost use Rattle.store.specs.Store.{limits, tables, Shaped, Hands};
ghost use Rattle.handling.specs.Standing.{AtRest};
ghost use Rattle.stepping.specs.Stepping.{Steps, event_of, Asks};

use crate::refusals::Accepted;
use crate::{decode, refusals};
use handling::{dispatch, interrupt, tick};
use rules::{Answer, Call, Decision};
use serving::{receive, requests, send, trap};
use store;

// A call of the runner that nothing refuses.
fn serve(m: &mut [u32], me: u8, c: Call) -> Answer
    requires { AtRest m.old × ((s : ℕ) × ((tables m.old).runner ≡ RunsNow me s))
        × (first_of (call_rules (limits m.old) (tables m.old) me c) ≡ 0) × ProperCall c }
    ensures { Hands m.old m.new result (serve_of me (tables m.old) c) }
{
    match c {
        Call::Send(to, word) => {
            send::send(m, me, to, word);
            Answer::Nothing
        }
        Call::Receive(w) => receive::receive(m, me, w),
        Call::CreateBrother => requests::create_brother(m, me),
        Call::CreateSon => requests::create_son(m, me),
        Call::Terminate(who) => requests::terminate(m, me, who),
        Call::SetManager(k, n) => requests::set_manager(m, me, k, n),
        Call::GetCpuTime => requests::get_cpu_time(m, me),
        Call::WaitForClock => requests::wait_for_clock(m, me),
        Call::WaitForIo(d) => requests::wait_for_io(m, me, d),
        Call::Trap(k, cause) => {
            trap::trap(m, me, k, cause);
            Answer::Nothing
        }
    }
}

// An event that nothing refuses.
fn act(m: &mut [u32], e: Accepted) -> Answer
    requires { AtRest m.old × Asks (tables m.old) e × (refusal_of (limits m.old) (tables m.old) (event_of e) ≡ 0)
        × Proper (event_of e) }
    ensures { Hands m.old m.new result (act_of (tables m.old) (event_of e)) }
{
    match e {
        Accepted::ByRunner(me, c) => return serve(m, me, c),
        Accepted::Tick => tick::tick(m),
        Accepted::Interrupt(d, word) => interrupt::interrupt(m, d, word),
    }
    Answer::Nothing
}

// What a step reports: the refusal, the status and the runner as they stand now, and the answer. Here a refusal becomes the document's
// number: the rules' Decision has numbers, and C reads them.
fn decided(m: &[u32], refusal: u8, answer: Answer) -> Decision
    requires { Shaped m.now }
    ensures { result ≡ (decided_of refusal (tables m.now handing answer)).decision }
{
    let s = dispatch::status(m);
    let status = u8::from(s);
    let r = store::runner(m);
    let runner = r.name();
    Decision {
        refusal,
        status,
        runner,
        answer,
    }
}

// One event, given by the bytes of its field, on a memory that stands.
pub fn step(m: &mut [u32], event: &[u8]) -> Decision
    requires { AtRest m.old }
    ensures { Steps m.old m.new result
        (step_of (limits m.old) (tables m.old) event.now) }
{
    let e = decode::decode(event);
    match refusals::accept(m, e) {
        Ok(accepted) => {
            let given = act(m, accepted);
            let handed = dispatch::dispatch(m, given);
            decided(m, 0, handed)
        }
        Err(r) => decided(m, u8::from(r), Answer::Nothing),
    }
}
