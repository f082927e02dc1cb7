// "Value outside its range (slice, detail and answer as runner, state and kind allow)" (17). A number is in its range if it is what is
// written for what it stands for (rules/src/codes.rt), and that is in its range.
ghost use Rattle.std.specs.Prelude.{◌≡◌, true, false, ◌&&◌, ◌≤◌, ◌<◌, leb, length};
ghost use Rattle.std.specs.List.{list_all};
ghost use Rattle.rules.specs.Numbers.{full_slice, wrap};
ghost use Rattle.rules.specs.Words.{by_state, by_wanted, by_parent, by_runner};
ghost use Rattle.rules.specs.Codes.{answer_numbers};
ghost use Rattle.rules.specs.Tags.{head_size, thread_size, message_size};
ghost use Rattle.rules.specs.TableRules.{state_in_range, answer_in_range};
ghost use Rattle.rules.specs.Faults.{wrong_length, is_name as is_name_of, status_fits as status_fits_of, runner_fits as runner_fits_of};
ghost use Rattle.rules.specs.Faults.{state_fits as state_fits_of, answer_fits as answer_fits_of, kind_fits as kind_fits_of};
ghost use Rattle.rules.specs.Faults.{head_fits as head_fits_of, thread_fits as thread_fits_of, message_fits as message_fits_of};
ghost use Rattle.rules.specs.Faults.{value_fits as value_fits_of, out_of_range as out_of_range_of};

use crate::placed::Field;
use crate::{lengths, values};
use rules::{Answer, MessageKind, Parent, Runner, State, Wanted, codes, numbers, tags};

// Statuses are 0 to 3. No Status is made of the number: nothing reads one back, since no memory holds it.
const STATUSES: u8 = 4;

fn is_name(n: u8) -> bool
    ensures { result ≡ is_name_of n }
{
    n < numbers::NAMES
}

#[tactic(auto, using(crate::proofs::Fits::status_below))]
fn status_fits(n: u8) -> bool
    ensures { result ≡ status_fits_of n }
{
    n < STATUSES
}

fn slice_right(n: u8, s: u8) -> bool
    ensures { result ≡ (is_name_of n && leb 1 s && leb s full_slice) }
{
    is_name(n) && 1 <= s && s <= numbers::SLICE
}

fn runner_right(r: Runner) -> bool
    ensures { result ≡ by_runner true (λ n s. is_name_of n && leb 1 s && leb s full_slice) r }
{
    match r {
        Runner::NoRunner => true,
        Runner::Runs(n, s) => slice_right(n, s),
    }
}

fn runner_fits(n: u8, slice: u8) -> bool
    ensures { result ≡ runner_fits_of n slice }
{
    let r = values::runner_from(n, slice);
    slice == r.slice() && runner_right(r)
}

fn parent_right(p: Parent) -> bool
    ensures { result ≡ by_parent true is_name_of p }
{
    match p {
        None => true,
        Some(n) => is_name(n),
    }
}

fn state_right(s: State) -> bool
    ensures { result ≡ (state_in_range s && by_state true (by_wanted true is_name_of) (λ d. true) (λ k. true) s) }
{
    match s {
        State::Receiving(Wanted::Only(n)) => is_name(n),
        State::Device(d) => d < numbers::DEVICES,
        _ => true,
    }
}

fn state_fits(n: u8, detail: u8) -> bool
    ensures { result ≡ state_fits_of n detail }
{
    let s = State::from_numbers(n, detail);
    n == s.number() && detail == s.detail() && state_right(s)
}

fn answer_right(a: Answer) -> bool
    ensures { (answer_numbers a).word < wrap → result ≡ answer_in_range a }
{
    match a {
        Answer::FromMessage(n, _) | Answer::FromNotice(n, _) | Answer::SenderGone(n) => is_name(n),
        _ => true,
    }
}

fn answer_fits(kind: u8, sender: u8, word: u32) -> bool
    ensures { result ≡ answer_fits_of kind sender word }
{
    let a = Answer::from_numbers(kind, sender, word);
    kind == a.kind() && sender == a.sender() && word == a.word() && answer_right(a)
}

fn kind_fits(n: u8) -> bool
    ensures { result ≡ kind_fits_of n }
{
    n == u8::from(MessageKind::from(n))
}

// Field 1.
fn head_fits(v: &[u8]) -> bool
    requires { head_size ≤ length v.now }
    ensures { result ≡ head_fits_of v.now }
{
    status_fits(v[0]) && is_name(v[1]) && runner_fits(v[2], v[3]) && v[4] < numbers::BEAT
}

// Field 2.
fn thread_fits(v: &[u8]) -> bool
    requires { thread_size ≤ length v.now }
    ensures { result ≡ thread_fits_of v.now }
{
    is_name(v[0])
        && parent_right(codes::parent_from(v[1]))
        && state_fits(v[2], v[3])
        && answer_fits(v[11], v[12], values::word_at(v, 13))
}

// Fields 3 and 4.
fn names_fit(v: &[u8]) -> bool
    ensures { result ≡ list_all is_name_of v.now }
{
    v.iter().all(|n| is_name(*n))
}

// Field 5.
fn message_fits(v: &[u8]) -> bool
    requires { message_size ≤ length v.now }
    ensures { result ≡ message_fits_of v.now }
{
    is_name(v[0]) && is_name(v[1]) && kind_fits(v[2])
}

#[tactic(auto, unfolding(rules::specs::Faults::value_fits), using(crate::proofs::Fits::head_long, crate::proofs::Fits::thread_long, crate::proofs::Fits::message_long, crate::proofs::Fits::held_long, crate::proofs::Alls::all_is))]
fn value_fits(tag: u8, v: &[u8]) -> bool
    requires { wrong_length (record { tag = tag; value = v.now }) ≡ false }
    ensures { result ≡ value_fits_of tag v.now }
{
    match tag {
        tags::HEAD => head_fits(v),
        tags::THREAD => thread_fits(v),
        tags::READY | tags::CLOCK => names_fit(v),
        tags::MESSAGE => message_fits(v),
        tags::HELD => v[0] < numbers::DEVICES,
        _ => true,
    }
}

pub fn out_of_range(field: &Field) -> bool
    ensures { result ≡ out_of_range_of field.now }
{
    !lengths::wrong_length(field) && !value_fits(field.tag(), field.value())
}
