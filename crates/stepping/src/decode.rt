// Events as bytes: what one field means. What means nothing is an event of the rules (Events.decode, Proper), so it is Malformed and not None.
ghost use Rattle.std.specs.Prelude.{◌≡◌, true, ◌+◌, ◌≤◌, ◌<◌, length, take, drop, if◌then◌else◌};
ghost use Rattle.rules.specs.Lists.{number};
ghost use Rattle.rules.specs.Pick.{pick as pick_of};
ghost use Rattle.rules.specs.declared.Event.TheVariants.{ByRunner as ByTheRunner, Malformed as Rubbish};
ghost use Rattle.rules.specs.Events.{request as request_of, trap_of as trap_for, interrupt_of as interrupt_for, meaning as meaning_of};
ghost use Rattle.rules.specs.Events.{decode as decode_of};
ghost use Rattle.rules.specs.Tags.{tag_facts as facts_of, meets as meets_of, argument_rule as rule_of};

use rules::{Call, Event, Target, TrapKind, Wanted, numbers, pick, tags};

// The number in four bytes of a slice.
fn word_at(s: &[u8], at: usize) -> u32
    requires { at + 4 ≤ length s.now }
    ensures { result ≡ number (take 4 (drop at s.now)) }
{
    u32::from_be_bytes([s[at], s[at + 1], s[at + 2], s[at + 3]])
}

// The number in eight bytes of a slice.
fn pending_at(s: &[u8], at: usize) -> u64
    requires { at + 8 ≤ length s.now }
    ensures { result ≡ number (take 8 (drop at s.now)) }
{
    u64::from_be_bytes([
        s[at],
        s[at + 1],
        s[at + 2],
        s[at + 3],
        s[at + 4],
        s[at + 5],
        s[at + 6],
        s[at + 7],
    ])
}

// A request whose argument meets its service's rule. The numbers are the document's, as in the rules' table `services`.
fn request(service: u8, argument: u8) -> Call
    requires { meets_of (rule_of service) argument ≡ true }
    ensures { ByTheRunner result ≡ request_of service argument }
{
    match service {
        1 => Call::CreateBrother,
        2 => Call::CreateSon,
        3 => Call::Terminate(Target::from(argument)),
        4 => Call::SetManager(TrapKind::Program, argument),
        5 => Call::SetManager(TrapKind::Tlb, argument),
        6 => Call::SetManager(TrapKind::SysBp, argument),
        7 => Call::GetCpuTime,
        8 => Call::WaitForClock,
        _ => Call::WaitForIo(argument),
    }
}

fn trap(kind: u8, cause: u32) -> Event
    ensures { result ≡ trap_for kind cause }
{
    match kind {
        0..=2 => Event::ByRunner(Call::Trap(TrapKind::from(kind), cause)),
        _ => Event::Malformed,
    }
}

fn interrupt(pending: u64, word: u32) -> Event
    ensures { result ≡ interrupt_for (pick_of pending) word }
{
    // What the pick answers is laid out as in C: 0 is no refusal.
    let p = pick::pick(pending);
    if p.refusal == 0 {
        Event::Interrupt(p.device, word)
    } else {
        Event::Malformed
    }
}

fn asked(service: u8, argument: u8) -> Event
    ensures { result ≡ (if meets_of (rule_of service) argument then request_of service argument else Rubbish) }
{
    if tags::meets(tags::argument_rule(service), argument) {
        Event::ByRunner(request(service, argument))
    } else {
        Event::Malformed
    }
}

// The value of a field whose tag and length are right. The value starts behind the tag and the length.
fn meaning(tag: u8, s: &[u8]) -> Event
    requires { ((facts_of tag).known ≡ true) × (length s.now ≡ (facts_of tag).length + 3) }
    ensures { result ≡ meaning_of tag (drop 3 s.now) }
{
    match tag {
        tags::SEND => Event::ByRunner(Call::Send(s[3], word_at(s, 4))),
        tags::RECEIVE => Event::ByRunner(Call::Receive(Wanted::from(s[3]))),
        tags::REQUEST => asked(s[3], s[4]),
        tags::TRAP => trap(s[3], word_at(s, 4)),
        tags::TICK => Event::Tick,
        _ => interrupt(pending_at(s, 3), word_at(s, 11)),
    }
}

// What the bytes of one field mean; anything but exactly one well-formed field is malformed.
pub fn decode(s: &[u8]) -> Event
    ensures { result ≡ decode_of s.now }
{
    let [tag, high, low, value @ ..] = s else {
        return Event::Malformed;
    };
    let Some(f) = tags::tag_facts(*tag) else {
        return Event::Malformed;
    };
    let length = u16::from_be_bytes([*high, *low]);
    if length != f.length || value.len() != usize::from(length) {
        return Event::Malformed;
    }
    meaning(*tag, s)
}
