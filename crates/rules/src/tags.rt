// The one table of tags and services that step and program share: value length, need of a runner, argument rule.
// It is proved to be the table of specs/Tags.antt, number by number. Then the fields of a dump; what is written and read by these
// numbers is proved to be what the rules' numbers give.
#![tactic(auto, unfolding(crate::specs::Tags::facts_in, crate::specs::Tags::tag_facts, crate::specs::Tags::event_field, crate::specs::Tags::dump_facts_in, crate::specs::Tags::dump_facts, crate::specs::Tags::dump_field, crate::specs::Tags::rule_in, crate::specs::Tags::argument_rule, crate::specs::Tags::meets))]

ghost use Rattle.std.specs.Prelude.{◌≡◌};
ghost use Rattle.rules.specs.Tags.{event_field, tag_facts as facts_of, dump_field, dump_facts as dump_facts_of, argument_rule as rule_of};
ghost use Rattle.rules.specs.Tags.{meets as meets_of};

use crate::{Argument, DumpField, EventField, numbers};

pub const SEND: u8 = 16;

pub const RECEIVE: u8 = 17;

pub const REQUEST: u8 = 18;

pub const TRAP: u8 = 19;

pub const TICK: u8 = 20;

const FIRST_TAG: u8 = SEND;

// From FIRST_TAG on: send, receive, request, trap, tick, interrupt.
const TAGS: [EventField; 6] = [
    EventField {
        length: 5,
        runner: true,
    },
    EventField {
        length: 1,
        runner: true,
    },
    EventField {
        length: 2,
        runner: true,
    },
    EventField {
        length: 5,
        runner: true,
    },
    EventField {
        length: 0,
        runner: false, // time goes on while nobody runs
    },
    EventField {
        length: 12,
        runner: false, // and so do devices
    },
];

// By service, 1 to 9. There is no service 0, so the number is the place.
const RULES: [Argument; 10] = [
    Argument::NoService,
    Argument::Zero,
    Argument::Zero,
    Argument::AnyName,
    Argument::AnyName,
    Argument::AnyName,
    Argument::AnyName,
    Argument::Zero,
    Argument::Zero,
    Argument::ADevice,
];

// A tag byte and a length of two bytes stand before a value.
pub const BEFORE_VALUE: usize = 3;

// A tag of the dump, the length of its value, and of the whole field.
pub const HEAD: u8 = 1;

pub const HEAD_SIZE: u8 = 9;

pub const HEAD_FIELD: usize = BEFORE_VALUE + HEAD_SIZE as usize;

pub const THREAD: u8 = 2;

pub const THREAD_SIZE: u8 = 17;

pub const THREAD_FIELD: usize = BEFORE_VALUE + THREAD_SIZE as usize;

// A name for each that is ready, and then for each that waits for the clock.
pub const READY: u8 = 3;

pub const CLOCK: u8 = 4;

pub const MESSAGE: u8 = 5;

pub const MESSAGE_SIZE: u8 = 7;

pub const MESSAGE_FIELD: usize = BEFORE_VALUE + MESSAGE_SIZE as usize;

pub const HELD: u8 = 6;

pub const HELD_SIZE: u8 = 5;

pub const HELD_FIELD: usize = BEFORE_VALUE + HELD_SIZE as usize;

pub fn tag_facts(tag: u8) -> Option<EventField>
    ensures { result ≡ event_field (facts_of tag) }
{
    TAGS.get(tag.checked_sub(FIRST_TAG)? as usize).copied()
}

pub fn dump_facts(tag: u8) -> Option<DumpField>
    ensures { result ≡ dump_field (dump_facts_of tag) }
{
    let (place, length, once) = match tag {
        HEAD => (0, Some(HEAD_SIZE), true),
        THREAD => (1, Some(THREAD_SIZE), false),
        READY => (2, None, true),
        CLOCK => (3, None, true),
        MESSAGE => (4, Some(MESSAGE_SIZE), false),
        HELD => (5, Some(HELD_SIZE), false),
        _ => return None,
    };
    Some(DumpField {
        place,
        length,
        once,
    })
}

pub fn argument_rule(service: u8) -> Argument
    ensures { result ≡ rule_of service }
{
    RULES
        .get(service as usize)
        .copied()
        .unwrap_or(Argument::NoService)
}

pub fn meets(rule: Argument, argument: u8) -> bool
    ensures { result ≡ meets_of rule argument }
{
    match rule {
        Argument::NoService => false,
        Argument::Zero => argument == 0,
        Argument::AnyName => true,
        Argument::ADevice => argument < numbers::DEVICES,
    }
}
