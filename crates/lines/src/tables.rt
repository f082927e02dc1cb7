// Tables as lines of numbers, a line for each field of the dump. A line of n numbers needs at most 1 + 21 n bytes.
ghost use Rattle.std.specs.Prelude.{◌≡◌, ◌<◌, ◌≤◌, ◌*◌, ◌∷◌, length};
ghost use Rattle.rules.specs.Lists.{each};
ghost use Rattle.rules.specs.Numbers.{small, devices};
ghost use Rattle.store.specs.Store.{limits, tables, Shaped};
ghost use Rattle.dumping.specs.Dumping.{Dumpable, held_at};
ghost use Rattle.buffer.specs.Puts.{Puts};
ghost use Rattle.lines.specs.Text.{numbers_line, head_line, thread_line, message_line, held_line, table_lines};

use crate::decimal;
use handling::dispatch;
use memory::records::{self, NameWalk};
use rules::{Message, Thread, codes, numbers, tags};
use store;

// The room that the tables are given: a head of 148 bytes at most, 20 threads of 253, two queues of 442, 40 messages of 106 and 48 held
// words of 64.
pub const ROOM: usize = 13404;

fn put_head(out: &mut [u8], m: &[u32]) -> usize
    requires { Shaped m.now × (148 ≤ length out.old) }
    ensures { Puts (head_line (tables m.now)) out.old out.new result }
{
    let s = dispatch::status(m);
    let r = store::runner(m);
    let row = [
        tags::HEAD as u64,
        u8::from(s) as u64,
        store::last(m) as u64,
        r.name() as u64,
        r.slice() as u64,
        store::since(m) as u64,
        store::beats(m) as u64,
    ];
    decimal::put_numbers(out, &row)
}

fn put_thread(out: &mut [u8], t: Thread) -> usize
    requires { 253 ≤ length out.old }
    ensures { Puts (thread_line t) out.old out.new result }
{
    let row = [
        tags::THREAD as u64,
        t.name as u64,
        codes::parent_code(t.parent) as u64,
        t.state.number() as u64,
        t.state.detail() as u64,
        u8::from(t.managers.program) as u64,
        u8::from(t.managers.tlb) as u64,
        u8::from(t.managers.sysbp) as u64,
        t.ticks as u64,
        t.answer.kind() as u64,
        t.answer.sender() as u64,
        t.answer.word() as u64,
    ];
    decimal::put_numbers(out, &row)
}

// Threads and messages have a loop each, as where a dump is written: see dumping::writing.
fn put_threads(out: &mut [u8], m: &[u32]) -> usize
    requires { Shaped m.now × (length (tables m.now).threads ≤ 20) × (5060 ≤ length out.old) }
    ensures { Puts (each thread_line (tables m.now).threads) out.old out.new result }
{
    let mut at = 0;
    for t in records::threads(m) {
        at += put_thread(&mut out[at..], t.thread());
    }
    at
}

// The names of a queue behind their tag, front first.
fn put_names(out: &mut [u8], tag: u8, names: NameWalk<'_>) -> usize
    requires { (length names ≤ 20) × (442 ≤ length out.old) }
    ensures { Puts (numbers_line (tag ∷ names.entry)) out.old out.new result }
{
    let mut at = decimal::put_decimal(out, tag as u64);
    for name in names {
        at += decimal::put_spaced(&mut out[at..], name as u64);
    }
    out[at] = b'\n';
    at + 1
}

fn put_message(out: &mut [u8], x: Message) -> usize
    requires { 106 ≤ length out.old }
    ensures { Puts (message_line x) out.old out.new result }
{
    let row = [
        tags::MESSAGE as u64,
        x.to as u64,
        x.from as u64,
        u8::from(x.kind) as u64,
        x.word as u64,
    ];
    decimal::put_numbers(out, &row)
}

fn put_messages(out: &mut [u8], m: &[u32]) -> usize
    requires { Shaped m.now × (length (tables m.now).messages ≤ 40) × (4240 ≤ length out.old) }
    ensures { Puts (each message_line (tables m.now).messages) out.old out.new result }
{
    let mut at = 0;
    for x in records::messages(m) {
        at += put_message(&mut out[at..], x.message());
    }
    at
}

// The word that is held for a device, if one is.
fn put_word(out: &mut [u8], m: &[u32], d: u8) -> usize
    requires { Shaped m.now × (d < devices) × (64 * length (held_at d (tables m.now).held) ≤ length out.old) }
    ensures { Puts (each held_line (held_at d (tables m.now).held)) out.old out.new result }
{
    let Some(word) = store::word_held(m, d) else {
        return 0;
    };
    let row = [tags::HELD as u64, d as u64, word as u64];
    decimal::put_numbers(out, &row)
}

// By rising device.
fn put_held(out: &mut [u8], m: &[u32]) -> usize
    requires { Dumpable m.now × (3072 ≤ length out.old) }
    ensures { Puts (each held_line (tables m.now).held) out.old out.new result }
{
    let mut at = 0;
    for d in 0..numbers::DEVICES {
        at += put_word(&mut out[at..], m, d);
    }
    at
}

pub fn put_tables(out: &mut [u8], m: &[u32]) -> usize
    requires { Dumpable m.now × (limits m.now ≡ small) × (13404 ≤ length out.old) }
    ensures { Puts (table_lines (tables m.now)) out.old out.new result }
{
    let mut at = put_head(out, m);
    at += put_threads(&mut out[at..], m);
    at += put_names(&mut out[at..], tags::READY, records::ready(m));
    at += put_names(&mut out[at..], tags::CLOCK, records::clock(m));
    at += put_messages(&mut out[at..], m);
    at += put_held(&mut out[at..], m);
    at
}
