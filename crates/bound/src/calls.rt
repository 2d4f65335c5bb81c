// The calls of crates rights, sheet and machine, with the calls' own parameters (the form that document 01 asks for: crates/machine/src/lib.rt).
ghost use Rattle.std.specs.Prelude.{◌≡◌};
ghost use Rattle.model.specs.Calls.{left};
ghost use Rattle.model.specs.declared.event.Event.{Event};
ghost use Rattle.promises.specs.Public.{Call, value};

use model::MOST;
use model::call::{Batched, Permission, Played, Sheet, Started, Stepped, Verdict, Writing};
use model::event::{Event, EventRead};
use model::map::{Access, Map};
use model::state::State;

pub fn acceptable(m: Map, g: [[bool; MOST]; MOST]) -> Verdict
    ensures { result ≡ value (Call.accepting m g) }
{
    rights::acceptable(m, g)
}

pub fn question(m: Map, g: [[bool; MOST]; MOST], d: u8, k: Access, a: u64) -> Permission
    ensures { result ≡ value (Call.asking m g d k a) }
{
    rights::question(m, g, d, k, a)
}

pub fn read(s: &[u8], grid: &mut [[bool; MOST]; MOST]) -> Sheet
    ensures { left result grid.new ≡ value (Call.reading s.now) }
{
    sheet::read(s, grid)
}

pub fn write(m: Map, g: [[bool; MOST]; MOST], buffer: &mut [u8]) -> Writing
    ensures { left result buffer.new ≡ value (Call.writing m g buffer.old) }
{
    sheet::write(m, g, buffer)
}

pub fn start(m: Map, g: [[bool; MOST]; MOST]) -> Started
    ensures { result ≡ value (Call.starting m g) }
{
    machine::start(m, g)
}

pub fn event(m: Map, g: [[bool; MOST]; MOST], s: State, memory: &mut [u8], e: Event) -> Stepped
    ensures { left result memory.new ≡ value (Call.happening m g s memory.old e) }
{
    machine::event(m, g, s, memory, e)
}

pub fn step(m: Map, g: [[bool; MOST]; MOST], s: State, memory: &mut [u8]) -> Stepped
    ensures { left result memory.new ≡ value (Call.happening m g s memory.old Event.Step) }
{
    machine::step(m, g, s, memory)
}

pub fn tick(m: Map, g: [[bool; MOST]; MOST], s: State, memory: &mut [u8]) -> Stepped
    ensures { left result memory.new ≡ value (Call.happening m g s memory.old Event.Tick) }
{
    machine::tick(m, g, s, memory)
}

pub fn word_in(
    m: Map,
    g: [[bool; MOST]; MOST],
    s: State,
    memory: &mut [u8],
    b: u8,
    word: u32,
) -> Stepped
    ensures { left result memory.new ≡ value (Call.happening m g s memory.old (Event.WordIn b word)) }
{
    machine::word_in(m, g, s, memory, b, word)
}

pub fn read_event(bytes: &[u8]) -> EventRead
    ensures { result ≡ value (Call.event_reading bytes.now) }
{
    machine::read_event(bytes)
}

pub fn play(m: Map, g: [[bool; MOST]; MOST], s: State, memory: &mut [u8], trace: &[u8]) -> Played
    ensures { left result memory.new ≡ value (Call.playing m g s memory.old trace.now) }
{
    machine::play(m, g, s, memory, trace)
}

pub fn batch(m: Map, g: [[bool; MOST]; MOST], s: State, memory: &mut [u8], limit: u64) -> Batched
    ensures { left result memory.new ≡ value (Call.batching m g s memory.old limit) }
{
    machine::batch(m, g, s, memory, limit)
}

pub fn view_verdict(m: Map, g: [[bool; MOST]; MOST], memory: &[u8], d: u8) -> Verdict
    ensures { result ≡ (value (Call.viewing m g memory.now d)).value }
{
    machine::view_verdict(m, g, memory, d)
}

pub fn view(m: Map, g: [[bool; MOST]; MOST], memory: &[u8], d: u8) -> &[u8]
    ensures { result.now ≡ (value (Call.viewing m g memory.now d)).lent }
{
    machine::view(m, g, memory, d)
}
