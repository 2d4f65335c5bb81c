// Arcovinda for C: include/arcovinda.h declares these functions and says what each is for; crate export_c exports them. A block that C lends is
// words; each function reads what the words are, makes the call, and sets what the call's result comes to. No function asks its caller to have
// looked first. Where functions differ in an access or an event alone, their names are C's.
#![tactic(auto)]

mod answer;
mod context;
mod grid;
mod map;
mod reason;
mod refusal;
mod report;
mod state;
mod words;

ghost use Rattle.std.specs.Prelude.{◌≡◌};
ghost use Rattle.model.specs.Calls.{left};
ghost use Rattle.model.specs.Program.{transcript, shown};
ghost use Rattle.model.specs.declared.map.Access.{Access};
ghost use Rattle.model.specs.declared.event.Event.{Event};
ghost use Rattle.export.specs.Reports.{viewed, told, counted, spent};
ghost use Rattle.export.specs.Exports.{read, c_read, c_write, c_may, c_view, c_start, c_event, c_play, c_batch};

use crate::grid::{grid_bytes, grid_of};
use crate::map::{map_of, map_words};
use crate::report::{
    report_batched, report_permission, report_played, report_reading, report_started,
    report_stepped, report_writing,
};
use crate::state::state_of;
use lines::number::refusal_number;
use model::MOST;
use model::event::Event;
use model::map::Access;

pub fn arcovinda_read(sheet: &[u8], map: &mut [u32; 44], grid: &mut [u8; 64], at: &mut u64) -> u32
    ensures { read (left result at.new) map.new grid.new
        ≡ c_read sheet.now }
{
    let mut g = [[false; MOST]; MOST];
    let found = sheet::read(sheet, &mut g);
    *map = map_words(found.map);
    *grid = grid_bytes(g);
    report_reading(found.reading, at)
}

pub fn arcovinda_write(map: &[u32; 44], grid: &[u8; 64], buffer: &mut [u8], wrote: &mut u64) -> u32
    ensures { left (left result wrote.new) buffer.new
        ≡ c_write map.now grid.now buffer.old }
{
    let m = map_of(map);
    let g = grid_of(grid);
    let writing = sheet::write(m, g, buffer);
    report_writing(writing, wrote)
}

#[tactic(auto, using(crate::specs::ExportsLaws::may_done))]
fn may(
    map: &[u32; 44],
    grid: &[u8; 64],
    domain: u8,
    k: Access,
    address: u64,
    granted: &mut u32,
) -> u32
    ensures { left result granted.new
        ≡ c_may map.now grid.now domain k address granted.old }
{
    let m = map_of(map);
    let g = grid_of(grid);
    let permission = rights::question(m, g, domain, k, address);
    report_permission(permission, granted)
}

pub fn arcovinda_may_read(
    map: &[u32; 44],
    grid: &[u8; 64],
    domain: u8,
    address: u64,
    granted: &mut u32,
) -> u32
    ensures { left result granted.new
        ≡ c_may map.now grid.now domain Access.Read address granted.old }
{
    may(map, grid, domain, Access::Read, address, granted)
}

pub fn arcovinda_may_write(
    map: &[u32; 44],
    grid: &[u8; 64],
    domain: u8,
    address: u64,
    granted: &mut u32,
) -> u32
    ensures { left result granted.new
        ≡ c_may map.now grid.now domain Access.Write address granted.old }
{
    may(map, grid, domain, Access::Write, address, granted)
}

pub fn arcovinda_may_fetch(
    map: &[u32; 44],
    grid: &[u8; 64],
    domain: u8,
    address: u64,
    granted: &mut u32,
) -> u32
    ensures { left result granted.new
        ≡ c_may map.now grid.now domain Access.Fetch address granted.old }
{
    may(map, grid, domain, Access::Fetch, address, granted)
}

pub fn arcovinda_view(
    map: &[u32; 44],
    grid: &[u8; 64],
    memory: &[u8],
    domain: u8,
    begin: &mut u64,
    length: &mut u64,
) -> u32
    ensures { viewed result begin.new length.new
        ≡ c_view map.now grid.now memory.now domain }
{
    let m = map_of(map);
    let g = grid_of(grid);
    match machine::view_verdict(m, g, memory, domain) {
        Ok(()) => {
            *begin = u64::from(m.domains[usize::from(domain) - 1].data.begin);
            *length = machine::view(m, g, memory, domain).len() as u64;
            0
        }
        Err(r) => {
            *begin = 0;
            *length = 0;
            refusal_number(r)
        }
    }
}

#[tactic(auto, using(crate::specs::ExportsLaws::start_done))]
pub fn arcovinda_start(map: &[u32; 44], grid: &[u8; 64], state: &mut [u32; 121]) -> u32
    ensures { left result state.new ≡ c_start map.now grid.now }
{
    let m = map_of(map);
    let g = grid_of(grid);
    let started = machine::start(m, g);
    report_started(started, state)
}

fn happen(
    map: &[u32; 44],
    grid: &[u8; 64],
    state: &mut [u32; 121],
    memory: &mut [u8],
    e: Event,
    answer: &mut [u32; 5],
) -> u32
    ensures { left (told result state.new answer.new) memory.new
        ≡ c_event map.now grid.now state.old memory.old answer.old e }
{
    let m = map_of(map);
    let g = grid_of(grid);
    let s = state_of(state);
    let stepped = machine::event(m, g, s, memory, e);
    report_stepped(stepped, state, answer)
}

pub fn arcovinda_step(
    map: &[u32; 44],
    grid: &[u8; 64],
    state: &mut [u32; 121],
    memory: &mut [u8],
    answer: &mut [u32; 5],
) -> u32
    ensures { left (told result state.new answer.new) memory.new
        ≡ c_event map.now grid.now state.old memory.old answer.old Event.Step }
{
    happen(map, grid, state, memory, Event::Step, answer)
}

pub fn arcovinda_tick(
    map: &[u32; 44],
    grid: &[u8; 64],
    state: &mut [u32; 121],
    memory: &mut [u8],
    answer: &mut [u32; 5],
) -> u32
    ensures { left (told result state.new answer.new) memory.new
        ≡ c_event map.now grid.now state.old memory.old answer.old Event.Tick }
{
    happen(map, grid, state, memory, Event::Tick, answer)
}

pub fn arcovinda_word_in(
    map: &[u32; 44],
    grid: &[u8; 64],
    state: &mut [u32; 121],
    memory: &mut [u8],
    domain: u8,
    word: u32,
    answer: &mut [u32; 5],
) -> u32
    ensures { left (told result state.new answer.new) memory.new
        ≡ c_event map.now grid.now state.old memory.old answer.old (Event.WordIn domain word) }
{
    happen(
        map,
        grid,
        state,
        memory,
        Event::WordIn(domain, word),
        answer,
    )
}

pub fn arcovinda_play(
    map: &[u32; 44],
    grid: &[u8; 64],
    state: &mut [u32; 121],
    memory: &mut [u8],
    trace: &[u8],
    events: &mut u64,
    at: &mut u64,
) -> u32
    ensures { left (counted result state.new events.new at.new) memory.new
        ≡ c_play map.now grid.now state.old memory.old trace.now }
{
    let m = map_of(map);
    let g = grid_of(grid);
    let s = state_of(state);
    let played = machine::play(m, g, s, memory, trace);
    report_played(played, state, events, at)
}

pub fn arcovinda_batch(
    map: &[u32; 44],
    grid: &[u8; 64],
    state: &mut [u32; 121],
    memory: &mut [u8],
    limit: u64,
    steps: &mut u64,
) -> u32
    ensures { left (spent result state.new steps.new) memory.new
        ≡ c_batch map.now grid.now state.old memory.old limit }
{
    let m = map_of(map);
    let g = grid_of(grid);
    let s = state_of(state);
    let batched = machine::batch(m, g, s, memory, limit);
    report_batched(batched, state, steps)
}

pub fn arcovinda_transcript(sheet: &[u8], memory: &mut [u8], trace: &[u8], text: &mut [u8]) -> usize
    ensures { left (left result text.new) memory.new
        ≡ shown (transcript sheet.now memory.old trace.now) text.old }
{
    lines::transcript(sheet, memory, trace, text)
}
