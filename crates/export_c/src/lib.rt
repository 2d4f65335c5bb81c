// Arcovinda for C, as a static library: each function that include/arcovinda.h declares is crate export's function of that name, under the same
// contract. A library that other crates use exports nothing to C, so this crate does, and does nothing else.
#![tactic(auto)]

ghost use Rattle.std.specs.Prelude.{◌≡◌};
ghost use Rattle.model.specs.Calls.{left};
ghost use Rattle.model.specs.Program.{transcript, shown};
ghost use Rattle.model.specs.declared.map.Access.{Access};
ghost use Rattle.model.specs.declared.event.Event.{Event};
ghost use Rattle.export.specs.Reports.{viewed, told, counted, spent};
ghost use Rattle.export.specs.Exports.{read, c_read, c_write, c_may, c_view, c_start, c_event, c_play, c_batch};

#[unsafe(no_mangle)]
pub extern "C" fn arcovinda_read(
    sheet: &[u8],
    map: &mut [u32; 44],
    grid: &mut [u8; 64],
    at: &mut u64,
) -> u32
    ensures { read (left result at.new) map.new grid.new
        ≡ c_read sheet.now }
{
    export::arcovinda_read(sheet, map, grid, at)
}

#[unsafe(no_mangle)]
pub extern "C" fn arcovinda_write(
    map: &[u32; 44],
    grid: &[u8; 64],
    buffer: &mut [u8],
    wrote: &mut u64,
) -> u32
    ensures { left (left result wrote.new) buffer.new
        ≡ c_write map.now grid.now buffer.old }
{
    export::arcovinda_write(map, grid, buffer, wrote)
}

#[unsafe(no_mangle)]
pub extern "C" fn arcovinda_may_read(
    map: &[u32; 44],
    grid: &[u8; 64],
    domain: u8,
    address: u64,
    granted: &mut u32,
) -> u32
    ensures { left result granted.new
        ≡ c_may map.now grid.now domain Access.Read address granted.old }
{
    export::arcovinda_may_read(map, grid, domain, address, granted)
}

#[unsafe(no_mangle)]
pub extern "C" fn arcovinda_may_write(
    map: &[u32; 44],
    grid: &[u8; 64],
    domain: u8,
    address: u64,
    granted: &mut u32,
) -> u32
    ensures { left result granted.new
        ≡ c_may map.now grid.now domain Access.Write address granted.old }
{
    export::arcovinda_may_write(map, grid, domain, address, granted)
}

#[unsafe(no_mangle)]
pub extern "C" fn arcovinda_may_fetch(
    map: &[u32; 44],
    grid: &[u8; 64],
    domain: u8,
    address: u64,
    granted: &mut u32,
) -> u32
    ensures { left result granted.new
        ≡ c_may map.now grid.now domain Access.Fetch address granted.old }
{
    export::arcovinda_may_fetch(map, grid, domain, address, granted)
}

#[unsafe(no_mangle)]
pub extern "C" fn arcovinda_view(
    map: &[u32; 44],
    grid: &[u8; 64],
    memory: &[u8],
    domain: u8,
    begin: &mut u64,
    length: &mut u64,
) -> u32
    ensures { viewed result begin.new length.new
        ≡ c_view map.now grid.now memory.now domain }
{
    export::arcovinda_view(map, grid, memory, domain, begin, length)
}

#[unsafe(no_mangle)]
pub extern "C" fn arcovinda_start(map: &[u32; 44], grid: &[u8; 64], state: &mut [u32; 121]) -> u32
    ensures { left result state.new ≡ c_start map.now grid.now }
{
    export::arcovinda_start(map, grid, state)
}

#[unsafe(no_mangle)]
pub extern "C" fn arcovinda_step(
    map: &[u32; 44],
    grid: &[u8; 64],
    state: &mut [u32; 121],
    memory: &mut [u8],
    answer: &mut [u32; 5],
) -> u32
    ensures { left (told result state.new answer.new) memory.new
        ≡ c_event map.now grid.now state.old memory.old answer.old Event.Step }
{
    export::arcovinda_step(map, grid, state, memory, answer)
}

#[unsafe(no_mangle)]
pub extern "C" fn arcovinda_tick(
    map: &[u32; 44],
    grid: &[u8; 64],
    state: &mut [u32; 121],
    memory: &mut [u8],
    answer: &mut [u32; 5],
) -> u32
    ensures { left (told result state.new answer.new) memory.new
        ≡ c_event map.now grid.now state.old memory.old answer.old Event.Tick }
{
    export::arcovinda_tick(map, grid, state, memory, answer)
}

#[unsafe(no_mangle)]
pub extern "C" fn arcovinda_word_in(
    map: &[u32; 44],
    grid: &[u8; 64],
    state: &mut [u32; 121],
    memory: &mut [u8],
    domain: u8,
    word: u32,
    answer: &mut [u32; 5],
) -> u32
    ensures { left (told result state.new answer.new) memory.new
        ≡ c_event map.now grid.now state.old memory.old answer.old (Event.WordIn domain word) }
{
    export::arcovinda_word_in(map, grid, state, memory, domain, word, answer)
}

#[unsafe(no_mangle)]
pub extern "C" fn arcovinda_play(
    map: &[u32; 44],
    grid: &[u8; 64],
    state: &mut [u32; 121],
    memory: &mut [u8],
    trace: &[u8],
    events: &mut u64,
    at: &mut u64,
) -> u32
    ensures { left (counted result state.new events.new at.new) memory.new
        ≡ c_play map.now grid.now state.old memory.old trace.now }
{
    export::arcovinda_play(map, grid, state, memory, trace, events, at)
}

#[unsafe(no_mangle)]
pub extern "C" fn arcovinda_batch(
    map: &[u32; 44],
    grid: &[u8; 64],
    state: &mut [u32; 121],
    memory: &mut [u8],
    limit: u64,
    steps: &mut u64,
) -> u32
    ensures { left (spent result state.new steps.new) memory.new
        ≡ c_batch map.now grid.now state.old memory.old limit }
{
    export::arcovinda_batch(map, grid, state, memory, limit, steps)
}

#[unsafe(no_mangle)]
pub extern "C" fn arcovinda_transcript(
    sheet: &[u8],
    memory: &mut [u8],
    trace: &[u8],
    text: &mut [u8],
) -> usize
    ensures { left (left result text.new) memory.new
        ≡ shown (transcript sheet.now memory.old trace.now) text.old }
{
    export::arcovinda_transcript(sheet, memory, trace, text)
}
