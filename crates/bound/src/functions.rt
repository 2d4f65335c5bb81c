// The C functions.
ghost use Rattle.std.specs.Prelude.{◌≡◌};
ghost use Rattle.model.specs.Calls.{left};
ghost use Rattle.model.specs.declared.map.Access.{Access};
ghost use Rattle.model.specs.declared.event.Event.{Event};
ghost use Rattle.export.specs.Reports.{viewed, told, counted, spent};
ghost use Rattle.export.specs.Exports.{read};
ghost use Rattle.export.specs.Functions.{Function, result_of};

pub fn read(sheet: &[u8], map: &mut [u32; 44], grid: &mut [u8; 64], at: &mut u64) -> u32
    ensures { read (left result at.new) map.new grid.new
        ≡ result_of (Function.reading sheet.now) }
{
    export::arcovinda_read(sheet, map, grid, at)
}

pub fn write(map: &[u32; 44], grid: &[u8; 64], buffer: &mut [u8], wrote: &mut u64) -> u32
    ensures { left (left result wrote.new) buffer.new
        ≡ result_of (Function.writing map.now grid.now buffer.old) }
{
    export::arcovinda_write(map, grid, buffer, wrote)
}

pub fn may_read(
    map: &[u32; 44],
    grid: &[u8; 64],
    domain: u8,
    address: u64,
    granted: &mut u32,
) -> u32
    ensures { left result granted.new
        ≡ result_of (Function.asking map.now grid.now domain Access.Read address granted.old) }
{
    export::arcovinda_may_read(map, grid, domain, address, granted)
}

pub fn may_write(
    map: &[u32; 44],
    grid: &[u8; 64],
    domain: u8,
    address: u64,
    granted: &mut u32,
) -> u32
    ensures { left result granted.new
        ≡ result_of (Function.asking map.now grid.now domain Access.Write address granted.old) }
{
    export::arcovinda_may_write(map, grid, domain, address, granted)
}

pub fn may_fetch(
    map: &[u32; 44],
    grid: &[u8; 64],
    domain: u8,
    address: u64,
    granted: &mut u32,
) -> u32
    ensures { left result granted.new
        ≡ result_of (Function.asking map.now grid.now domain Access.Fetch address granted.old) }
{
    export::arcovinda_may_fetch(map, grid, domain, address, granted)
}

pub fn view(
    map: &[u32; 44],
    grid: &[u8; 64],
    memory: &[u8],
    domain: u8,
    begin: &mut u64,
    length: &mut u64,
) -> u32
    ensures { viewed result begin.new length.new
        ≡ result_of (Function.viewing map.now grid.now memory.now domain) }
{
    export::arcovinda_view(map, grid, memory, domain, begin, length)
}

pub fn start(map: &[u32; 44], grid: &[u8; 64], state: &mut [u32; 121]) -> u32
    ensures { left result state.new ≡ result_of (Function.starting map.now grid.now) }
{
    export::arcovinda_start(map, grid, state)
}

pub fn step(
    map: &[u32; 44],
    grid: &[u8; 64],
    state: &mut [u32; 121],
    memory: &mut [u8],
    answer: &mut [u32; 5],
) -> u32
    ensures { left (told result state.new answer.new) memory.new
        ≡ result_of (Function.happening map.now grid.now state.old memory.old answer.old Event.Step) }
{
    export::arcovinda_step(map, grid, state, memory, answer)
}

pub fn tick(
    map: &[u32; 44],
    grid: &[u8; 64],
    state: &mut [u32; 121],
    memory: &mut [u8],
    answer: &mut [u32; 5],
) -> u32
    ensures { left (told result state.new answer.new) memory.new
        ≡ result_of (Function.happening map.now grid.now state.old memory.old answer.old Event.Tick) }
{
    export::arcovinda_tick(map, grid, state, memory, answer)
}

pub fn word_in(
    map: &[u32; 44],
    grid: &[u8; 64],
    state: &mut [u32; 121],
    memory: &mut [u8],
    domain: u8,
    word: u32,
    answer: &mut [u32; 5],
) -> u32
    ensures { left (told result state.new answer.new) memory.new
        ≡ result_of (Function.happening map.now grid.now state.old memory.old answer.old (Event.WordIn domain word)) }
{
    export::arcovinda_word_in(map, grid, state, memory, domain, word, answer)
}

pub fn play(
    map: &[u32; 44],
    grid: &[u8; 64],
    state: &mut [u32; 121],
    memory: &mut [u8],
    trace: &[u8],
    events: &mut u64,
    at: &mut u64,
) -> u32
    ensures { left (counted result state.new events.new at.new) memory.new
        ≡ result_of (Function.playing map.now grid.now state.old memory.old trace.now) }
{
    export::arcovinda_play(map, grid, state, memory, trace, events, at)
}

pub fn batch(
    map: &[u32; 44],
    grid: &[u8; 64],
    state: &mut [u32; 121],
    memory: &mut [u8],
    limit: u64,
    steps: &mut u64,
) -> u32
    ensures { left (spent result state.new steps.new) memory.new
        ≡ result_of (Function.batching map.now grid.now state.old memory.old limit) }
{
    export::arcovinda_batch(map, grid, state, memory, limit, steps)
}
