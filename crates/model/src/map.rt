// "Map and access": what a map holds. The channel grid stands beside it by value, `MOST` rows of `MOST` marks.
use crate::MOST;

// Half open: begin up to but without end.
#[derive(Clone, Copy, PartialEq, Eq, Debug, Default)]
pub struct Region {
    pub begin: u32,
    pub end: u32,
}

#[derive(Clone, Copy, PartialEq, Eq, Debug, Default)]
pub struct Domain {
    pub code: Region,
    pub data: Region,
    pub entry: u32,
}

#[derive(Clone, Copy, PartialEq, Eq, Debug, Default)]
pub struct Map {
    pub length: u32,
    pub kernel: Region,
    pub count: u8,
    pub domains: [Domain; MOST],
}

#[derive(Clone, Copy, PartialEq, Eq, Debug)]
pub enum Access {
    Read,
    Write,
    Fetch,
}
