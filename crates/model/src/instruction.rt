// "Instructions": what a kind byte is decoded to.
#[derive(Clone, Copy, PartialEq, Eq, Debug)]
pub enum Effect {
    Nothing,
    Set,
    Copy,
    Add,
    Subtract,
    And,
    Or,
    Xor,
    Less,
    LoadByte,
    LoadWord,
    StoreByte,
    StoreWord,
    Jump,
    JumpIf,
    JumpTo,
    Send,
    Receive,
    Advance,
    Halt,
}

// The body's length and the effect.
#[derive(Clone, Copy, PartialEq, Eq, Debug)]
pub struct Decoded {
    pub length: u32,
    pub effect: Effect,
}
