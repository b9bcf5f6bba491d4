// What a line asks for. Commands borrow the line and allocate nothing.
use scan::hex::Hex;

// Neither an Option nor a Result: a silent line has no answer, and a wrong one has.
#[derive(Clone, Copy)]
pub enum Line<'a> {
    // Has no answer.
    Silent,
    // Is no command.
    Wrong,
    Asks(Command<'a>),
}

#[derive(Clone, Copy)]
pub enum Command<'a> {
    Leaf(Leaf<'a>),
}

// Commands that need no state.
#[derive(Clone, Copy)]
pub enum Leaf<'a> {
    Width(u64),
    EncodeLen(u64, u64),
    DecodeLen(Hex<'a>, u64),
    Keccak(Hex<'a>),
    Items(UnitName, Hex<'a>),
    Encode(Value),
    Decode(CodecName, Hex<'a>),
    Bits(CodecName),
    Tag(FieldName),
}

// How a byte string becomes the items of a sponge.
#[derive(Clone, Copy)]
pub enum UnitName {
    Byte,
    Word,
}

#[derive(Clone, Copy)]
pub enum FieldName {
    BabyBear,
    Goldilocks,
}

#[derive(Clone, Copy)]
pub enum CodecName {
    BabyBear,
    Goldilocks,
    GoldilocksShort,
}

// A codec with a value of its type.
#[derive(Clone, Copy)]
pub enum Value {
    BabyBear(u32),
    Goldilocks(u64),
    GoldilocksShort(u64),
}
