// The laws of the permutation's tables and of its words: each function's contract is one theorem.
ghost use Rattle.keccak_f.specs.Tables.{OffsetsFollowTheWalk, ConstantsFollowTheRegister};
ghost use Rattle.keccak_f.specs.Words.{WordsActOnBits};

pub fn offsets_follow_the_walk() -> u8
    ensures { OffsetsFollowTheWalk }
{
    0
}

pub fn round_constants_follow_the_register() -> u8
    ensures { ConstantsFollowTheRegister }
{
    0
}

pub fn words_act_on_bits() -> u8
    ensures { WordsActOnBits }
{
    0
}
