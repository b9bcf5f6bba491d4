// The laws of Keccak-256: each function's contract is one theorem.
ghost use Rattle.keccak.specs.Laws.{DigestsAre32Bytes, PartsMakeTheWhole, KnownAnswers};

pub fn digests_are_32_bytes() -> u8
    ensures { DigestsAre32Bytes }
{
    0
}

pub fn parts_make_the_whole() -> u8
    ensures { PartsMakeTheWhole }
{
    0
}

pub fn known_answers_hold() -> u8
    ensures { KnownAnswers }
{
    0
}
