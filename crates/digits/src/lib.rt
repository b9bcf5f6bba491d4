// Numbers as bytes, the highest or the lowest first: the definitions that every format here writes numbers by, and their laws.
#![tactic(auto)]

ghost use Rattle.digits.specs.Digits.{ReadsBack, big_endian, number, little_endian, number_le};

// A number that fits comes back from its bytes, and bytes come back from their number.
pub fn bytes_read_back() -> u8
    ensures big_endian { ReadsBack big_endian number }
    ensures little_endian { ReadsBack little_endian number_le }
{
    0
}
