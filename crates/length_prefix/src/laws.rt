// What holds of prefixes, each law on a contract.
ghost use Rattle.length_prefix.specs.Laws.{Widths, Prefixes};

// The width is the least that holds the maximum, grows with it, is at most 8, and holds every count up to it.
pub fn widths_are_least() -> u8
    ensures { Widths }
{
    0
}

// A length that fits comes back from its prefix, and a prefix from its length; no two lengths share one.
pub fn prefixes_read_back() -> u8
    ensures { Prefixes }
{
    0
}
