// How much a codec draws for a sample.
ghost use Rattle.std.specs.Prelude.{◌≡◌, ℕ, ◌≤◌};
ghost use Rattle.std.proofs.Common.{rules};

// How many bytes a sample draws, and the security bits declared for it.
pub trait SampleSize {
    ghost draws: { ℕ };

    ghost bits: { ℕ };

    fn draws() -> usize
        ensures { result ≡ draws };

    fn bits() -> u32
        ensures { result ≡ bits };

    ghost few: { draws ≤ 65536 };
}

#[derive(Clone, Copy)]
pub struct Full {}

impl SampleSize for Full {
    ghost draws = { 24 };

    ghost bits = { 128 };

    ghost few = { Prim.search rules };

    fn draws() -> usize {
        24
    }

    fn bits() -> u32 {
        128
    }
}

// Too few bytes for a challenge.
#[derive(Clone, Copy)]
pub struct Short {}

impl SampleSize for Short {
    ghost draws = { 8 };

    ghost bits = { 32 };

    ghost few = { Prim.search rules };

    fn draws() -> usize {
        8
    }

    fn bits() -> u32 {
        32
    }
}
