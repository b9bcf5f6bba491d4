// What takes bytes: the hasher of Keccak-256 is one.
ghost use Rattle.std.specs.Prelude.{ℕ, List};
ghost use Rattle.keccak.specs.Hasher.{HasAbsorbed};
ghost use Rattle.sink.specs.Taking.{Takes};

use keccak::Keccak256;

pub trait Sink {
    // That the sink has taken these bytes, from the start on.
    ghost holds: { Self → List ℕ → Type 0 };

    fn put(&mut self, bytes: &[u8])
        ensures { Takes holds self.old bytes.now self.new };
}

impl Sink for Keccak256 {
    ghost holds = { HasAbsorbed };

    fn put(&mut self, bytes: &[u8]) {
        self.absorb(bytes);
    }
}
