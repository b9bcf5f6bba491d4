// A message fed to the hasher in parts of uneven lengths.
ghost use Rattle.std.specs.Prelude.{◌≡◌};
ghost use Rattle.keccak.specs.Sponge.{keccak_256};

use keccak::Keccak256;

// A byte by itself and a part, in turn. The lengths of the parts run through 0, 3, 18, 93, 157, ..
pub fn keccak256_in_parts(message: &[u8]) -> [u8; 32]
    ensures { result ≡ keccak_256 message.now }
{
    let mut hasher = Keccak256::new();
    let mut rest = message;
    let mut size: usize = 0;
    while let [byte, tail @ ..] = rest {
        hasher.absorb_byte(*byte);
        let (part, others) = tail.split_at(size.min(tail.len()));
        hasher.absorb(part);
        rest = others;
        size = (5 * size + 3) % 311;
    }
    hasher.digest()
}
