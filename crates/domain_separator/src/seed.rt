// The seed: 101 bytes that a challenger takes in before the first step.
ghost use Rattle.std.specs.Prelude.{◌≡◌};
ghost use Rattle.domain_separator.specs.Seeds.{seed};

// Closes the seed.
const DOMAIN_TAG: u8 = 0x80;

// Identifier, pattern hash, the length of an empty label, and the closing byte.
pub fn seed_bytes(protocol_id: &[u8; 64], pattern_hash: &[u8; 32]) -> [u8; 101]
    ensures { result ≡ seed protocol_id.now pattern_hash.now }
{
    let mut bytes = [0; 101];
    bytes[0..64].copy_from_slice(protocol_id);
    bytes[64..96].copy_from_slice(pattern_hash);
    bytes[96..100].copy_from_slice(&0u32.to_be_bytes());
    bytes[100] = DOMAIN_TAG;
    bytes
}
