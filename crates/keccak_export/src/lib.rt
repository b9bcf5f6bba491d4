// Keccak-f[1600] and Keccak-256 for callers in C or Rust.
#![tactic(auto)]

ghost use Rattle.std.specs.Prelude.{◌≡◌};
ghost use Rattle.keccak_f.specs.Permutation.{keccak_f};
ghost use Rattle.keccak.specs.Sponge.{keccak_256};

use keccak::keccak256;
use keccak_f::keccak_f;

#[repr(C)]
pub struct State {
    pub lanes: [u64; 25],
}

#[repr(C)]
pub struct Digest {
    pub bytes: [u8; 32],
}

#[unsafe(no_mangle)]
pub extern "C" fn keccak_permute(state: &mut State)
    ensures { state.new.lanes ≡ keccak_f state.old.lanes }
{
    keccak_f(&mut state.lanes);
}

#[unsafe(no_mangle)]
pub extern "C" fn keccak_hash(bytes: &[u8], digest: &mut Digest)
    ensures { digest.new.bytes ≡ keccak_256 bytes.now }
{
    digest.bytes = keccak256(bytes);
}
