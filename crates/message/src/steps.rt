// The leaf of a codec's values.
ghost use Rattle.std.specs.Prelude.{◌≡◌};
ghost use Rattle.ends.specs.Calls.{codec_step};

use challenger::unit::Unit;
use codec::codec::Codec;
use codec::transcript_field::algebra_step;
use step::interaction::{Hierarchy, Interaction, Kind, Length};
use step::text::Text;

// A step that carries values of this codec.
pub fn codec_step<U: Unit, T, K: Codec<U, T>>(
    kind: Kind,
    label: Text,
    length: Length,
) -> Interaction
    ensures { result ≡ codec_step kind label K.Codec.coding.wire length }
{
    algebra_step::<K::Field>(Hierarchy::Atomic, kind, label, length)
}
