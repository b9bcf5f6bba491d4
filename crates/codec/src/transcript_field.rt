// A field by what a transcript says of it: its order, its dimension, and the names that identify it.
ghost use Rattle.std.specs.Prelude.{◌≡◌, ℕ};
ghost use Rattle.keccak.specs.Sponge.{keccak_256};
ghost use Rattle.step.specs.declared.text.Text.{Text};
ghost use Rattle.step.specs.Tags.{algebra};
ghost use Rattle.step.specs.Texts.{content};

use keccak::keccak256;
use step::interaction::{Hierarchy, Interaction, Kind, Length};
use step::text::Text;
use step::type_tag::TypeTag;

pub trait Field {
    ghost modulus: { ℕ };

    ghost dimension: { ℕ };

    ghost identity: { Text };

    ghost name: { Text };

    // Order of the prime field that coefficients lie in.
    fn modulus() -> u64
        ensures { result ≡ modulus };

    // Number of coefficients in a value.
    fn dimension() -> usize
        ensures { result ≡ dimension };

    // What tells algebras of one modulus and dimension apart.
    fn identity() -> Text
        ensures { result ≡ identity };

    // The name that steps carry for local comparison.
    fn type_name() -> Text
        ensures { result ≡ name };
}

// A field whose values a typed step can carry.
pub trait TranscriptField: Field {
    // Stable identity of the field's values: independent of type names, and committed to by a pattern's hash.
    fn algebra_tag() -> TypeTag
        ensures { result ≡ algebra Self.Field.modulus Self.Field.dimension (keccak_256 (content Self.Field.identity)) }
    {
        let identity = Self::identity();
        TypeTag::algebra(
            Self::modulus(),
            Self::dimension(),
            keccak256(identity.as_bytes()),
        )
    }
}

// A step that carries values of a field.
pub fn algebra_step<F: TranscriptField>(
    hierarchy: Hierarchy,
    kind: Kind,
    label: Text,
    length: Length,
) -> Interaction
    ensures { result ≡ record { hierarchy = hierarchy; kind = kind; label = label; type_tag = algebra F.Field.modulus F.Field.dimension (keccak_256 (content F.Field.identity)); type_name = F.Field.name; length = length } }
{
    Interaction {
        hierarchy,
        kind,
        label,
        type_tag: F::algebra_tag(),
        type_name: F::type_name(),
        length,
    }
}
