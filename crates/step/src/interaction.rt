// A single typed step of an interactive protocol: where it stands in the nesting, its role, its name, and what it carries.
ghost use Rattle.std.specs.Prelude.{◌≡◌};
ghost use Rattle.step.specs.Steps.{alike, admits, closes, bytes_step, marker_step};

use crate::text::Text;
use crate::type_tag::TypeTag;

// Position of a step in the nesting.
#[derive(Clone, Copy, PartialEq, Eq)]
pub enum Hierarchy {
    // A leaf, which carries values.
    Atomic,
    // Opens a scope.
    Begin,
    // Closes the scope that was opened last.
    End,
}

// Role of a step.
#[derive(Clone, Copy, PartialEq, Eq)]
pub enum Kind {
    // As an opener, a scope that holds steps of every kind.
    Protocol,
    // Known to both ends before the run.
    Public,
    // Sent by the prover, and absorbed.
    Message,
    // Sent by the prover, and not absorbed.
    Hint,
    // Drawn from the challenger.
    Challenge,
    // A proof of work.
    Pow,
    // A salt, absorbed before any draw.
    Salt,
}

// How many values a step carries.
#[derive(Clone, Copy, PartialEq, Eq)]
pub enum Length {
    None,
    Scalar,
    Fixed(usize),
    // At most so many; the count travels as a prefix.
    Bounded(usize),
}

// Steps are alike if all six fields are. The type name is compared here, and left out of a pattern's rendering.
#[derive(Clone, Copy, PartialEq, Eq)]
pub struct Interaction {
    pub hierarchy: Hierarchy,
    pub kind: Kind,
    pub label: Text,
    pub type_tag: TypeTag,
    pub type_name: Text,
    pub length: Length,
}

impl Interaction {
    // A step that carries raw bytes.
    pub fn bytes(hierarchy: Hierarchy, kind: Kind, label: Text, length: Length) -> Interaction
        ensures { result ≡ bytes_step hierarchy kind label length }
    {
        Interaction {
            hierarchy,
            kind,
            label,
            type_tag: TypeTag::bytes(),
            type_name: Text::u8(),
            length,
        }
    }

    // A structural marker, which opens or closes a scope.
    pub fn marker(hierarchy: Hierarchy, kind: Kind, label: Text, type_name: Text) -> Interaction
        ensures { result ≡ marker_step hierarchy kind label type_name }
    {
        Interaction {
            hierarchy,
            kind,
            label,
            type_tag: TypeTag::marker(),
            type_name,
            length: Length::None,
        }
    }

    // Whether the two are alike in all six fields.
    #[tactic(auto, using(crate::proofs::Sames::alike_is))]
    pub fn is_alike(&self, other: &Interaction) -> bool
        ensures { result ≡ alike self.now other.now }
    {
        *self == *other
    }

    // Whether a step of that kind may stand in the scope that this one opens.
    #[tactic(auto, using(crate::proofs::Sames::kind_is), unfolding(crate::specs::Steps::admits))]
    pub fn admits(&self, inner: &Interaction) -> bool
        ensures { result ≡ admits self.now inner.now }
    {
        self.kind == Kind::Protocol || self.kind == inner.kind
    }

    // Whether this closer closes the scope that `other` opens: they agree in all but the hierarchy.
    #[tactic(auto, using(crate::proofs::Sames::closes_open, crate::proofs::Sames::closes_shut))]
    pub fn closes(&self, other: &Interaction) -> bool
        ensures { result ≡ closes self.now other.now }
    {
        let closer = Interaction {
            hierarchy: Hierarchy::End,
            ..*other
        };
        other.hierarchy == Hierarchy::Begin && *self == closer
    }
}
