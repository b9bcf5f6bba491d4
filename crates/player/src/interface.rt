// Operations shared by every party that records or replays a pattern.
ghost use Rattle.std.specs.Prelude.{◌≡◌, true, List, Result};
ghost use Rattle.error.specs.declared.TranscriptError.{TranscriptError};
ghost use Rattle.player.specs.Taken.{Taken, after, aborted};
ghost use Rattle.step.specs.declared.interaction.Hierarchy.TheVariants.{Begin, End};
ghost use Rattle.step.specs.declared.interaction.Interaction.{Interaction};
ghost use Rattle.step.specs.declared.interaction.Kind.TheVariants.{Protocol};
ghost use Rattle.step.specs.Steps.{marker_step};

use error::TranscriptError;
use step::interaction::{Hierarchy, Interaction, Kind};
use step::text::Text;

// It means the steps taken and whether it has ended.
pub trait Pattern {
    ghost means: { Self → Taken };

    // What it answers to a step.
    ghost answers: { Self → Interaction → Result (Unit {0}) TranscriptError };

    // The steps that an abort leaves.
    ghost kept: { Self → List Interaction };

    // Adds one step, or refuses; every refusal but one ends it.
    fn interact(&mut self, interaction: Interaction) -> Result<(), TranscriptError>
        ensures answer { result ≡ answers self.old interaction }
        ensures after { means self.new ≡ after (means self.old) interaction result };

    // Ends it. A second call changes nothing more.
    fn abort(&mut self)
        ensures { means self.new ≡ aborted (kept self.old) };
}

// Each of the four calls below is its marker in one line, so a form that they shared would be no shorter.

// Marks the start of a scope of the given kind.
pub fn begin<P: Pattern>(
    pattern: &mut P,
    kind: Kind,
    label: Text,
    type_name: Text,
) -> Result<(), TranscriptError>
    ensures answer { result ≡ P.Pattern.answers pattern.old (marker_step Begin kind label type_name) }
    ensures after { P.Pattern.means pattern.new ≡ after (P.Pattern.means pattern.old) (marker_step Begin kind label type_name) result }
{
    pattern.interact(Interaction::marker(Hierarchy::Begin, kind, label, type_name))
}

// Marks the end of a scope of the given kind.
pub fn end<P: Pattern>(
    pattern: &mut P,
    kind: Kind,
    label: Text,
    type_name: Text,
) -> Result<(), TranscriptError>
    ensures answer { result ≡ P.Pattern.answers pattern.old (marker_step End kind label type_name) }
    ensures after { P.Pattern.means pattern.new ≡ after (P.Pattern.means pattern.old) (marker_step End kind label type_name) result }
{
    pattern.interact(Interaction::marker(Hierarchy::End, kind, label, type_name))
}

// Opens a scope that holds steps of every kind.
pub fn begin_protocol<P: Pattern>(
    pattern: &mut P,
    label: Text,
    type_name: Text,
) -> Result<(), TranscriptError>
    ensures answer { result ≡ P.Pattern.answers pattern.old (marker_step Begin Protocol label type_name) }
    ensures after { P.Pattern.means pattern.new ≡ after (P.Pattern.means pattern.old) (marker_step Begin Protocol label type_name) result }
{
    begin(pattern, Kind::Protocol, label, type_name)
}

// Closes such a scope.
pub fn end_protocol<P: Pattern>(
    pattern: &mut P,
    label: Text,
    type_name: Text,
) -> Result<(), TranscriptError>
    ensures answer { result ≡ P.Pattern.answers pattern.old (marker_step End Protocol label type_name) }
    ensures after { P.Pattern.means pattern.new ≡ after (P.Pattern.means pattern.old) (marker_step End Protocol label type_name) result }
{
    end(pattern, Kind::Protocol, label, type_name)
}
