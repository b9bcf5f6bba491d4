// The steps of a berth's season.
use codec::transcript_field::{TranscriptField, algebra_step};
use codecs::{BabyBear, Goldilocks};
use error::TranscriptError;
use player::interface::{Pattern, begin, begin_protocol, end, end_protocol};
use step::interaction::{Hierarchy, Interaction, Kind, Length};
use step::text::Text;

// The longest season has 366 days, and each day one reading.
const DAYS: usize = 366;

// For a recorder, and for whoever follows what it recorded: the first refusal ends it.
pub fn follow_season<P: Pattern>(party: &mut P) -> Result<(), TranscriptError> {
    let season = Text::new(b"berth season")?;
    let readings = Text::new(b"readings")?;
    let name = Text::new(b"Season")?;
    begin_protocol(party, season, name)?;
    party.interact(bytes(Kind::Public, b"berth", Length::Bounded(16))?)?;
    party.interact(bytes(Kind::Salt, b"post's nonce", Length::Fixed(16))?)?;
    begin(party, Kind::Message, readings, name)?;
    party.interact(values::<Goldilocks>(
        Kind::Message,
        b"kWh of each day",
        Length::Bounded(DAYS),
    )?)?;
    party.interact(values::<BabyBear>(Kind::Message, b"highest draw", Length::Scalar)?)?;
    end(party, Kind::Message, readings, name)?;
    party.interact(values::<Goldilocks>(Kind::Challenge, b"mix", Length::Scalar)?)?;
    party.interact(bytes(Kind::Message, b"mixed sum", Length::Fixed(8))?)?;
    party.interact(bytes(Kind::Hint, b"page of the berth book", Length::Fixed(4))?)?;
    end_protocol(party, season, name)
}

fn bytes(kind: Kind, label: &[u8], length: Length) -> Result<Interaction, TranscriptError> {
    Ok(Interaction::bytes(Hierarchy::Atomic, kind, Text::new(label)?, length))
}

fn values<F: TranscriptField>(
    kind: Kind,
    label: &[u8],
    length: Length,
) -> Result<Interaction, TranscriptError> {
    Ok(algebra_step::<F>(Hierarchy::Atomic, kind, Text::new(label)?, length))
}
