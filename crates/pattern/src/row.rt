// A plain row: a step as it may come from outside, with nothing assumed of its texts and its tag.
ghost use Rattle.pattern.specs.Rows.{row_step};

use crate::candidate::Candidate;
use error::TranscriptError;
use step::interaction::{Hierarchy, Interaction, Kind, Length};
use step::text::Text;
use step::type_tag::TypeTag;

#[derive(Clone, Copy)]
pub struct Row<'a> {
    pub hierarchy: Hierarchy,
    pub kind: Kind,
    pub label: &'a [u8],
    // 0 for a marker, 1 for bytes, 2 for an algebra. A number, since a row may have a code that no tag has.
    pub tag_code: u8,
    pub modulus: u64,
    pub degree: usize,
    pub basis: [u8; 32],
    pub type_name: &'a [u8],
    pub length: Length,
}

impl Candidate for Row<'_> {
    ghost made = { row_step };

    fn step(&self) -> Result<Interaction, TranscriptError> {
        let label = Text::new(self.label)?;
        let type_name = Text::new(self.type_name)?;
        let type_tag = TypeTag::from_parts(self.tag_code, self.modulus, self.degree, self.basis)?;
        Ok(Interaction {
            hierarchy: self.hierarchy,
            kind: self.kind,
            label,
            type_tag,
            type_name,
            length: self.length,
        })
    }
}
