// How many vectors there were, and how many agreed.
use std::fmt;
use std::fmt::{Display, Formatter, Write};

#[derive(Default, Drop)]
pub struct Tally {
    agree: u64,
    differ: u64,
    in_parts: u64,
}

impl Tally {
    pub fn count(&mut self, agrees: bool, in_parts: bool) {
        if agrees {
            self.agree = self.agree.saturating_add(1);
        } else {
            self.differ = self.differ.saturating_add(1);
        }
        if in_parts {
            self.in_parts = self.in_parts.saturating_add(1);
        }
    }
}

impl Display for Tally {
    fn fmt<W: Write>(&self, f: &mut Formatter<W>) -> Result<(), fmt::Error> {
        let all = self.agree.saturating_add(self.differ);
        let Tally {
            agree,
            differ,
            in_parts,
        } = self;
        write!(
            f,
            "{all} vectors: {agree} agree, {differ} differ, {in_parts} also hashed in parts"
        )
    }
}
