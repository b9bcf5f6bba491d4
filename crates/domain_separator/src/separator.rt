// What a transcript is bound to: a protocol's identifier and a pattern.
pub mod methods;

use pattern::sequence::InteractionPattern;

#[derive(Clone, Copy)]
pub struct DomainSeparator {
    protocol_id: [u8; 64],
    pattern: InteractionPattern,
}
