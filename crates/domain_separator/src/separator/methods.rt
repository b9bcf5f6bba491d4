// Making a domain separator, and the seed made from it.
ghost use Rattle.std.specs.Prelude.{◌≡◌};
ghost use Rattle.challenger.specs.Sponge.{absorbed};
ghost use Rattle.domain_separator.specs.Domains.{domain_of, domain_result, made_domain, domain_seed};
ghost use Rattle.pattern.specs.Patterns.{steps as steps_of};

use super::DomainSeparator;
use crate::identifier::protocol_id;
use crate::seed::seed_bytes;
use challenger::can_observe::CanObserve;
use challenger::unit::Unit;
use error::TranscriptError;
use pattern::sequence::InteractionPattern;
use render::rendering::steps_hash;

impl DomainSeparator {
    pub fn new(
        version: u8,
        protocol_name: &[u8],
        pattern: InteractionPattern,
    ) -> Result<DomainSeparator, TranscriptError>
        ensures { domain_result result ≡ made_domain version protocol_name.now (steps_of pattern) }
    {
        let protocol_id = protocol_id(version, protocol_name)?;
        Ok(DomainSeparator {
            protocol_id,
            pattern,
        })
    }

    pub fn protocol_id(&self) -> &[u8; 64]
        ensures { result.now ≡ (domain_of self.now).identifier }
    {
        &self.protocol_id
    }

    pub fn pattern(&self) -> &InteractionPattern
        ensures { steps_of result.now ≡ (domain_of self.now).steps }
    {
        &self.pattern
    }

    // The pattern's hash is always in it, so that two shapes of a transcript never share a seed by oversight.
    pub fn seed_bytes(&self) -> [u8; 101]
        ensures { result ≡ domain_seed (domain_of self.now) }
    {
        seed_bytes(&self.protocol_id, &steps_hash(self.pattern.interactions()))
    }

    pub fn seed<U: Unit, C: CanObserve<U::Item>>(&self, challenger: &mut C)
        ensures { C.CanObserve.means challenger.new ≡ absorbed C.CanObserve.sponge (U.items (domain_seed (domain_of self.now))) (C.CanObserve.means challenger.old) }
    {
        U::observe_bytes(challenger, &self.seed_bytes());
    }
}
