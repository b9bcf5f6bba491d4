// The identifier of a protocol: its version and its name in 64 bytes.
ghost use Rattle.std.specs.Prelude.{◌≡◌};
ghost use Rattle.domain_separator.specs.Identifiers.{made_identifier};

use error::TranscriptError;

// The version takes the first byte and the name's length the last.
const LONGEST: usize = 62;

// Refused is a name with no bytes and one with more than 62; its bytes may be any.
pub fn protocol_id(version: u8, name: &[u8]) -> Result<[u8; 64], TranscriptError>
    ensures { result ≡ made_identifier version name.now }
{
    if name.len() == 0 || name.len() > LONGEST {
        return Err(TranscriptError::InvalidName);
    }
    let mut id = [0; 64];
    id[0] = version;
    id[1..1 + name.len()].copy_from_slice(name);
    // Without the length, zeros at the end of a name would not count.
    id[63] = name.len() as u8;
    Ok(id)
}
