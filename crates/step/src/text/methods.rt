// Making and reading texts.
ghost use Rattle.std.specs.Prelude.{◌≡◌, true};
ghost use Rattle.step.specs.Printable.{all_print, is_text};
ghost use Rattle.step.specs.Texts.{content, made_text, u8_name};

use super::Text;
use error::TranscriptError;

const LONGEST: usize = 48;

impl Text {
    #[tactic(auto, using(crate::proofs::Texts::made_ok, crate::proofs::Texts::made_no))]
    pub fn new(bytes: &[u8]) -> Result<Text, TranscriptError>
        ensures { result ≡ made_text bytes.now }
    {
        if is_text(bytes) {
            Ok(Text::filled(bytes))
        } else {
            Err(TranscriptError::InvalidField)
        }
    }

    // The type name of raw bytes.
    #[tactic(auto, using(crate::proofs::Texts::same_content))]
    pub fn u8() -> Text
        ensures { result ≡ u8_name }
    {
        Text::filled(b"u8")
    }

    // The text of bytes that make one.
    fn filled(bytes: &[u8]) -> Text
        requires { is_text bytes.now ≡ true }
        ensures { content result ≡ bytes.now }
    {
        let mut held = [0; 48];
        held[..bytes.len()].copy_from_slice(bytes);
        Text {
            bytes: held,
            len: bytes.len(),
        }
    }

    pub fn as_bytes(&self) -> &[u8]
        ensures { result.now ≡ content self.now }
    {
        &self.bytes[..self.len]
    }
}

// Whether these are at most 48 bytes that print.
fn is_text(bytes: &[u8]) -> bool
    ensures { result ≡ is_text bytes.now }
{
    bytes.len() <= LONGEST && all_print(bytes)
}

fn all_print(bytes: &[u8]) -> bool
    ensures { result ≡ all_print bytes.now }
{
    bytes.iter().all(|b| matches!(*b, 0x20..=0x7e))
}
