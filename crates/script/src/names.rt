// The names of units, fields and codecs, and the values of a codec.
ghost use Rattle.std.specs.Prelude.{◌≡◌};
ghost use Rattle.script.specs.Named.{unit_named, field_named, codec_named, fitting};

use crate::command::{CodecName, FieldName, UnitName, Value};

// A table for each type: a trait for the three would share only `from_utf8`. An Option, since no caller asks why.
impl UnitName {
    pub fn named(word: &[u8]) -> Option<UnitName>
        ensures { result ≡ unit_named word.now }
    {
        match std::str::from_utf8(word).ok()? {
            "byte" => Some(UnitName::Byte),
            "word" => Some(UnitName::Word),
            _ => None,
        }
    }
}

impl FieldName {
    pub fn named(word: &[u8]) -> Option<FieldName>
        ensures { result ≡ field_named word.now }
    {
        match std::str::from_utf8(word).ok()? {
            "BabyBear" => Some(FieldName::BabyBear),
            "Goldilocks" => Some(FieldName::Goldilocks),
            _ => None,
        }
    }
}

impl CodecName {
    pub fn named(word: &[u8]) -> Option<CodecName>
        ensures { result ≡ codec_named word.now }
    {
        match std::str::from_utf8(word).ok()? {
            "BabyBear" => Some(CodecName::BabyBear),
            "Goldilocks" => Some(CodecName::Goldilocks),
            "GoldilocksShort" => Some(CodecName::GoldilocksShort),
            _ => None,
        }
    }
}

impl Value {
    // The codec's value of this number, unless its type is too narrow.
    pub fn fitting(codec: CodecName, n: u64) -> Option<Value>
        ensures { result ≡ fitting codec n }
    {
        match codec {
            CodecName::BabyBear => u32::try_from(n).ok().map(Value::BabyBear),
            CodecName::Goldilocks => Some(Value::Goldilocks(n)),
            CodecName::GoldilocksShort => Some(Value::GoldilocksShort(n)),
        }
    }
}
