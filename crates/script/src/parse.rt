// A line as a command.
ghost use Rattle.std.specs.Prelude.{◌≡◌};
ghost use Rattle.std.specs.Option.{option_map};
ghost use Rattle.scan.specs.Words.{left};
ghost use Rattle.script.specs.Language.{read, commented, order_named, query_named, ended};
ghost use Rattle.script.specs.Meaning.{asks_of, order_of, query_of};

use crate::command::{CodecName, Command, FieldName, Leaf, Line, UnitName, Value};
use scan::hex::Hex;
use scan::numbers::number;
use scan::words::Words;

const LONGEST: usize = 65536;

pub fn read_line(line: &[u8]) -> Line<'_>
    ensures { asks_of result ≡ read line.now }
{
    if is_comment(line) {
        return Line::Silent;
    }
    let mut words = Words::new(line);
    let Some(name) = words.next() else {
        return Line::Silent;
    };
    if line.len() > LONGEST {
        return Line::Wrong;
    }
    match command(name, words) {
        Some(command) => Line::Asks(command),
        None => Line::Wrong,
    }
}

fn is_comment(line: &[u8]) -> bool
    ensures { result ≡ commented line.now }
{
    matches!(line, [b'#', ..])
}

// The command of this name, where the words fit it.
fn command<'a>(name: &[u8], words: Words<'a>) -> Option<Command<'a>>
    ensures { option_map order_of result ≡ order_named name.now (left words.entry) }
{
    let name = std::str::from_utf8(name).ok()?;
    Some(Command::Leaf(leaf(name, words)?))
}

fn leaf<'a>(name: &str, mut words: Words<'a>) -> Option<Leaf<'a>>
    ensures { option_map query_of result ≡ query_named name.now (left words.entry) }
{
    let leaf = leaf_front(name, &mut words)?;
    words.next().is_none().then_some(leaf)
}

// The same, whatever words are left over.
fn leaf_front<'a>(name: &str, words: &mut Words<'a>) -> Option<Leaf<'a>>
    ensures { ended (option_map query_of result) (left words.new) ≡ query_named name.now (left words.old) }
{
    match name {
        "width" => Some(Leaf::Width(number(words.next()?)?)),
        "encode-len" => Some(Leaf::EncodeLen(number(words.next()?)?, number(words.next()?)?)),
        "decode-len" => Some(Leaf::DecodeLen(Hex::bytes(words.next()?)?, number(words.next()?)?)),
        "keccak" => Some(Leaf::Keccak(Hex::bytes(words.next()?)?)),
        "items" => Some(Leaf::Items(UnitName::named(words.next()?)?, Hex::bytes(words.next()?)?)),
        "encode" => {
            let codec = CodecName::named(words.next()?)?;
            let n = number(words.next()?)?;
            Some(Leaf::Encode(Value::fitting(codec, n)?))
        }
        "decode" => Some(Leaf::Decode(
            CodecName::named(words.next()?)?,
            Hex::bytes(words.next()?)?,
        )),
        "bits" => Some(Leaf::Bits(CodecName::named(words.next()?)?)),
        "tag" => Some(Leaf::Tag(FieldName::named(words.next()?)?)),
        _ => None,
    }
}
