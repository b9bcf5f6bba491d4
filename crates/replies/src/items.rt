// The items of a byte string.
ghost use Rattle.std.specs.Prelude.{◌≡◌, IfOk};
ghost use Rattle.challenger.specs.Words.{words};
ghost use Rattle.replies.specs.Codings.{items_of};

use challenger::word_unit::WordUnit;
use script::command::UnitName;
use std::alloc::{AllocError, Global};

pub(crate) fn items(heap: Global, unit: UnitName, bytes: &[u8]) -> Result<Vec<u64>, AllocError>
    ensures { IfOk result (λ v. v.items ≡ items_of unit bytes.now) }
{
    match unit {
        UnitName::Byte => byte_items(heap, bytes),
        UnitName::Word => word_items(heap, bytes),
    }
}

fn byte_items(heap: Global, bytes: &[u8]) -> Result<Vec<u64>, AllocError>
    ensures { IfOk result (λ v. v.items ≡ bytes.now) }
{
    bytes.iter().map(|b| u64::from(*b)).collect(heap)
}

// By their places: an iterator that the unit handed out would have no type that can be named.
fn word_items(heap: Global, bytes: &[u8]) -> Result<Vec<u64>, AllocError>
    ensures { IfOk result (λ v. v.items ≡ words bytes.now) }
{
    (0..WordUnit::word_count(bytes))
        .map(|i| u64::from(WordUnit::word(bytes, i)))
        .collect(heap)
}
