// A text: at most 48 printable ASCII bytes, held by value. Labels and type names are texts.
pub mod methods;

ghost use Rattle.std.specs.Prelude.{◌≡◌, ◌-◌, ◌≤◌, true, length, take, drop, replicate};
ghost use Rattle.step.specs.Printable.{all_print};

// Zeros stand after the text, so that two texts are equal exactly if what they hold is. The library's `ArrayString` promises
// nothing of its unused bytes, so two of them that hold the same need not be one value.
#[derive(Clone, Copy, PartialEq, Eq)]
pub struct Text {
    bytes: [u8; 48],
    len: usize,
    ghost whole: { length bytes ≡ 48 },
    ghost fits: { len ≤ 48 },
    ghost prints: { all_print (take len bytes) ≡ true },
    ghost blank: { drop len bytes ≡ replicate (48 - len) 0 },
}
