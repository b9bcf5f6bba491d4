// The steps of a sequence, in order.
pub mod filling;

ghost use Rattle.std.specs.Prelude.{◌≡◌, ◌≤◌, length};

use step::interaction::Interaction;

// At most 64, by value: a `Vec` needs the heap, and the library's `ArrayVec` is not `Copy`, which the pattern that is made of them is.
#[derive(Clone, Copy)]
pub struct Steps {
    pub(crate) at: [Interaction; 64],
    pub(crate) len: usize,
    ghost whole: { length at ≡ 64 },
    ghost fits: { len ≤ 64 },
}
