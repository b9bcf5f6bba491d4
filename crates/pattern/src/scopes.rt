// The positions of the openers that are still open, innermost on top.
pub mod stacking;

ghost use Rattle.std.specs.Prelude.{◌≤◌};

// The depth stands beside an array, since a `Vec` needs the heap and the library's `ArrayVec` is not `Copy`.
#[derive(Clone, Copy)]
pub struct Scopes {
    at: [usize; 64],
    depth: usize,
    ghost fits: { depth ≤ 64 },
}
