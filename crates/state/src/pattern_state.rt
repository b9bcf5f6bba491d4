// Records a pattern step by step, validating as it goes.
pub mod recording;
pub mod stepping;

use pattern::draft::Draft;

#[derive(Drop)]
pub struct PatternState {
    draft: Draft,
    // A recorder that a refusal ended still shows its steps, so no missing draft stands for it.
    ended: bool,
}
