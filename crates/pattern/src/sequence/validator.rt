// The structural check of a sequence of steps, and reading a pattern.
ghost use Rattle.std.specs.Prelude.{◌≡◌, ℕ, ◌+◌, true, List, length, is_ok, Ok, ◌==◌};
ghost use Rattle.pattern.specs.Listed.{listed};
ghost use Rattle.pattern.specs.Patterns.{steps as steps_of, with_open, held_result, pattern_result, Within, WithinResult};
ghost use Rattle.pattern.specs.Stack.{open_of};
ghost use Rattle.pattern.specs.Walk.{nested, closed, placed, met, validated, checked};

use super::InteractionPattern;
use crate::candidate::Candidate;
use crate::scopes::Scopes;
use crate::steps::Steps;
use error::TranscriptError;
use step::interaction::{Hierarchy, Interaction};

// How many steps a pattern holds.
const MAX_STEPS: usize = 64;

// `before` and `scopes` stand side by side, in no struct that says `Within` of them: once an opener is pushed the fact is one of the next place, so the struct would have to be left before the push.

// Whether `step` may stand in the innermost of the scopes that are open after `before`.
fn check_nested_kind(
    before: &[Interaction],
    scopes: &Scopes,
    step: &Interaction,
) -> Result<(), TranscriptError>
    requires { Within (length before.now) (open_of scopes.now) }
    ensures { (open' : List ℕ) → with_open open' result ≡ nested before.now (open_of scopes.now) step.now open' }
{
    let Some(begin_position) = scopes.last() else {
        return Ok(());
    };
    if before[begin_position].admits(step) {
        return Ok(());
    }
    Err(TranscriptError::InvalidKind {
        begin_position,
        interaction_position: before.len(),
    })
}

// Closes the innermost scope.
fn close_scope(
    before: &[Interaction],
    scopes: &mut Scopes,
    step: &Interaction,
) -> Result<(), TranscriptError>
    requires { Within (length before.now) (open_of scopes.old) }
    ensures value { with_open (open_of scopes.new) result ≡ closed before.now (open_of scopes.old) step.now }
    ensures within { Within (length before.now) (open_of scopes.new) }
{
    let Some(begin_position) = scopes.pop() else {
        return Err(TranscriptError::MissingBegin {
            position: before.len(),
        });
    };
    if step.closes(&before[begin_position]) {
        return Ok(());
    }
    Err(TranscriptError::MismatchedBeginEnd {
        begin_position,
        end_position: before.len(),
    })
}

// Whether a place is free for a step after `before`.
fn check_place(before: &[Interaction]) -> Result<(), TranscriptError>
    ensures { (open' : List ℕ) → with_open open' result ≡ placed (length before.now) (Ok open') }
{
    if before.len() < MAX_STEPS {
        Ok(())
    } else {
        Err(TranscriptError::PatternFull)
    }
}

// The scopes that are open when `step` comes after `before`, which left `scopes` open.
#[tactic(auto, using(crate::proofs::Stacks::within_more, crate::proofs::Stacks::within_push), unfolding(crate::specs::Walk::met))]
pub(crate) fn nest(
    before: &[Interaction],
    mut scopes: Scopes,
    step: &Interaction,
) -> Result<Scopes, TranscriptError>
    requires { Within (length before.now) (open_of scopes) }
    ensures value { held_result result ≡ met before.now (open_of scopes) step.now }
    ensures within { WithinResult (length before.now + 1) result }
{
    match step.hierarchy {
        Hierarchy::Begin => {
            check_nested_kind(before, &scopes, step)?;
            check_place(before)?;
            scopes.push(before.len());
            Ok(scopes)
        }
        Hierarchy::End => {
            close_scope(before, &mut scopes, step)?;
            check_place(before)?;
            Ok(scopes)
        }
        Hierarchy::Atomic => {
            check_nested_kind(before, &scopes, step)?;
            check_place(before)?;
            Ok(scopes)
        }
    }
}

impl InteractionPattern {
    // Build a pattern from a sequence of steps, or of plain rows, after validating its structure.
    #[tactic(auto, using(crate::proofs::Walking::open_at_end, crate::proofs::Walking::closed_at_end, crate::proofs::Walking::validated_checked))]
    pub fn new<S: Candidate>(rows: &[S]) -> Result<InteractionPattern, TranscriptError>
        ensures { pattern_result result ≡ validated S.Candidate.made rows.now }
    {
        // Made here: a function that handed the table of 64 over would have it written twice.
        let mut steps = Steps {
            at: [Steps::blank(); 64],
            len: 0,
        };
        // Positions of the openers that are still open.
        let mut scopes = Scopes::new();
        // A refusal names a step by its position.
        for (position, row) in rows.iter().enumerate() {
            let step = row.step()?;
            scopes = nest(&steps.as_slice()[..position], scopes, &step)?;
            steps.push(step);
        }
        if let Some(position) = scopes.pop() {
            return Err(TranscriptError::MissingEnd { position });
        }
        Ok(InteractionPattern { steps })
    }

    // Steps that have been checked.
    pub(crate) fn of_steps(steps: Steps) -> InteractionPattern
        requires { is_ok (checked (listed steps)) ≡ true }
        ensures { steps_of result ≡ listed steps }
    {
        InteractionPattern { steps }
    }

    // The steps, in order.
    pub fn interactions(&self) -> &[Interaction]
        ensures { result.now ≡ steps_of self.now }
    {
        self.steps.as_slice()
    }

    pub fn len(&self) -> usize
        ensures { result ≡ length (steps_of self.now) }
    {
        self.interactions().len()
    }

    pub fn is_empty(&self) -> bool
        ensures { result ≡ (length (steps_of self.now) == 0) }
    {
        self.interactions().is_empty()
    }
}
