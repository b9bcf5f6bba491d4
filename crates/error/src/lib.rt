// The refusals: one case for each question that a call can answer with no, and what it carries.
#![tactic(auto)]

ghost use Rattle.std.specs.Prelude.{◌≡◌};
ghost use Rattle.error.specs.Numbers.{number as number_of};

mod laws;

pub use laws::equality_tells;

// In the order of the numbers, which is the order in which the questions are put.
// Positions are those of steps in a pattern, the opener's first.
#[derive(Clone, Copy, Debug, PartialEq, Eq)]
pub enum TranscriptError {
    // A text is too long or has a byte outside its range, or a row's tag is unknown or not clean.
    InvalidField,
    // A prefix is wider than eight bytes, its length does not fit, or its buffer is too short.
    InvalidPrefix,
    NotRecording,
    MissingBegin {
        position: usize,
    },
    MismatchedBeginEnd {
        begin_position: usize,
        end_position: usize,
    },
    InvalidKind {
        begin_position: usize,
        interaction_position: usize,
    },
    PatternFull,
    MissingEnd {
        position: usize,
    },
    InvalidName,
    // The codec declares too few bits for a challenge.
    WeakCodec,
    // The prover was given more values than the maximum.
    CountOverMax,
    Ended,
    NoStepLeft,
    StepMismatch,
    // The buffer does not hold the filled part and the new bytes.
    ShortBuffer,
    // The string ends within a prefix or a byte payload.
    ShortProof,
    // The string states a count over the maximum.
    ReadOverMax,
    // The string ends within the values.
    MissingValues,
    // The buffer for values holds fewer than the string states.
    ShortValues,
    // A value that the codec does not take, and the codec's own number for why.
    BadValue {
        index: usize,
        fault: u8,
    },
    StepsLeft,
    TrailingBytes,
}

impl TranscriptError {
    // The number that a refusal is known by outside. A case that carries values has no cast to one, so each number stands here.
    pub fn number(&self) -> u8
        ensures { result ≡ number_of self.now }
    {
        match self {
            TranscriptError::InvalidField => 1,
            TranscriptError::InvalidPrefix => 2,
            TranscriptError::NotRecording => 3,
            TranscriptError::MissingBegin { .. } => 4,
            TranscriptError::MismatchedBeginEnd { .. } => 5,
            TranscriptError::InvalidKind { .. } => 6,
            TranscriptError::PatternFull => 7,
            TranscriptError::MissingEnd { .. } => 8,
            TranscriptError::InvalidName => 9,
            TranscriptError::WeakCodec => 10,
            TranscriptError::CountOverMax => 11,
            TranscriptError::Ended => 12,
            TranscriptError::NoStepLeft => 13,
            TranscriptError::StepMismatch => 14,
            TranscriptError::ShortBuffer => 15,
            TranscriptError::ShortProof => 16,
            TranscriptError::ReadOverMax => 17,
            TranscriptError::MissingValues => 18,
            TranscriptError::ShortValues => 19,
            TranscriptError::BadValue { .. } => 20,
            TranscriptError::StepsLeft => 21,
            TranscriptError::TrailingBytes => 22,
        }
    }
}
