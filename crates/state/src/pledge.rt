// The duty to finish what was made with it.

// It is made here alone, cannot be copied, and letting it go does not compile: finish or abort takes it back.
pub struct Pledge {
    given: (),
}

impl Pledge {
    pub(crate) fn new() -> Pledge {
        Pledge { given: () }
    }

    pub(crate) fn take_back(self) {
        let Pledge { given: _ } = self;
    }
}
