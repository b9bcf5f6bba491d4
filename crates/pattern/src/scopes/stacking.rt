// Opening and closing scopes.
ghost use Rattle.std.specs.Prelude.{◌≡◌, ◌+◌, ◌<◌, ◌≤◌, [], ◌∷◌};
ghost use Rattle.pattern.specs.Stack.{open_of, top, rest};

use super::Scopes;

impl Scopes {
    pub fn new() -> Scopes
        ensures items { open_of result ≡ [] }
        ensures depth { result.depth ≡ 0 }
    {
        Scopes {
            at: [0; 64],
            depth: 0,
        }
    }

    pub fn last(&self) -> Option<usize>
        ensures { result ≡ top (open_of self.now) }
    {
        self.at[..self.depth].last().copied()
    }

    pub fn pop(&mut self) -> Option<usize>
        ensures value { result ≡ top (open_of self.old) }
        ensures left { open_of self.new ≡ rest (open_of self.old) }
        ensures depth { self.new.depth ≤ self.old.depth }
    {
        self.depth = self.depth.checked_sub(1)?;
        Some(self.at[self.depth])
    }

    pub(crate) fn push(&mut self, position: usize)
        requires { self.old.depth < 64 }
        ensures { open_of self.new ≡ position ∷ open_of self.old }
    {
        self.at[self.depth] = position;
        self.depth += 1;
    }
}
