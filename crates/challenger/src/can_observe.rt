// A challenger: it takes items in, and bytes are drawn from it.
ghost use Rattle.std.specs.Prelude.{◌≡◌};
ghost use Rattle.challenger.specs.Sponge.{Sponge, absorbed};

// A challenger means one state. Neither call is ever refused.
pub trait CanObserve<T> {
    ghost State: { Type 0 };

    ghost means: { Self → State };

    // How the state goes on; it depends on nothing else.
    ghost sponge: { Sponge State T };

    fn observe(&mut self, item: T)
        ensures { means self.new ≡ sponge.takes (means self.old) item };

    fn draw(&mut self) -> u8
        ensures value { result ≡ sponge.byte (means self.old) }
        ensures after { means self.new ≡ sponge.turns (means self.old) };
}

// Absorb a slice of items, in order.
pub fn observe_slice<T: Copy, C: CanObserve<T>>(challenger: &mut C, items: &[T])
    ensures { C.CanObserve.means challenger.new ≡ absorbed C.CanObserve.sponge items.now (C.CanObserve.means challenger.old) }
{
    for item in items {
        challenger.observe(*item);
    }
}

// A borrowed challenger is one.
impl<T, C: CanObserve<T>> CanObserve<T> for &mut C {
    ghost State = { C.CanObserve.State };

    ghost means = { λ c. C.CanObserve.means c.now };

    ghost sponge = { C.CanObserve.sponge };

    fn observe(&mut self, item: T) {
        (**self).observe(item);
    }

    fn draw(&mut self) -> u8 {
        (**self).draw()
    }
}
