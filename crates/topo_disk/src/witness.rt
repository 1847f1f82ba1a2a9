ghost use Rattle.std.specs.Prelude.{◌≡◌};
ghost use Rattle.std.specs.Borrow.{ftrue};

use std::marker::{Model, PhantomData};

/// What a value was, for contracts alone: a clause reads it as `was`. It takes no bytes, and making it does nothing
/// at run time.
pub struct Witness<A> {
    of: PhantomData<A>,
    pub ghost was: { A },
}

impl<A> Model for Witness<A> {
    ghost also_owns = { λ _. ftrue };
}

impl<A> Drop for Witness<A> {
    fn drop(self) {
        let Self { of: _ } = self;
    }
}

// It owns nothing.
unsafe impl<A: Send> Send for Witness<A> {}

impl<A> Witness<A> {
    /// A witness of what the value is now.
    pub fn of(value: &A) -> Witness<A>
        ensures { result.was ≡ value.now }
    {
        Witness { of: PhantomData }
    }
}
