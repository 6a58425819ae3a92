//! A value that only clauses read.
ghost use Rattle.std.specs.Prelude.{◌≡◌};
ghost use base.Fml.{ftrue};

use std::marker::{Model, PhantomData};

/// What a value was when it was shown. It has no bytes and owns nothing. It is std's `Snapshot`, but that more of it can be had.
pub struct Shown<T> {
    marker: PhantomData<T>,
    pub ghost value: { T },
}

impl<T> Model for Shown<T> {
    ghost also_owns = { λ _. ftrue };
}

impl<T> Shown<T> {
    pub fn of(x: &T) -> Shown<T>
        ensures { result.value ≡ x.now }
    {
        let _ = x;
        Shown {
            marker: PhantomData,
        }
    }

    pub fn again(&self) -> Shown<T>
        ensures { result.value ≡ self.now.value }
    {
        Shown {
            marker: PhantomData,
        }
    }
}

unsafe impl<T> Send for Shown<T> {}

unsafe impl<T> Sync for Shown<T> {}

impl<T> Drop for Shown<T> {
    fn drop(self) {
        let Self { marker: _ } = self;
    }
}
