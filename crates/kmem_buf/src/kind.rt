//! What a cache caches.
ghost use Rattle.std.specs.Prelude.{Bool, true, ◌≡◌, IfOk, IsOk};

use std::alloc::AllocError;

/// A kind of objects: how one is made and unmade. Objects are handed out constructed and come back constructed.
pub trait Kind {
    /// Whoever hands buffers to another thread asks for `Send` at the kind that it has.
    type Object: Drop;

    // What is true of an object between two uses.
    ghost constructed: { Self.Object → Type 0 };
    // True of a kind that always finds what it needs for an object.
    ghost never_refuses: { Bool };

    /// A constructed object. `AllocError` where there was no memory for it.
    fn construct(&mut self) -> Result<Self::Object, AllocError>
        ensures made { IfOk result constructed }
        ensures never { never_refuses ≡ true → IsOk result };

    fn destruct(&mut self, object: Self::Object)
        requires { constructed object };
}
