//! What lies under the lock, and what may be done to it.
ghost use Rattle.std.specs.Prelude.{◌≡◌, ℕ, List, Option};
ghost use Rattle.hist_lock.specs.History.{told};

/// An object that stands for a history: a list of (pass number, entry).
pub trait Told {
    type Entry: Copy;

    /// Plain data that no turn changes. No value of it is made.
    type Home;

    // The object stands for this history.
    ghost stands: { Self → List (ℕ × Self.Entry) → Type 0 };

    // What no turn changes.
    ghost home: { Self → Self.Home };

    // Any home at all. Nothing depends on which.
    ghost anywhere: { Self.Home };
}

/// What one pass does to the object while it has the lock.
pub trait Turn<O: Told> {
    type Out;

    // The turn's condition on itself, its pass number, the home and the history.
    ghost can: { Self → ℕ → O.Home → List (ℕ × O.Entry) → Type 0 };

    // Of the same, and of the object before the turn and after it: what the answer is, and which entry is made, if any.
    ghost tells: { Self → ℕ → O.Home → O → O → List (ℕ × O.Entry) → Self.Out → Option O.Entry → Type 0 };

    /// Leaves the object standing for the history with the entry at its end, or for the same history where it makes none.
    /// It should be short: all other passes wait for it.
    fn run(self, who: u32, object: &mut O) -> (Self::Out, Option<O::Entry>)
        requires { (h : List (ℕ × O.Entry)) × O.stands object.old h × can self who (O.home object.old) h }
        ensures home { O.home object.new ≡ O.home object.old }
        ensures told { (h : List (ℕ × O.Entry)) → O.stands object.old h → can self who (O.home object.old) h →
            O.stands object.new (told h who result.1) ×
            tells self who (O.home object.old) object.old object.new h result.0 result.1 };
}

/// A turn that does nothing.
#[derive(Clone, Copy)]
pub(crate) struct Nothing;

impl<O: Told> Turn<O> for Nothing {
    ghost use Rattle.std.specs.Prelude.{◌≡◌, None};

    type Out = ();

    ghost can = { λ turn who home history. Unit {0} };

    ghost tells = { λ turn who home before after history out entry. entry ≡ None };

    fn run(self, _who: u32, _object: &mut O) -> ((), Option<O::Entry>) {
        ((), None)
    }
}
