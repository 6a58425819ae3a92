//! A seat is there once, so what goes with it is too.
ghost use Rattle.std.specs.Prelude.{◌≡◌, [], ◌∷◌};
ghost use Rattle.kmem_buf.specs.declared.board.View.{View};

use crate::board::View;
use atomic_table::Badge;

/// Two badges of one seat: there is no such pair. Its proof, by hand, needs no step: each of the two would own the seat's view.
pub fn never_twice(one: Badge<View>, other: Badge<View>)
    requires { (one.table_id ≡ other.table_id) × (one.id ≡ other.id) ×
        ((v : View) × (w : View) × (one.views ≡ v ∷ []) × (other.views ≡ w ∷ [])) }
    ensures { ⊥ }
{
    drop(one);
    drop(other);
}
