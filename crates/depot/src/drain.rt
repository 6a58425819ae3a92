//! What a closed table gives back.
ghost use Rattle.std.specs.Prelude.{◌≡◌, ◌≤◌, [], vec_capacity};
ghost use Rattle.std.specs.Slots.{slots_items, slots_len, IsFull};

use atomic_table::Closed;
use std::alloc::Global;

/// The values of all slots, in order.
pub fn drain<S>(mut closed: Closed<S, Global>, mut values: Vec<S>) -> Vec<S>
    requires whole { IsFull closed.slots }
    requires none { values.items ≡ [] }
    requires room { slots_len closed.slots ≤ vec_capacity values }
    ensures { result.items ≡ slots_items closed.slots }
{
    let count = closed.slot_count();
    for i in 0..count {
        values.push_reserved(closed.take(i));
    }
    closed.free();
    values
}
