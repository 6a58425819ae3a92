//! Owners: whose answers follow from how their objects stand.
ghost use Rattle.std.specs.Prelude.{◌≡◌, ◌<◌, List, Option, Some, length, slice_get};
ghost use Rattle.kmem_buf.specs.declared.owner.Stand.{Stand};
ghost use Rattle.kmem_buf.specs.declared.owner.Stand.TheVariants.{Unknown};
ghost use Rattle.kmem_buf.specs.Homes.{Homes, IsBufferOf};
ghost use Rattle.kmem_buf.specs.Answers.{verdict_of, IsAnswerTo};
ghost use Rattle.kmem_buf.specs.Owners.{verdict_at, stands_after, tenants_after};

use crate::buf::Buf;
use crate::client::Answer;
use crate::kind::Kind;

/// How the object in a buffer stands with its owner.
#[derive(Clone, Copy, PartialEq, Eq, Debug)]
pub enum Stand {
    /// It can move.
    Movable,
    /// It is no longer needed.
    Spare,
    /// It can never move.
    Fixed,
    /// It is in use now.
    Busy,
    /// The owner has no object there.
    Unknown,
}

/// Who has objects in buffers of a cache, and answers about each by how it stands.
pub trait Owner<K: Kind> {
    // What the owner keeps in an object. No value of it is made.
    type Tenant;
    // What the owner is to its users, wherever its objects lie. No value of it is made.
    type Meaning;

    // The homes of the cells whose buffers it takes.
    ghost home: { Self → Homes };
    // How the object in each buffer stands, by number.
    ghost stands: { Self → List Stand };
    // What it keeps in each buffer, by number.
    ghost tenants: { Self → List (Option Self.Tenant) };
    // Whether it stands for this.
    ghost stands_for: { Self → Self.Meaning → Type 0 };

    /// Answers whether the object in the buffer `from` could move to the buffer `to`, and moves it where the answer is yes: with its
    /// tenant, and so that whatever the owner stood for it stands for.
    fn answer(&mut self, from: u32, to: Buf<K>) -> Answer<K>
        requires from { from < length (stands self.old) }
        requires to { IsBufferOf (home self.old).cells to × K.constructed to.object }
        requires empty { slice_get (stands self.old) to.number ≡ Some Unknown }
        ensures answer { verdict_of result ≡ verdict_at (stands self.old) from }
        ensures buffers { IsAnswerTo K.constructed (home self.old).cells from to.number result }
        ensures stands { stands self.new ≡ stands_after (stands self.old) from to.number }
        ensures tenants { tenants self.new ≡ tenants_after (stands self.old) from to.number (tenants self.old) }
        ensures meaning { (m : Self.Meaning) → stands_for self.old m → stands_for self.new m }
        ensures home { home self.new ≡ home self.old };
}
