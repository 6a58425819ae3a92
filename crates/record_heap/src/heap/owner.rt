//! The heap as the owner of the objects in its buffers.
ghost use Rattle.std.specs.Prelude.{◌≡◌, ◌<◌, Some, length, slice_get};
ghost use Rattle.kmem_buf.specs.Homes.{IsBufferOf};
ghost use Rattle.kmem_buf.specs.Answers.{verdict_of, IsAnswerTo};
ghost use Rattle.kmem_buf.specs.Owners.{verdict_at, stands_after, tenants_after};
ghost use Rattle.kmem_buf.specs.declared.owner.Stand.TheVariants.{Unknown};
ghost use Rattle.kmem_model.specs.Heap.{blank, IsTied};
ghost use Rattle.record_heap.specs.Tenants.{TenantState, tenant_code, MeaningState, meaning_code, stands_of, tenants_of, HasMeaning};

use super::RecordHeap;
use crate::cell::RecordKind;
use kmem_buf::{Answer, Buf, Owner};
use std::marker::Model;

/// What the heap keeps in a buffer: the names of a record and the tags that hold it. No value of it is made.
pub struct RecordTenant {
    ghost is: { TenantState } by { tenant_code },
}

impl Model for RecordTenant {
    ghost use base.Fml.{ftrue};
    ghost use Rattle.record_heap.specs.Tenants.{TenantState};

    ghost Value = { TenantState };

    ghost view = { λ t. t.is };

    ghost also_owns = { λ _. ftrue };
}

/// What the heap stands for, wherever its records lie: a record map, and what never changes of the heap. No value of it is made.
pub struct RecordMeaning {
    ghost is: { MeaningState } by { meaning_code },
}

impl Model for RecordMeaning {
    ghost use base.Fml.{ftrue};
    ghost use Rattle.record_heap.specs.Tenants.{MeaningState};

    ghost Value = { MeaningState };

    ghost view = { λ m. m.is };

    ghost also_owns = { λ _. ftrue };
}

impl Owner<RecordKind> for RecordHeap {
    type Tenant = RecordTenant;

    type Meaning = RecordMeaning;

    ghost use Rattle.record_heap.specs.Tenants.{stands_of, tenants_of, HasMeaning};

    ghost home = { λ h. h.home };

    ghost stands = { stands_of };

    ghost tenants = { tenants_of };

    ghost stands_for = { HasMeaning };

    fn answer(&mut self, from: u32, to: Buf<RecordKind>) -> Answer<RecordKind>
        requires from { from < length (stands_of self.old) }
        requires to { IsBufferOf self.old.home.cells to × (to.object ≡ blank) }
        requires empty { slice_get (stands_of self.old) to.number ≡ Some Unknown }
        ensures answer { verdict_of result ≡ verdict_at (stands_of self.old) from }
        ensures buffers { IsAnswerTo (λ o. o ≡ blank) self.old.home.cells from to.number result }
        ensures stands { stands_of self.new ≡ stands_after (stands_of self.old) from to.number }
        ensures tenants { tenants_of self.new ≡ tenants_after (stands_of self.old) from to.number (tenants_of self.old) }
        ensures meaning { (m : MeaningState) → HasMeaning self.old m → HasMeaning self.new m }
        ensures home { self.new.home ≡ self.old.home }
    {
        self.law_tied();
        self.answer_move(from, to)
    }
}

impl RecordHeap {
    // Names, tags and objects fit together.
    fn law_tied(&self)
        ensures { IsTied self.now.heap }
    {
        let _present = self.present;
    }
}
