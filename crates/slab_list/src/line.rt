//! What is kept of one slab beside the cells of its buffers.
ghost use Rattle.std.specs.Prelude.{◌≡◌, ◌≤◌, ◌<◌, ◌&&◌, ◌||◌, ◌==◌, not, is_some, IfSome, List, if◌then◌else◌};
ghost use Rattle.kmem_buf.specs.Buffers.{CellState};
ghost use Rattle.kmem_model.specs.CacheState.{is_same_standing};
ghost use Rattle.kmem_model.specs.CacheOrder.{is_the};
ghost use Rattle.kmem_model.specs.CacheEnter.{slab_later, slab_never};
ghost use Rattle.kmem_model.specs.declared.cache_state.Standing.TheVariants.{Listed, Dead};
ghost use Rattle.slab_list.specs.Bins.{bin_at};
ghost use Rattle.slab_list.specs.Lines.{slab_of, line_freed, line_in_source, line_unmarked};

use crate::index::{DEAD, UNUSED};
use kmem_model::Standing;

// A mark comes with this count.
const MARKS_AT: u32 = 3;

#[derive(Clone, Copy)]
pub struct Line {
    pub standing: Standing,
    // How many of its buffers are out.
    pub used: u32,
    // How often a move off it was put off, counted to 3.
    pub later: u32,
    // The index of its stuck buffer, where it has the no-move mark.
    pub stuck: Option<u32>,
}

impl Line {
    /// The line of a slab in the source.
    pub fn in_source() -> Line
        ensures { result ≡ line_in_source }
    {
        Line {
            standing: Standing::Source,
            used: 0,
            later: 0,
            stuck: None,
        }
    }

    /// Whether the buffer of this index is the stuck one.
    fn is_stuck(&self, index: u32) -> bool
        ensures { result ≡ is_the self.now.stuck index }
    {
        match self.stuck {
            Some(stuck) => stuck == index,
            None => false,
        }
    }

    /// Count and mark go.
    pub fn unmark(&mut self)
        ensures { self.new ≡ line_unmarked self.old }
    {
        self.later = 0;
        self.stuck = None;
    }

    /// The buffer of this index is free again.
    pub fn free(&mut self, index: u32)
        requires { 0 < self.old.used }
        ensures { self.new ≡ line_freed self.old index }
    {
        self.used -= 1;
        if self.used == 0 || self.is_stuck(index) {
            self.later = 0;
            self.stuck = None;
        }
    }

    /// A move of the buffer of this index was put off.
    pub fn put_off(&mut self, index: u32)
        ensures slab { (row : List CellState) → slab_of self.new row ≡ slab_later (slab_of self.old row) index }
        ensures used { self.new.used ≡ self.old.used }
    {
        self.later = self.later.saturating_add(1).min(MARKS_AT);
        if self.later == MARKS_AT {
            self.fix(index);
        }
    }

    /// The buffer of this index can never be moved.
    pub fn fix(&mut self, index: u32)
        ensures slab { (row : List CellState) → slab_of self.new row ≡ slab_never (slab_of self.old row) index }
        ensures used { self.new.used ≡ self.old.used }
    {
        self.stuck = self.stuck.or(Some(index));
    }

    /// The bin of its slab, if it has one.
    pub fn bin(&self, chunks: u32) -> Option<u32>
        requires { chunks ≤ 64 }
        ensures bin { result ≡ bin_at chunks self.now.standing self.now.used (is_some self.now.stuck) }
        ensures range { IfSome result (λ b. b < 130) }
    {
        match self.standing {
            Standing::Source => None,
            Standing::Dead => Some(DEAD),
            Standing::Listed => self.listed_bin(chunks),
        }
    }

    fn listed_bin(&self, chunks: u32) -> Option<u32>
        requires { chunks ≤ 64 }
        ensures bin { result ≡ bin_at chunks Listed self.now.used (is_some self.now.stuck) }
        ensures range { IfSome result (λ b. b < 130) }
    {
        let used = self.used;
        if used >= chunks {
            None
        } else if used == 0 {
            Some(UNUSED)
        } else if self.stuck.is_some() {
            Some(63 - used)
        } else {
            Some(127 - used)
        }
    }

    /// Whether it has a count or a mark.
    pub fn is_noted(&self) -> bool
        ensures { result ≡ (not (self.now.later == 0) || is_some self.now.stuck) }
    {
        self.later != 0 || self.stuck.is_some()
    }

    /// 1 where the slab is listed.
    pub fn listed(&self) -> u32
        ensures { result ≡ (if is_same_standing Listed self.now.standing then 1 else 0) }
    {
        if self.standing == Standing::Listed {
            1
        } else {
            0
        }
    }

    /// 1 where the slab is listed with no buffer out.
    pub fn unused(&self) -> u32
        ensures { result ≡ (if is_same_standing Listed self.now.standing && self.now.used == 0 then 1 else 0) }
    {
        if self.used == 0 { self.listed() } else { 0 }
    }

    /// 1 where the slab is dead.
    pub fn dead(&self) -> u32
        ensures { result ≡ (if is_same_standing Dead self.now.standing then 1 else 0) }
    {
        if self.standing == Standing::Dead {
            1
        } else {
            0
        }
    }
}
