//! The order in which slabs serve, and the choices by it.
ghost use Rattle.std.specs.Prelude.{◌≡◌, ◌<◌, ◌*◌, ◌+◌, ◌/◌, ◌%◌, ◌&&◌, ◌==◌, ◌||◌, ◌≤◌, ◌^◌, not, nat_lt, ℕ, Bool, true, false, All, ◌↔◌, Option, Some, None, IfSome, MatchOption, is_some, length, option_map, slice_index_or, if◌then◌else◌};
ghost use Rattle.kmem_model.specs.CacheState.{SlabState, slab_at, is_listed, is_dead, used, free_buffers, is_out_on};
ghost use Rattle.kmem_model.specs.CacheOrder.{least_below, IsLeastBelow, foremost, is_the, is_partial, is_marked, comes_before, first_partial, least_free, first_of_slab, is_reclaimable, least_to_move, last_reclaimable};
ghost use Rattle.kmem_model.specs.Settle.{is_open_slab, is_rest_marked};
ghost use Rattle.slab_list.specs.Slabs.{IsListWhole, IsFree, slab_with, is_out_in, free_next, is_unused, mode_of};
ghost use Rattle.slab_list.specs.Bins.{bin_of};

use crate::index::{DEAD, PLACES, UNUSED};
use crate::list::SlabList;
use kmem_buf::Kind;
use kmem_model::{Steps, law_order};

// What a scan may ask about.
#[derive(Clone, Copy)]
struct Rule {
    numer: u32,
    desperate: bool,
    // The first partial slab, which is left out.
    first: Option<u32>,
}

impl<K: Kind> SlabList<K> {
    /// The buffer that serves next: the least free one of the first partial slab, or else of the least listed slab with no buffer out.
    pub fn first_free(&self) -> Option<u32>
        ensures free { result ≡ free_next self.now }
        ensures room { IfSome result (IsFree self.now) }
        ensures none { (result ≡ None) ↔ All (λ slab. is_listed slab ≡ true → free_buffers slab ≡ 0) self.now.slabs }
    {
        self.first_free_on(self.first_partial(&mut Steps::create()))
    }

    /// The same, where the first partial slab was found already.
    pub fn first_free_on(&self, first: Option<u32>) -> Option<u32>
        requires { first ≡ first_partial self.now.slabs }
        ensures free { result ≡ free_next self.now }
        ensures room { IfSome result (IsFree self.now) }
        ensures none { (result ≡ None) ↔ All (λ slab. is_listed slab ≡ true → free_buffers slab ≡ 0) self.now.slabs }
    {
        law_order();
        self.law_whole();
        match first {
            Some(slab) => self.least_free(slab),
            None => self.first_unused(),
        }
    }

    /// The buffer that a scan would have moved next: the least that can be, of the last slab that has one, and that it doesn't leave out.
    /// The first partial slab was found already.
    /// A mild scan takes only slabs without a mark, with one buffer out or with less than `numer` eighths of them out.
    /// A slab with none left is looked at once, and again only after a change of it.
    pub fn last_reclaimable(
        &mut self,
        first: Option<u32>,
        numer: u32,
        desperate: bool,
    ) -> Option<u32>
        requires first { first ≡ first_partial self.old.slabs }
        ensures choice { result ≡ last_reclaimable self.old.chunks numer (mode_of desperate)
            (λ b. slice_index_or self.old.skip b false) self.old.slabs }
        ensures out { IfSome result (λ b. (b < length self.old.cells) × (is_out_in self.old b ≡ true)) }
        ensures list { self.new ≡ self.old }
    {
        let rule = Rule {
            numer,
            desperate,
            first,
        };
        let slab = self.last_to_ask(rule)?;
        self.least_to_move(rule, slab)
    }

    /// The first partial slab. It is found by at most four steps.
    pub fn first_partial(&self, steps: &mut Steps) -> Option<u32>
        requires { steps.old < 2 ^ 62 }
        ensures first { result ≡ first_partial self.now.slabs }
        ensures steps { steps.new ≤ steps.old + 4 }
        ensures range { IfSome result (λ slab. slab < length self.now.slabs) }
    {
        law_order();
        self.law_whole();
        let place = self.first_place(steps)?;
        if place / PLACES < UNUSED {
            Some(place % PLACES)
        } else {
            None
        }
    }

    /// The number of the least dead slab.
    pub fn first_dead(&self) -> Option<u32>
        ensures { result ≡ least_below (length self.now.slabs) (λ i. is_dead (slab_at self.now.slabs i)) }
    {
        law_order();
        self.law_whole();
        self.first_in(DEAD)
    }

    /// Whether every partial slab after the first has a mark. Only the last one is looked at: where it has none and isn't the first, it is one
    /// without a mark itself, and else all others have a mark.
    pub fn is_rest_marked(&self) -> bool
        ensures { result ≡ is_rest_marked self.now.slabs }
    {
        law_order();
        self.law_whole();
        match self.place_before(UNUSED * PLACES) {
            Some(place) => !self.is_open(place % PLACES),
            None => true,
        }
    }

    // Whether the slab is partial and has no mark, and isn't the first partial one.
    fn is_open(&self, slab: u32) -> bool
        requires { slab < length self.now.slabs }
        ensures { result ≡ is_open_slab self.now.slabs slab }
    {
        let first = self.first_partial(&mut Steps::create());
        self.is_partial(slab) && !self.is_marked(slab) && !is_this(first, slab)
    }

    // The least slab of a bin whose slabs stand by their numbers.
    fn first_in(&self, bin: u32) -> Option<u32>
        requires { (0 < bin) × (bin < 130) }
        ensures { MatchOption result ((i : ℕ) → i < length self.now.slabs → is_the (bin_of self.now.chunks (slab_at self.now.slabs i)) bin ≡ false)
            (IsLeastBelow (length self.now.slabs) (λ i. is_the (bin_of self.now.chunks (slab_at self.now.slabs i)) bin)) }
    {
        self.law_whole();
        let place = self.place_after(bin * PLACES - 1)?;
        if place / PLACES == bin {
            Some(place % PLACES)
        } else {
            None
        }
    }

    fn number(&self, slab: u32, index: u32) -> u32
        requires slab { slab < length self.now.slabs }
        requires index { index < self.now.chunks }
        ensures number { result ≡ slab * self.now.chunks + index }
        ensures place { (result / self.now.chunks ≡ slab) × (result % self.now.chunks ≡ index) }
        ensures range { result < length self.now.cells }
    {
        slab * self.chunks() + index
    }

    fn is_out_at(&self, slab: u32, index: u32) -> bool
        requires slab { slab < length self.now.slabs }
        requires index { index < self.now.chunks }
        ensures { result ≡ is_out_on (slab_at self.now.slabs slab) index }
    {
        self.is_out(self.number(slab, index))
    }

    fn is_partial(&self, slab: u32) -> bool
        requires { slab < length self.now.slabs }
        ensures { result ≡ is_partial (slab_at self.now.slabs slab) }
    {
        let used = self.used(slab);
        let chunks = self.chunks();
        self.is_listed(slab) && 0 < used && used < chunks
    }

    fn is_marked(&self, slab: u32) -> bool
        requires { slab < length self.now.slabs }
        ensures { result ≡ is_marked (slab_at self.now.slabs slab) }
    {
        self.stuck(slab).is_some()
    }

    // The least free buffer of the slab.
    fn least_free(&self, slab: u32) -> Option<u32>
        requires { slab < length self.now.slabs }
        ensures least { result ≡ option_map (λ k. slab * self.now.chunks + k) (least_free (slab_at self.now.slabs slab)) }
        ensures room { IfSome result (λ b. (slab_with self.now b ≡ slab_at self.now.slabs slab) × (is_out_in self.now b ≡ false)) }
    {
        law_order();
        for index in 0..self.chunks() {
            if !self.is_out_at(slab, index) {
                return Some(self.number(slab, index));
            }
        }
        None
    }

    // The first buffer of the least listed slab with no buffer out.
    fn first_unused(&self) -> Option<u32>
        ensures first { result ≡ first_of_slab self.now.chunks self.now.slabs is_unused }
        ensures room { IfSome result (IsFree self.now) }
    {
        law_order();
        self.law_whole();
        let slab = self.first_in(UNUSED)?;
        Some(self.number(slab, 0))
    }
}

// The choice of a scan.
impl<K: Kind> SlabList<K> {
    // The last slab with a buffer that can be moved.
    fn last_to_ask(&mut self, rule: Rule) -> Option<u32>
        requires first { rule.first ≡ first_partial self.old.slabs }
        ensures last { result ≡ foremost (length self.old.slabs)
            (λ i. is_some (least_to_move self.old.chunks rule.numer (mode_of rule.desperate)
            (λ b. slice_index_or self.old.skip b false) self.old.slabs i))
            (λ j i. comes_before self.old.slabs i j) }
        ensures range { IfSome result (λ slab. slab < length self.old.slabs) }
        ensures list { self.new ≡ self.old }
    {
        law_order();
        self.law_whole();
        let mut last = self.unspent_before(UNUSED * PLACES);
        while let Some(place) = last {
            let slab = place % PLACES;
            if self.least_to_move(rule, slab).is_some() {
                return Some(slab);
            }
            if self.ends_scan(rule, slab) {
                return None;
            }
            self.pass(rule, place);
            last = self.unspent_before(place);
        }
        None
    }

    // No buffer of the slab that stands at this place can be moved. Where that isn't because it is the first partial one, none of it is left.
    fn pass(&mut self, rule: Rule, place: u32)
        requires first { rule.first ≡ first_partial self.old.slabs }
        requires slab { place % 4096 < length self.old.slabs }
        requires range { place < 532480 }
        requires none { least_to_move self.old.chunks rule.numer (mode_of rule.desperate)
            (λ b. slice_index_or self.old.skip b false) self.old.slabs (place % 4096) ≡ None }
        ensures { self.new ≡ self.old }
    {
        law_order();
        if self.may_ask(rule, place % PLACES) {
            self.mark_spent(place);
        }
    }

    // Whether a mild scan takes neither this slab nor any fuller one.
    fn ends_scan(&self, rule: Rule, slab: u32) -> bool
        requires { slab < length self.now.slabs }
        ensures { result ≡ (not rule.desperate && not (is_reclaimable self.now.chunks rule.numer (mode_of rule.desperate) (slab_at self.now.slabs slab))) }
    {
        !rule.desperate && !self.is_reclaimable(rule.numer, rule.desperate, slab)
    }

    // The least buffer of the slab that can be moved.
    fn least_to_move(&self, rule: Rule, slab: u32) -> Option<u32>
        requires first { rule.first ≡ first_partial self.now.slabs }
        requires slab { slab < length self.now.slabs }
        ensures least { result ≡ option_map (λ k. slab * self.now.chunks + k)
            (least_to_move self.now.chunks rule.numer (mode_of rule.desperate)
            (λ b. slice_index_or self.now.skip b false) self.now.slabs slab) }
        ensures out { IfSome result (λ b. (b < length self.now.cells) × (is_out_in self.now b ≡ true)) }
    {
        law_order();
        if !self.may_ask(rule, slab) {
            return None;
        }
        for place in 0..self.chunks() {
            if self.is_left(slab, place) {
                return Some(self.number(slab, place));
            }
        }
        None
    }

    // Whether the buffer is out, and isn't left out.
    fn is_left(&self, slab: u32, index: u32) -> bool
        requires slab { slab < length self.now.slabs }
        requires index { index < self.now.chunks }
        ensures { result ≡ (is_out_on (slab_at self.now.slabs slab) index
            && not (slice_index_or self.now.skip (slab * self.now.chunks + index) false)) }
    {
        let number = self.number(slab, index);
        self.is_out_at(slab, index) && !self.is_left_out(number)
    }

    fn may_ask(&self, rule: Rule, slab: u32) -> bool
        requires first { rule.first ≡ first_partial self.now.slabs }
        requires slab { slab < length self.now.slabs }
        ensures { result ≡ (is_reclaimable self.now.chunks rule.numer (mode_of rule.desperate) (slab_at self.now.slabs slab)
            && not (is_the (first_partial self.now.slabs) slab)) }
    {
        self.is_reclaimable(rule.numer, rule.desperate, slab) && !is_this(rule.first, slab)
    }

    fn is_reclaimable(&self, numer: u32, desperate: bool, slab: u32) -> bool
        requires { slab < length self.now.slabs }
        ensures { result ≡ is_reclaimable self.now.chunks numer (mode_of desperate) (slab_at self.now.slabs slab) }
    {
        if desperate {
            return self.is_partial(slab);
        }
        self.is_partial(slab) && !self.is_marked(slab) && self.is_sparse(numer, slab)
    }

    fn is_sparse(&self, numer: u32, slab: u32) -> bool
        requires { slab < length self.now.slabs }
        ensures { result ≡ (used (slab_at self.now.slabs slab) == 1
            || nat_lt (8 * used (slab_at self.now.slabs slab)) (self.now.chunks * numer)) }
    {
        let used = self.used(slab);
        used == 1 || 8 * u64::from(used) < u64::from(self.chunks()) * u64::from(numer)
    }
}

// Whether a number is there, and is this one.
fn is_this(number: Option<u32>, other: u32) -> bool
    ensures { result ≡ is_the number other }
{
    match number {
        Some(number) => number == other,
        None => false,
    }
}
