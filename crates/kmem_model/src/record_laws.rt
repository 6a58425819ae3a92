//! Laws of the definitions. Each is the contract of a function with an empty body.

ghost use Rattle.std.specs.Prelude.{◌≡◌, ◌≢◌, ◌↔◌, ◌+◌, ◌<◌, All, ◌*◌, ◌==◌, ◌&&◌, ◌||◌, ◌++◌, ◌∷◌, not, Bool, true, false, ℕ, List, [], Option, Some, None, is_some, slice_set, replicate, length};
ghost use Rattle.kmem_text.specs.declared.command.Command.{Command};
ghost use Rattle.kmem_text.specs.declared.command.Command.TheVariants.{Put, Del, Hold, Drop};
ghost use Rattle.kmem_text.specs.declared.command.Line.{Line};
ghost use Rattle.kmem_text.specs.declared.command.NameId.{NameId};
ghost use Rattle.kmem_text.specs.declared.command.Reply.TheVariants.{New, Full, Done, Idle};
ghost use Rattle.kmem_text.specs.declared.command.Tag.{Tag};
ghost use Rattle.kmem_text.specs.Replies.{IsReplyWithinNames};
ghost use Rattle.kmem_model.specs.CacheState.{CacheState, is_out};
ghost use Rattle.kmem_model.specs.CacheEnter.{is_full, enter};
ghost use Rattle.kmem_model.specs.declared.cache_entry.CacheEntry.TheVariants.{Alloc, Free};
ghost use Rattle.kmem_model.specs.SettleWhole.{IsWhole};
ghost use Rattle.kmem_model.specs.Records.{RecordMap, IsValid, tag_place, id_of, held_at, is_live, live_count, no_records};
ghost use Rattle.kmem_model.specs.RecordStep.{put_step, del_step, link_step, hold_step, write_step, drop_step, fix_step, step, only_looks, leaves_tags, IsInRange, IsValidAs};
ghost use Rattle.kmem_model.specs.Heap.{least_left_in, HeapState, StandsFor, object_at, hold_at, address_of, address_in, places_of};
ghost use Rattle.kmem_model.specs.History.{is_full_due, IsLegalHistory, IsShared, IsFullExactly, replies_of};
ghost use Rattle.kmem_model.specs.One.{OneState, one_start, one_workers, buffers_of, least_leftover, one_step};
ghost use Rattle.kmem_model.specs.OneRun.{OneRun, run_start, line_run, replies, history_of};
ghost use Rattle.kmem_model.specs.OneStands.{OneStands, OneEnds, IsOnTag, leaves_objects};

/// What `one` replies is a legal history that is shared by the workers of the lines, for all slabs and buffers, any number of names, all
/// settles and all lines of workers that count from 1.
pub fn law_one()
    ensures legal { (slabs chunks names : ℕ) (every : Option ℕ) (lines : List Line) → All (λ line. 0 < line.worker) lines →
        IsLegalHistory (no_records names one_workers) (history_of every 1 (run_start slabs chunks names) [] lines) }
    ensures shared { (slabs chunks names : ℕ) (every : Option ℕ) (lines : List Line) → All (λ line. 0 < line.worker) lines →
        IsShared (history_of every 1 (run_start slabs chunks names) [] lines) lines }
    ensures replies { (every : Option ℕ) (start : OneRun) (lines : List Line) →
        replies_of (history_of every 1 start [] lines) ≡ replies every 1 start lines }
    // how "`full` exactly where there is no room" goes on by a line before others
    ensures full { (capacity number : ℕ) (every : Option ℕ) (run : OneRun) (before : List Line) (line : Line) (lines : List Line) →
        0 < line.worker →
        ((one_step run.state line.worker line.command).reply ≡ Full) ↔ (is_full_due capacity run.state.map line.command ≡ true) →
        IsFullExactly capacity (line_run every number run line).state.map
        (history_of every (number + 1) (line_run every number run line) (before ++ line ∷ []) lines) →
        IsFullExactly capacity run.state.map (history_of every number run before (line ∷ lines)) }
    ensures buffers { (every : Option ℕ) (number : ℕ) (run : OneRun) (line : Line) →
        buffers_of (line_run every number run line).state.cache ≡ buffers_of run.state.cache }
{}

/// Every map that commands make is valid: what names and tags lead to lives, and what lives has a name or a tag. And which tags a command
/// leaves in use.
pub fn law_step()
    ensures start { (names workers : ℕ) → IsValid (no_records names workers) }
    ensures valid { (map : RecordMap) (worker : ℕ) (command : Command) →
        IsValid map → IsInRange map worker command → IsValidAs map (step map worker command).map }
    // the same, step by step
    ensures put { (map : RecordMap) (name : ℕ) (value : List ℕ) → IsValid map → name < length map.names →
        IsValid (put_step map name value (id_of map name)).map }
    ensures del { (map : RecordMap) (name : ℕ) → IsValid map → IsValid (del_step map name (id_of map name)).map }
    ensures link { (map : RecordMap) (name other : ℕ) → IsValid map → other < length map.names →
        IsValid (link_step map other (id_of map name)).map }
    ensures hold { (map : RecordMap) (place name : ℕ) → IsValid map → place < length map.tags →
        IsValid (hold_step map place (held_at map place) (id_of map name)).map }
    ensures write { (map : RecordMap) (value : List ℕ) (held : Option ℕ) → IsValid map → IsValid (write_step map value held).map }
    ensures drop { (map : RecordMap) (place : ℕ) → IsValid map → IsValid (drop_step map place (held_at map place)).map }
    ensures fix { (map : RecordMap) (fixed : Bool) (id : Option ℕ) → IsValid map → IsValid (fix_step map fixed id).map }
    ensures tags { (map : RecordMap) (worker : ℕ) (command : Command) →
        leaves_tags command ≡ true → (step map worker command).map.tags ≡ map.tags }
    ensures held { (map : RecordMap) (worker : ℕ) (tag : Tag) (name : NameId) → (step map worker (Hold tag name)).reply ≡ Done →
        (id : ℕ) × ((step map worker (Hold tag name)).map.tags ≡ slice_set map.tags (tag_place worker tag) (Some id)) }
    ensures not_held { (map : RecordMap) (worker : ℕ) (tag : Tag) (name : NameId) → (step map worker (Hold tag name)).reply ≢ Done →
        (step map worker (Hold tag name)).map.tags ≡ map.tags }
    ensures dropped { (map : RecordMap) (worker : ℕ) (tag : Tag) → is_some (held_at map (tag_place worker tag)) ≡ true →
        (step map worker (Drop tag)).map.tags ≡ slice_set map.tags (tag_place worker tag) None }
{}

/// Which buffers are out after one is allocated or freed.
pub fn law_out()
    ensures alloc { (s t : CacheState) (n b : ℕ) → IsWhole s → n < buffers_of s → enter s (Alloc n) ≡ Some t →
        is_out t b ≡ (b == n || is_out s b) }
    ensures free { (s t : CacheState) (n b : ℕ) → IsWhole s → enter s (Free n) ≡ Some t →
        is_out t b ≡ (not (b == n) && is_out s b) }
{}

/// When there is room for a further record, where a heap stands for what `one` keeps: exactly where fewer records live than there are
/// buffers.
pub fn law_room()
    // the least leftover is the heap's
    ensures leftover { (s : OneState) (h : HeapState) → OneStands s h → least_left_in h ≡ least_leftover s }
    ensures empty { (s : OneState) (h : HeapState) (b : ℕ) → OneStands s h → b < buffers_of s.cache → object_at h b ≡ None →
        live_count s.map < buffers_of s.cache }
    ensures room { (s : OneState) (h : HeapState) (b : ℕ) → OneStands s h → least_leftover s ≡ Some b →
        live_count s.map < buffers_of s.cache }
    ensures no_room { (s : OneState) (h : HeapState) → OneStands s h → is_full s.cache ≡ true → least_leftover s ≡ None →
        live_count s.map ≡ buffers_of s.cache }
{}

/// What a heap and a cache do at a command is the step of `one`: with these changes the heap stands for what `one` keeps after it.
pub fn law_one_step()
    ensures start { (slabs chunks names : ℕ) (h : HeapState) → 0 < chunks →
        h.objects ≡ replicate (slabs * chunks) None → StandsFor (no_records names one_workers) [] h →
        OneStands (one_start slabs chunks names) h }
    ensures within { (s : OneState) (worker : ℕ) (command : Command) →
        IsReplyWithinNames (length s.map.names) (one_step s worker command).reply }
    ensures maps { (s : OneState) (worker : ℕ) (command : Command) → leaves_objects command ≡ true →
        (one_step s worker command).state.map ≡ (step s.map worker command).map }
    ensures tags { (s : OneState) (worker : ℕ) (command : Command) → leaves_tags command ≡ true →
        (one_step s worker command).state.map.tags ≡ s.map.tags }
    // `full` is replied exactly where the name of a put is absent and as many records live as there are buffers
    ensures full { (s : OneState) (h : HeapState) (worker : ℕ) (command : Command) → OneStands s h →
        ((one_step s worker command).reply ≡ Full) ↔ (is_full_due (buffers_of s.cache) s.map command ≡ true) }
    // a command that only looks, one on a tag that isn't in use, and one that leaves the objects where they are
    ensures looking { (s : OneState) (h : HeapState) (worker : ℕ) (command : Command) →
        OneStands s h → only_looks command ≡ true →
        OneEnds (one_step s worker command) (step s.map worker command).reply s.cache h }
    ensures idle { (s : OneState) (h : HeapState) (worker : ℕ) (command : Command) (tag : Tag) →
        OneStands s h → hold_at h (tag_place worker tag) ≡ None → IsOnTag command tag →
        OneEnds (one_step s worker command) Idle s.cache h }
    ensures leaving { (s : OneState) (h new : HeapState) (worker : ℕ) (command : Command) →
        OneStands s h → leaves_objects command ≡ true →
        StandsFor (step s.map worker command).map s.addresses new → places_of new.objects ≡ places_of h.objects →
        OneEnds (one_step s worker command) (step s.map worker command).reply s.cache new }
    ensures replaced { (s : OneState) (h new : HeapState) (worker : ℕ) (name : NameId) (value : List ℕ) →
        OneStands s h → is_some (address_of h name.0) ≡ true →
        StandsFor (step s.map worker (Put name value)).map s.addresses new → places_of new.objects ≡ places_of h.objects →
        OneEnds (one_step s worker (Put name value)) (step s.map worker (Put name value)).reply s.cache new }
    // a new record in a fresh buffer, in a leftover, and nowhere
    ensures made { (s : OneState) (h new : HeapState) (t : CacheState) (worker : ℕ) (name : NameId) (value : List ℕ) (b : ℕ) →
        OneStands s h → address_of h name.0 ≡ None →
        is_full s.cache ≡ false → enter s.cache (Alloc b) ≡ Some t → b < buffers_of s.cache → object_at h b ≡ None →
        StandsFor (step s.map worker (Put name value)).map (s.addresses ++ b ∷ []) new →
        places_of new.objects ≡ slice_set (places_of h.objects) b true →
        OneEnds (one_step s worker (Put name value)) New t new }
    ensures reused { (s : OneState) (h new : HeapState) (worker : ℕ) (name : NameId) (value : List ℕ) (b : ℕ) →
        OneStands s h → address_of h name.0 ≡ None →
        is_full s.cache ≡ true → least_left_in h ≡ Some b →
        StandsFor (step s.map worker (Put name value)).map (s.addresses ++ b ∷ []) new → places_of new.objects ≡ places_of h.objects →
        OneEnds (one_step s worker (Put name value)) New s.cache new }
    ensures refused { (s : OneState) (h : HeapState) (worker : ℕ) (name : NameId) (value : List ℕ) →
        OneStands s h → address_of h name.0 ≡ None → is_full s.cache ≡ true → least_left_in h ≡ None →
        OneEnds (one_step s worker (Put name value)) Full s.cache h }
    // a del whose record lives on, or that finds none, and one whose record ends
    ensures kept { (s : OneState) (h new : HeapState) (worker : ℕ) (name : NameId) →
        OneStands s h →
        ((id : ℕ) → id_of s.map name.0 ≡ Some id → is_live (step s.map worker (Del name)).map id ≡ true) →
        StandsFor (step s.map worker (Del name)).map s.addresses new → places_of new.objects ≡ places_of h.objects →
        OneEnds (one_step s worker (Del name)) (step s.map worker (Del name)).reply s.cache new }
    ensures ended { (s : OneState) (h new : HeapState) (t : CacheState) (worker : ℕ) (name : NameId) (b : ℕ) →
        OneStands s h → address_of h name.0 ≡ Some b →
        ((id : ℕ) → id_of s.map name.0 ≡ Some id → (is_live (step s.map worker (Del name)).map id ≡ false) ×
        (address_in s.addresses id ≡ b)) →
        enter s.cache (Free b) ≡ Some t →
        StandsFor (step s.map worker (Del name)).map s.addresses new → places_of new.objects ≡ slice_set (places_of h.objects) b false →
        OneEnds (one_step s worker (Del name)) (step s.map worker (Del name)).reply t new }
{}

#[cfg(test)]
mod tests {
    use super::{law_one, law_one_step, law_out, law_room, law_step};

    #[test]
    fn laws_can_be_called() {
        law_one();
        law_one_step();
        law_step();
        law_out();
        law_room();
    }
}
