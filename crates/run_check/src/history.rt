//! The history part of a printed run, replayed line by line.

ghost use Rattle.std.specs.Prelude.{◌≡◌, ◌≢◌, ◌+◌, ◌*◌, ◌<◌, ◌≤◌, ◌^◌, ◌∷◌, ℕ, List, true, false, length, map, drop, slice_index_or, All, IfSome, IfNone, OnOk, IfErr};
ghost use Rattle.kmem_model.specs.declared.record_entry.RecordEntry.{RecordEntry};
ghost use Rattle.kmem_model.specs.RunLines.{place_line};
ghost use Rattle.kmem_model.specs.Checked.{answered};
ghost use Rattle.run_check.specs.Cursor.{lines_in};
ghost use Rattle.run_check.specs.Faults.{IfIllegal};
ghost use Rattle.run_check.specs.Kept.{kept_map, IsKept};
ghost use Rattle.run_check.specs.Told.{entry_of};
ghost use Rattle.run_check.specs.Shares.{left_of, left_in, IsShareWithin};
ghost use Rattle.kmem_model.specs.Records.{no_records};
ghost use Rattle.run_check.specs.Replayed.{HasReplayed, StopsReplay};
ghost use Rattle.run_check.specs.Turns.{TakesPlace, RefusesPlace};

use crate::fault::Fault;
use crate::lines::Lines;
use crate::places::is_place;
use crate::plain_map::PlainMap;
use crate::share::Share;
use crate::told::Told;
use kmem_model::{law_history, law_step};

/// Takes the next line of the history part, which has to be the place of an entry that comes next and is right.
pub fn take_place(
    map: &mut PlainMap,
    shares: &mut Vec<Share>,
    lines: &mut Lines<'_>,
) -> Result<(), Fault>
    requires kept { IsKept map.old }
    requires few { (length map.old.names.items < 2 ^ 31) × (length map.old.values.items < 2 ^ 31) }
    requires workers { (length shares.old.items ≤ 16) × (length map.old.tags.items ≡ 8 * length shares.old.items) }
    requires within { All (IsShareWithin (length map.old.names.items)) shares.old.items }
    ensures kept { OnOk result (IsKept map.new) }
    ensures within { OnOk result (All (IsShareWithin (length map.old.names.items)) shares.new.items) }
    ensures taken { OnOk result (lines.new.taken ≡ lines.old.taken + 1) }
    ensures shares { OnOk result (length shares.new.items ≡ length shares.old.items) }
    ensures takes { OnOk result (TakesPlace (kept_map map.old) shares.old.items (lines_in lines.old.rest.now)
        (kept_map map.new) shares.new.items (lines_in lines.new.rest.now)) }
    ensures refused { IfErr result (λ fault. IfIllegal fault (λ line. (line ≡ lines.old.taken + 1)
        × RefusesPlace (kept_map map.old) (left_in shares.old.items) (lines_in lines.old.rest.now))) }
{
    let number = lines.number();
    let Some(line) = lines.next() else {
        return Err(Fault::Illegal { line: number });
    };
    let Some(pass) = find_share(shares, line) else {
        return Err(Fault::Illegal { line: number });
    };
    let told = next_told(&shares[pass]);
    if !map.takes(pass as u32 + 1, &told)? {
        return Err(Fault::Illegal { line: number });
    }
    shares[pass].next += 1;
    Ok(())
}

/// The share's next entry.
fn next_told(share: &Share) -> Told
    requires { share.now.next < length share.now.told.items }
    ensures left { left_of share.now ≡ entry_of result ∷ map entry_of (drop (share.now.next + 1) share.now.told.items) }
    ensures at { result ≡ slice_index_or share.now.told.items share.now.next result }
{
    share.told[share.next]
}

/// The pass whose next entry has this place.
fn find_share(shares: &[Share], line: &[u8]) -> Option<usize>
    requires { length shares.now ≤ 16 }
    ensures within { IfSome result (λ pass. pass < length shares.now) }
    ensures some { IfSome result (λ pass. (e : RecordEntry) × (rest : List RecordEntry) × (left_in shares.now pass ≡ e ∷ rest)
        × (line.now ≡ place_line (answered (pass, e)))) }
    ensures none { IfNone result ((pass : ℕ) (e : RecordEntry) (rest : List RecordEntry) → left_in shares.now pass ≡ e ∷ rest →
        line.now ≢ place_line (answered (pass, e))) }
{
    for pass in 0..shares.len() {
        if is_next(&shares[pass], pass as u32, line) {
            return Some(pass);
        }
    }
    None
}

/// The share's next entry has this place.
fn is_next(share: &Share, pass: u32, line: &[u8]) -> bool
    requires { pass < 16 }
    ensures yes { result ≡ true → (e : RecordEntry) × (rest : List RecordEntry) × (left_of share.now ≡ e ∷ rest)
        × (line.now ≡ place_line (answered (pass, e))) }
    ensures no { result ≡ false → (e : RecordEntry) (rest : List RecordEntry) → left_of share.now ≡ e ∷ rest →
        line.now ≢ place_line (answered (pass, e)) }
{
    if share.next >= share.told.len() {
        return false;
    }
    is_place(line, pass + 1, share.told[share.next].number)
}

/// Replays so many lines of the history part.
pub fn replay(
    map: &mut PlainMap,
    shares: &mut Vec<Share>,
    lines: &mut Lines<'_>,
    count: usize,
) -> Result<(), Fault>
    requires kept { IsKept map.old }
    requires start { kept_map map.old ≡ no_records (length map.old.names.items) (length shares.old.items) }
    requires names { length map.old.names.items < 2 ^ 31 }
    requires count { count ≤ 100000 }
    requires workers { length shares.old.items ≤ 16 }
    requires within { All (IsShareWithin (length map.old.names.items)) shares.old.items }
    ensures taken { OnOk result (lines.new.taken ≡ lines.old.taken + count) }
    ensures replayed { OnOk result ((h : List (ℕ × RecordEntry)) × (left : ℕ → List RecordEntry) × (length h ≡ count)
        × HasReplayed (length map.old.names.items) (length shares.old.items) h (left_in shares.old.items) (lines_in lines.old.rest.now)
        left (lines_in lines.new.rest.now)) }
    ensures stops { IfErr result (λ fault. IfIllegal fault (λ line. (taken : ℕ) × (taken < count) × (line ≡ lines.old.taken + taken + 1)
        × StopsReplay (length map.old.names.items) (length shares.old.items) (left_in shares.old.items) (lines_in lines.old.rest.now) taken)) }
{
    law_step();
    law_history();
    for _ in 0..count {
        take_place(map, shares, lines)?;
    }
    Ok(())
}
