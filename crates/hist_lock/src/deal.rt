//! How a lock's table is laid out, and how its passes are dealt.
ghost use Rattle.std.specs.Prelude.{◌≡◌, ℕ, ◌+◌, ◌^◌, ◌<◌, ◌≤◌, List, [], ◌∷◌, ◌++◌, length, sum, vec_capacity, IfOk};
ghost use Rattle.hist_lock.specs.Passes.{fresh, fresh_passes};
ghost use Rattle.hist_lock.specs.Rule.{bounds_of, dealer};
ghost use Rattle.hist_lock.specs.Seats.{IsSeatOf, IsSameSeat, IsDealer, site_of};

use crate::pass::Pass;
use crate::rule::{Held, Line, Place, Quota, Terms, Whole};
use crate::steps::{AWAITED, NO_COUNT, WORDS, split};
use crate::told::Told;
use atomic_table::Table;
use std::alloc::{AllocError, Global};
use std::marker::Brand;

/// Lays out the table, with room for all entries, and gives the seat that deals.
pub fn lay<O: Told + Drop>(
    alloc: Global,
    object: O,
    terms: &Terms<O>,
) -> Result<(Whole<O>, Place<O>), AllocError>
    requires stands { O.stands object [] }
    requires home { O.home object ≡ O.home terms.now.origin.value }
    requires small { (terms.now.room < 2 ^ 32) × (terms.now.count < 2 ^ 32) }
    ensures table { IfOk result (λ r. (r.0.shared.table_id.words ≡ 21) × (r.0.shared.table_id.slots ≡ 1) × (r.0.shared.key ≡ terms.now)) }
    ensures seat { IfOk result (λ r. (r.1.table_id ≡ r.0.shared.table_id) × (r.1.me ≡ (dealer (bounds_of O.home terms.now), []))) }
{
    let journal = Vec::with_capacity(alloc, terms.room as usize)?;
    let mut slots = Vec::with_capacity(alloc, 1)?;
    slots.push_reserved(Held { object, journal });
    let mut words = [0; WORDS];
    words[AWAITED] = NO_COUNT;
    match Table::new(alloc, &words, slots, terms) {
        Ok(made) => Ok(made),
        Err(_) => Err(AllocError),
    }
}

// Deals the next pass.
fn deal_one<O: Told, Q: Quota>(
    line: &Line<O>,
    dealer: &mut Place<O>,
    terms: &Terms<O>,
    number: u32,
    quota: u32,
) -> Pass<O>
    requires of { IsSeatOf dealer.old.table_id line.now.table_id }
    requires quota { quota ≡ Q.quota }
    requires deals { IsDealer (bounds_of O.home terms.now) number dealer.old.me.0.left dealer.old.me }
    requires fits { (number < terms.now.count) × (quota ≤ dealer.old.me.0.left) }
    ensures same { IsSameSeat dealer.old dealer.new }
    ensures dealer { IsDealer (bounds_of O.home terms.now) (number + 1) dealer.new.me.0.left dealer.new.me }
    ensures left { dealer.new.me.0.left + quota ≡ dealer.old.me.0.left }
    ensures pass { result ≡ fresh (site_of line.now.table_id (bounds_of O.home terms.now)) number quota }
{
    let seat = split::<O, Q>(line, dealer);
    Pass {
        seat,
        number,
        left: quota,
    }
}

/// Deals one pass for each quota, in order.
pub fn deal_all<O: Told>(
    line: &Line<O>,
    mut seat: Place<O>,
    terms: &Terms<O>,
    quotas: &[u32],
    mut passes: Vec<Pass<O>>,
) -> Vec<Pass<O>>
    requires of { IsSeatOf seat.table_id line.now.table_id }
    requires deals { IsDealer (bounds_of O.home terms.now) 0 (sum quotas.now) seat.me }
    requires count { (length quotas.now ≡ terms.now.count) × (length quotas.now < 2 ^ 32) }
    requires none { passes.items ≡ [] }
    requires room { length quotas.now ≤ vec_capacity passes }
    ensures { result.items ≡ fresh_passes (site_of line.now.table_id (bounds_of O.home terms.now)) 0 quotas.now }
{
    for i in 0..quotas.len() {
        let pass = deal_one::<O, Brand>(line, &mut seat, terms, i as u32, quotas[i]);
        passes.push_reserved(pass);
    }
    passes
}
