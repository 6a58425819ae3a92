//! The turns of a worker's pass: each of these calls is one.
ghost use Rattle.std.specs.Prelude.{◌≡◌, ◌≤◌, ◌<◌, ◌↔◌, ℕ, true, false, Some, IsSome, IfSome};
ghost use Rattle.kmem_text.specs.Grammar.{IsWithinNames};
ghost use Rattle.kmem_text.specs.declared.command.Command.TheVariants as command;
ghost use Rattle.kmem_model.specs.History.{in_use};
ghost use Rattle.record_heap.specs.View.{IsBlankBuffer};
ghost use Rattle.record_heap.specs.Puts.{IsReadyOffer};
ghost use Rattle.record_table.specs.Shares.{counted_on};
ghost use Rattle.record_table.specs.Turns.{is_plain, IsShareAsk, brought_by_put, fetched_by_del};
ghost use Rattle.record_table.specs.Holds.{IsHeldBy, tag_in};
ghost use Rattle.record_table.specs.Sessions.{CanAdd, HasAdded, HasPut, WasMet};

use crate::records::Records;
use crate::shares::Share;
use crate::table::RecordTable;
use crate::turns::{
    DelTurn, DropTurn, HoldTurn, IdleTurn, PlainTurn, PutTurn, ReadTurn, WriteTurn,
};
use hist_lock::Pass;
use kmem_buf::Buf;
use kmem_text::{Command, NameId, Reply, Tag, Value};
use record_heap::{Hold, Offer, PutEnd, RecordKind};
use std::sync::Wait;

// Carries out a command that needs no buffer and no hold, and gives none.
pub fn run_plain<R: Wait>(
    rt: &R,
    table: &RecordTable,
    pass: &mut Pass<Records>,
    number: u32,
    command: &Command,
) -> Reply
    requires can { CanAdd table.now pass.old }
    requires plain { is_plain command.now ≡ true }
    requires names { IsWithinNames table.now.home.names command.now }
    ensures added { HasAdded pass.old pass.new number command.now result }
{
    table.lock.act(
        rt,
        pass,
        PlainTurn {
            number,
            command: *command,
        },
    )
}

// A deletion, with the buffer of a record that ended.
pub fn run_del<R: Wait>(
    rt: &R,
    table: &RecordTable,
    pass: &mut Pass<Records>,
    number: u32,
    name: NameId,
    share: Share,
) -> (Reply, Option<Buf<RecordKind>>, Share)
    requires can { CanAdd table.now pass.old }
    requires name { name.0 < table.now.home.names }
    requires counts { IsShareAsk table.now.home share }
    ensures added { HasAdded pass.old pass.new number (command.Del name) result.0 }
    ensures out { IfSome result.1 (IsBlankBuffer table.now.home.cache.cells) }
    ensures share { result.2 ≡ counted_on 0 (fetched_by_del result.1) share }
{
    table.lock.act(
        rt,
        pass,
        DelTurn {
            number,
            marks: &table.marks,
            name,
            share,
        },
    )
}

// A hold, which is given exactly with `ok`.
pub fn run_hold<R: Wait>(
    rt: &R,
    table: &RecordTable,
    pass: &mut Pass<Records>,
    number: u32,
    tag: Tag,
    name: NameId,
) -> (Reply, Option<Hold>)
    requires can { CanAdd table.now pass.old }
    requires name { name.0 < table.now.home.names }
    ensures added { HasAdded pass.old pass.new number (command.Hold tag name) result.0 }
    ensures done { (result.0 ≡ Reply.Done) ↔ IsSome result.1 }
    ensures given { IfSome result.1 (IsHeldBy table.now.home pass.old.number tag) }
{
    table.lock.act(rt, pass, HoldTurn { number, tag, name })
}

// The value of what a tag holds.
pub fn run_read<R: Wait>(
    rt: &R,
    table: &RecordTable,
    pass: &mut Pass<Records>,
    number: u32,
    hold: Hold,
) -> (Reply, Hold)
    requires can { CanAdd table.now pass.old }
    requires held { IsHeldBy table.now.home pass.old.number hold.tag hold }
    ensures added { HasAdded pass.old pass.new number (command.Read hold.tag) result.0 }
    ensures met { WasMet pass.old.site.home pass.new hold }
    ensures hold { result.1 ≡ hold }
{
    table.lock.act(rt, pass, ReadTurn { number, hold })
}

// What a tag holds gets a value.
pub fn run_write<R: Wait>(
    rt: &R,
    table: &RecordTable,
    pass: &mut Pass<Records>,
    number: u32,
    hold: Hold,
    value: Value,
) -> (Reply, Hold)
    requires can { CanAdd table.now pass.old }
    requires held { IsHeldBy table.now.home pass.old.number hold.tag hold }
    ensures added { HasAdded pass.old pass.new number (command.Write hold.tag value) result.0 }
    ensures met { WasMet pass.old.site.home pass.new hold }
    ensures hold { result.1 ≡ hold }
{
    table.lock.act(
        rt,
        pass,
        WriteTurn {
            number,
            hold,
            value,
        },
    )
}

// A tag lets go of its record.
pub fn run_drop<R: Wait>(
    rt: &R,
    table: &RecordTable,
    pass: &mut Pass<Records>,
    number: u32,
    hold: Hold,
) -> Reply
    requires can { CanAdd table.now pass.old }
    requires held { IsHeldBy table.now.home pass.old.number hold.tag hold }
    ensures added { HasAdded pass.old pass.new number (command.Drop hold.tag) result }
    ensures met { WasMet pass.old.site.home pass.new hold }
    ensures done { result ≡ Reply.Done }
{
    table.lock.act(rt, pass, DropTurn { number, hold })
}

// A command on a tag that the worker's own entries leave free.
pub fn run_idle<R: Wait>(
    rt: &R,
    table: &RecordTable,
    pass: &mut Pass<Records>,
    number: u32,
    command: &Command,
) -> Reply
    requires can { CanAdd table.now pass.old }
    requires free { (tag : ℕ) × (tag_in command.now ≡ Some tag) × (tag < 8) × (in_use tag false pass.old.mine ≡ false) }
    ensures added { HasAdded pass.old pass.new number command.now result }
    ensures idle { result ≡ Reply.Idle }
{
    table.lock.act(
        rt,
        pass,
        IdleTurn {
            number,
            command: *command,
        },
    )
}

// A put, with what its cache has offered.
pub fn run_put<R: Wait>(
    rt: &R,
    table: &RecordTable,
    pass: &mut Pass<Records>,
    number: u32,
    name: NameId,
    value: Value,
    offer: Offer,
    share: Share,
) -> (PutEnd, Share)
    requires can { CanAdd table.now pass.old }
    requires name { name.0 < table.now.home.names }
    requires offer { IsReadyOffer table.now.home.cache.cells offer }
    requires counts { IsShareAsk table.now.home share }
    ensures put { HasPut pass.old pass.new number name value offer result.0 }
    ensures share { result.1 ≡ counted_on (brought_by_put offer result.0) 0 share }
{
    table.lock.act(
        rt,
        pass,
        PutTurn {
            number,
            marks: &table.marks,
            name,
            value,
            offer,
            share,
        },
    )
}
