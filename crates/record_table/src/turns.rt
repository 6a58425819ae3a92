//! The turns of a record table, each of which makes at most one entry.
ghost use Rattle.std.specs.Prelude.{◌≡◌};
ghost use Rattle.record_table.specs.Turns.{entry_of, put_entry};

use crate::records::{Asked, Records};
use crate::shares::Share;
use hist_lock::Turn;
use kmem_buf::Buf;
use kmem_model::RecordEntry;
use kmem_text::{Command, NameId, Reply, Tag, Value};
use marks::Marks;
use record_heap::{Hold, Offer, PutEnd, RecordKind};

/// A command that needs no buffer and no hold, and gives none.
#[derive(Clone, Copy)]
pub struct PlainTurn {
    pub number: u32,
    pub command: Command,
}

impl Turn<Records> for PlainTurn {
    ghost use Rattle.std.specs.Prelude.{◌≡◌, Some};
    ghost use Rattle.record_table.specs.Turns.{IsPlainAsk, entry_of};

    type Out = Reply;

    ghost can = { λ turn who home history. IsPlainAsk home who turn.command };

    ghost tells = { λ turn who home before after history out entry. entry ≡ Some (entry_of turn.number turn.command out) };

    fn run(self, who: u32, object: &mut Records) -> (Reply, Option<RecordEntry>) {
        let PlainTurn { number, command } = self;
        let reply = object.plain(who, &command);
        let entry = entry_of(number, &command, &reply);
        (reply, Some(entry))
    }
}

/// A put, with what its cache has offered.
pub struct PutTurn<'a> {
    pub number: u32,
    pub marks: &'a Marks,
    pub name: NameId,
    pub value: Value,
    pub offer: Offer,
    pub share: Share,
}

impl<'a> Turn<Records> for PutTurn<'a> {
    ghost use Rattle.std.specs.Prelude.{◌≡◌};
    ghost use Rattle.record_table.specs.Shares.{counted_on};
    ghost use Rattle.record_table.specs.Turns.{IsPutAsk, IsPutTold, brought_by_put};

    type Out = (PutEnd, Share);

    ghost can = { λ turn who home history. IsPutAsk home turn.marks.now who turn.name turn.offer turn.share };

    ghost tells = { λ turn who home before after history out entry.
        IsPutTold before turn.number turn.name turn.value turn.offer out.0 entry ×
        (out.1 ≡ counted_on (brought_by_put turn.offer out.0) 0 turn.share) };

    fn run(self, who: u32, object: &mut Records) -> ((PutEnd, Share), Option<RecordEntry>) {
        let PutTurn {
            number,
            marks,
            name,
            value,
            offer,
            share,
        } = self;
        let ended = object.put(who, marks, name, value, offer, share);
        let entry = put_entry(number, name, value, &ended.0);
        (ended, entry)
    }
}

// The entry of a put that ends so.
fn put_entry(number: u32, name: NameId, value: Value, end: &PutEnd) -> Option<RecordEntry>
    ensures { result ≡ put_entry number name value end.now }
{
    match end {
        PutEnd::Replied(reply, _) => Some(RecordEntry {
            number,
            command: Command::Put(name, value),
            reply: *reply,
        }),
        PutEnd::Wanting => None,
    }
}

/// A deletion.
pub struct DelTurn<'a> {
    pub number: u32,
    pub marks: &'a Marks,
    pub name: NameId,
    pub share: Share,
}

impl<'a> Turn<Records> for DelTurn<'a> {
    ghost use Rattle.std.specs.Prelude.{◌≡◌, Some, IfSome};
    ghost use Rattle.kmem_text.specs.declared.command.Command.TheVariants.{Del};
    ghost use Rattle.record_heap.specs.View.{IsBlankBuffer};
    ghost use Rattle.record_table.specs.Shares.{counted_on};
    ghost use Rattle.record_table.specs.Turns.{IsDelAsk, entry_of, fetched_by_del};

    type Out = (Reply, Option<Buf<RecordKind>>, Share);

    ghost can = { λ turn who home history. IsDelAsk home turn.marks.now who turn.name turn.share };

    ghost tells = { λ turn who home before after history out entry.
        (entry ≡ Some (entry_of turn.number (Del turn.name) out.0)) × IfSome out.1 (IsBlankBuffer home.cache.cells) ×
        (out.2 ≡ counted_on 0 (fetched_by_del out.1) turn.share) };

    fn run(
        self,
        who: u32,
        object: &mut Records,
    ) -> ((Reply, Option<Buf<RecordKind>>, Share), Option<RecordEntry>) {
        let DelTurn {
            number,
            marks,
            name,
            share,
        } = self;
        let ended = object.del(who, marks, name, share);
        let entry = entry_of(number, &Command::Del(name), &ended.0);
        (ended, Some(entry))
    }
}

/// A question about a move. It makes no entry.
pub struct MoveTurn<'a> {
    pub marks: &'a Marks,
    pub from: u32,
    pub to: Buf<RecordKind>,
    pub share: Share,
}

impl<'a> Turn<Records> for MoveTurn<'a> {
    ghost use Rattle.std.specs.Prelude.{◌≡◌, None};
    ghost use Rattle.record_table.specs.Moves.{IsMoveAsk, IsAsked, share_asked};

    type Out = (Asked, Share);

    ghost can = { λ turn who home history. IsMoveAsk home turn.marks.now turn.from turn.to turn.share };

    ghost tells = { λ turn who home before after history out entry.
        (entry ≡ None) × IsAsked before turn.from turn.to out.0 × (out.1 ≡ share_asked out.0 turn.share) };

    fn run(self, _who: u32, object: &mut Records) -> ((Asked, Share), Option<RecordEntry>) {
        let MoveTurn {
            marks,
            from,
            to,
            share,
        } = self;
        (object.answer_move(marks, from, to, share), None)
    }
}

/// A tag takes the record of a name.
#[derive(Clone, Copy)]
pub struct HoldTurn {
    pub number: u32,
    pub tag: Tag,
    pub name: NameId,
}

impl Turn<Records> for HoldTurn {
    ghost use Rattle.record_table.specs.Holds.{IsHoldAsk, IsHeld};

    type Out = (Reply, Option<Hold>);

    ghost can = { λ turn who home history. IsHoldAsk home who turn.name };

    ghost tells = { λ turn who home before after history out entry. IsHeld home who turn.number turn.tag turn.name out entry };

    fn run(self, who: u32, object: &mut Records) -> ((Reply, Option<Hold>), Option<RecordEntry>) {
        let HoldTurn { number, tag, name } = self;
        let given = object.hold(who, tag, name);
        let entry = entry_of(number, &Command::Hold(tag, name), &given.0);
        (given, Some(entry))
    }
}

/// The value of what a tag holds.
pub struct ReadTurn {
    pub number: u32,
    pub hold: Hold,
}

impl Turn<Records> for ReadTurn {
    ghost use Rattle.std.specs.Prelude.{◌≡◌, Some};
    ghost use Rattle.kmem_text.specs.declared.command.Command.TheVariants.{Read};
    ghost use Rattle.record_table.specs.Turns.{entry_of};
    ghost use Rattle.record_table.specs.Holds.{IsTagAsk, IsHoldThere};

    type Out = (Reply, Hold);

    ghost can = { λ turn who home history. IsTagAsk home who turn.hold };

    ghost tells = { λ turn who home before after history out entry.
        (out.1 ≡ turn.hold) × (entry ≡ Some (entry_of turn.number (Read turn.hold.tag) out.0)) × IsHoldThere before turn.hold };

    fn run(self, who: u32, object: &mut Records) -> ((Reply, Hold), Option<RecordEntry>) {
        let ReadTurn { number, mut hold } = self;
        let reply = object.read(who, &mut hold);
        let entry = entry_of(number, &Command::Read(hold.tag()), &reply);
        ((reply, hold), Some(entry))
    }
}

/// What a tag holds gets a value.
pub struct WriteTurn {
    pub number: u32,
    pub hold: Hold,
    pub value: Value,
}

impl Turn<Records> for WriteTurn {
    ghost use Rattle.std.specs.Prelude.{◌≡◌, Some};
    ghost use Rattle.kmem_text.specs.declared.command.Command.TheVariants.{Write};
    ghost use Rattle.record_table.specs.Turns.{entry_of};
    ghost use Rattle.record_table.specs.Holds.{IsTagAsk, IsHoldThere};

    type Out = (Reply, Hold);

    ghost can = { λ turn who home history. IsTagAsk home who turn.hold };

    ghost tells = { λ turn who home before after history out entry.
        (out.1 ≡ turn.hold) × (entry ≡ Some (entry_of turn.number (Write turn.hold.tag turn.value) out.0)) × IsHoldThere before turn.hold };

    fn run(self, who: u32, object: &mut Records) -> ((Reply, Hold), Option<RecordEntry>) {
        let WriteTurn {
            number,
            mut hold,
            value,
        } = self;
        let reply = object.write(who, &mut hold, value);
        let entry = entry_of(number, &Command::Write(hold.tag(), value), &reply);
        ((reply, hold), Some(entry))
    }
}

/// A tag lets go of its record.
pub struct DropTurn {
    pub number: u32,
    pub hold: Hold,
}

impl Turn<Records> for DropTurn {
    ghost use Rattle.std.specs.Prelude.{◌≡◌, Some};
    ghost use Rattle.kmem_text.specs.declared.command.Command.TheVariants.{Drop};
    ghost use Rattle.kmem_text.specs.declared.command.Reply.TheVariants.{Done};
    ghost use Rattle.record_table.specs.Turns.{entry_of};
    ghost use Rattle.record_table.specs.Holds.{IsTagAsk, IsHoldThere};

    type Out = Reply;

    ghost can = { λ turn who home history. IsTagAsk home who turn.hold };

    ghost tells = { λ turn who home before after history out entry.
        (entry ≡ Some (entry_of turn.number (Drop turn.hold.tag) out)) × (out ≡ Done) × IsHoldThere before turn.hold };

    fn run(self, who: u32, object: &mut Records) -> (Reply, Option<RecordEntry>) {
        let DropTurn { number, hold } = self;
        let tag = hold.tag();
        let reply = object.release(who, hold);
        let entry = entry_of(number, &Command::Drop(tag), &reply);
        (reply, Some(entry))
    }
}

/// A command on a tag that isn't in use.
#[derive(Clone, Copy)]
pub struct IdleTurn {
    pub number: u32,
    pub command: Command,
}

impl Turn<Records> for IdleTurn {
    ghost use Rattle.std.specs.Prelude.{◌≡◌, Some};
    ghost use Rattle.record_table.specs.Turns.{entry_of};
    ghost use Rattle.kmem_text.specs.declared.command.Reply.TheVariants.{Idle};
    ghost use Rattle.record_table.specs.Holds.{IsIdleAsk};

    type Out = Reply;

    ghost can = { λ turn who home history. IsIdleAsk home who turn.command history };

    ghost tells = { λ turn who home before after history out entry.
        (entry ≡ Some (entry_of turn.number turn.command out)) × (out ≡ Idle) };

    fn run(self, who: u32, object: &mut Records) -> (Reply, Option<RecordEntry>) {
        let IdleTurn { number, command } = self;
        let reply = object.idle(who, &command);
        let entry = entry_of(number, &command, &reply);
        (reply, Some(entry))
    }
}

fn entry_of(number: u32, command: &Command, reply: &Reply) -> RecordEntry
    ensures { result ≡ entry_of number command.now reply.now }
{
    RecordEntry {
        number,
        command: *command,
        reply: *reply,
    }
}
