//! A heap over a row of cells, with a pool of their buffers.
ghost use Rattle.std.specs.Prelude.{◌≡◌, ◌<◌, All, length, IfSome, IfOk};
ghost use Rattle.kmem_buf.specs.Homes.{IsBufferOf, cell_homes};
ghost use Rattle.kmem_buf.specs.Answers.{buffers_back};
ghost use Rattle.kmem_model.specs.Heap.{blank};
ghost use Rattle.record_heap.specs.View.{IsBlankBuffer};
ghost use Rattle.record_heap.specs.Puts.{IsReadyOffer};

mod commands;
mod moves;

use crate::{Hold, Offer, PutEnd, RecordCell, RecordHeap, RecordKind};
use kmem_buf::{Answer, Buf, Cell, Cells, FullNote, Home, Verdict};
use kmem_text::{NameId, Reply, Tag, Value};
use std::alloc::{AllocError, Global};
use std::marker::Model;
use std::mem::replace;

// A reply, with the first byte of a value in its place.
#[derive(Clone, Copy, PartialEq, Eq, Debug)]
enum Shown {
    New,
    Was(u8),
    Full,
    Gone(u8),
    Val(u8),
    Absent,
    At(u32, u8),
    Number(u32),
    Done,
    Taken,
    Many,
    Used,
    Idle,
}

fn first_byte(value: Value) -> u8 {
    match value.as_bytes().first() {
        Some(byte) => *byte,
        None => 0,
    }
}

fn show(reply: Reply) -> Shown {
    match reply {
        Reply::New => Shown::New,
        Reply::Was(value) => Shown::Was(first_byte(value)),
        Reply::Full => Shown::Full,
        Reply::Gone(value) => Shown::Gone(first_byte(value)),
        Reply::Val(value) => Shown::Val(first_byte(value)),
        Reply::Absent => Shown::Absent,
        Reply::At(name, value) => Shown::At(name.0, first_byte(value)),
        Reply::Number(count) => Shown::Number(count),
        Reply::Done => Shown::Done,
        Reply::Taken => Shown::Taken,
        Reply::Many => Shown::Many,
        Reply::Used => Shown::Used,
        Reply::Idle => Shown::Idle,
    }
}

// Cells by number.
#[derive(Drop)]
struct Row {
    cells: Vec<Cell>,
}

impl Model for Row {
    ghost use Rattle.std.specs.Prelude.{List};
    ghost use Rattle.kmem_buf.specs.Buffers.{CellState};

    ghost Value = { List CellState };

    ghost view = { λ r. r.cells.items };
}

impl Cells<RecordKind> for Row {
    ghost use Rattle.kmem_buf.specs.Homes.{cell_homes, out_at};

    ghost cells = { cell_homes };

    ghost is_out = { out_at };

    #[tactic(auto, using(crate::proofs::Benches::still, crate::proofs::Benches::renewed))]
    fn meet(&mut self, buf: &mut Buf<RecordKind>) {
        let cell = &mut self.cells[buf.number() as usize];
        cell.meet(buf);
    }
}

impl Row {
    // A buffer of a number, if it is free.
    fn take(&mut self, number: u32) -> Option<Buf<RecordKind>>
        requires { number < length self.old }
        ensures homes { cell_homes self.new ≡ cell_homes self.old }
        ensures ready { IfSome result (IsBlankBuffer (cell_homes self.old)) }
    {
        let cell = &mut self.cells[number as usize];
        if cell.is_out() {
            return None;
        }
        let buf = cell.take(RecordCell::blank());
        if buf.number() != number {
            return None;
        }
        Some(buf)
    }

    // The free buffer with the least number.
    fn take_any(&mut self) -> Option<Buf<RecordKind>>
        ensures homes { cell_homes self.new ≡ cell_homes self.old }
        ensures ready { IfSome result (IsBlankBuffer (cell_homes self.old)) }
    {
        for number in 0..4 {
            if (number as usize) < self.cells.len() {
                if let Some(buf) = self.take(number) {
                    return Some(buf);
                }
            }
        }
        None
    }

    fn give(&mut self, buf: Buf<RecordKind>)
        requires { IsBlankBuffer (cell_homes self.old) buf }
        ensures { cell_homes self.new ≡ cell_homes self.old }
    {
        let cell = &mut self.cells[buf.number() as usize];
        let _object = cell.give(buf);
    }
}

// A heap, the cells of its buffers, and the hold that was made last.
#[derive(Drop)]
struct Bench {
    heap: RecordHeap,
    row: Row,
    hold: Option<Hold>,
}

impl Model for Bench {
    ghost use Rattle.record_heap.specs.View.{HeapView};
    ghost use Rattle.record_heap.specs.Bench.{IsSetUp};

    ghost Value = { HeapView };

    ghost view = { λ b. b.heap };

    ghost invariant = { λ b. IsSetUp b.heap b.row b.hold };
}

fn row_of_four(alloc: Global) -> Result<Row, AllocError>
    ensures { IfOk result (λ row. length row ≡ 4) }
{
    let mut cells = Vec::with_capacity(alloc, 4)?;
    for number in 0..4 {
        cells.push(Cell::create(alloc, number)?)?;
    }
    Ok(Row { cells })
}

impl Bench {
    fn create(alloc: Global) -> Result<Bench, AllocError> {
        let row = row_of_four(alloc)?;
        let home = Home::of(&row.cells, &Vec::new(alloc));
        Ok(Bench {
            heap: RecordHeap::create(alloc, home, 200_000, 4, 2)?,
            row,
            hold: None,
        })
    }

    // A put with what the cells have.
    fn put(&mut self, name: u32, value: Value) -> Shown
        requires { name < 200000 }
    {
        if let Some(shown) = self.put_with(name, value, Offer::Nothing) {
            return shown;
        }
        let offer = self.offer();
        match self.put_with(name, value, offer) {
            Some(shown) => shown,
            None => Shown::Idle,
        }
    }

    #[tactic(auto, using(crate::proofs::Benches::still, crate::proofs::Benches::renewed))]
    fn offer(&mut self) -> Offer
        ensures ready { IsReadyOffer self.old.home.cells result }
        ensures heap { self.new ≡ self.old }
    {
        match self.row.take_any() {
            Some(buf) => Offer::Fresh(buf),
            None => Offer::Refused(FullNote { at: 0 }),
        }
    }

    #[tactic(auto, using(crate::proofs::Benches::still, crate::proofs::Benches::renewed))]
    fn put_with(&mut self, name: u32, value: Value, offer: Offer) -> Option<Shown>
        requires name { name < 200000 }
        requires offer { IsReadyOffer self.old.home.cells offer }
    {
        match self.heap.decide_put(NameId(name), value, offer) {
            PutEnd::Replied(reply, buf) => {
                self.take_back(buf);
                Some(show(reply))
            }
            PutEnd::Wanting => None,
        }
    }

    #[tactic(auto, using(crate::proofs::Benches::still, crate::proofs::Benches::renewed))]
    fn take_back(&mut self, buf: Option<Buf<RecordKind>>)
        requires { IfSome buf (IsBlankBuffer self.old.home.cells) }
    {
        if let Some(buf) = buf {
            self.row.give(buf);
        }
    }

    // A deletion, with whether the record ended.
    #[tactic(auto, using(crate::proofs::Benches::still, crate::proofs::Benches::renewed))]
    fn del(&mut self, name: u32) -> (Shown, bool)
        requires { name < 200000 }
    {
        let (reply, buf) = self.heap.del(NameId(name));
        let ended = buf.is_some();
        self.take_back(buf);
        (show(reply), ended)
    }

    fn get(&self, name: u32) -> Shown
        requires { name < 200000 }
    {
        show(self.heap.get(NameId(name)))
    }

    fn next(&self, name: u32) -> Shown
        requires { name < 200000 }
    {
        show(self.heap.next(NameId(name)))
    }

    fn address(&self, name: u32) -> Option<u32>
        requires { name < 200000 }
    {
        self.heap.address(NameId(name))
    }

    #[tactic(auto, using(crate::proofs::Benches::still, crate::proofs::Benches::renewed))]
    fn link(&mut self, name: u32, other: u32) -> Shown
        requires { (name < 200000) × (other < 200000) }
    {
        show(self.heap.link(NameId(name), NameId(other)))
    }

    #[tactic(auto, using(crate::proofs::Benches::still, crate::proofs::Benches::renewed))]
    fn fix(&mut self, name: u32) -> Shown
        requires { name < 200000 }
    {
        show(self.heap.fix(NameId(name)))
    }

    #[tactic(auto, using(crate::proofs::Benches::still, crate::proofs::Benches::renewed))]
    fn loose(&mut self, name: u32) -> Shown
        requires { name < 200000 }
    {
        show(self.heap.loose(NameId(name)))
    }

    // The second worker's tag holds the record of a name.
    #[tactic(auto, using(crate::proofs::Benches::still, crate::proofs::Benches::renewed))]
    fn hold(&mut self, tag: u8, name: u32) -> Shown
        requires { (tag < 8) × (name < 200000) }
    {
        let (reply, hold) = self.heap.hold(2, Tag::new(tag), NameId(name));
        self.hold = hold;
        show(reply)
    }

    #[tactic(auto, using(crate::proofs::Benches::still, crate::proofs::Benches::renewed))]
    fn read(&mut self) -> Option<Shown> {
        let mut hold = replace(&mut self.hold, None)?;
        let reply = self.heap.read(&mut hold);
        self.hold = Some(hold);
        Some(show(reply))
    }

    #[tactic(auto, using(crate::proofs::Benches::still, crate::proofs::Benches::renewed))]
    fn write(&mut self, value: Value) -> Option<Shown> {
        let mut hold = replace(&mut self.hold, None)?;
        let reply = self.heap.write(&mut hold, value);
        self.hold = Some(hold);
        Some(show(reply))
    }

    // The hold is let go. Its worker, tag and address come with the reply.
    #[tactic(auto, using(crate::proofs::Benches::still, crate::proofs::Benches::renewed))]
    fn release(&mut self) -> Option<(Shown, [u32; 3])> {
        let hold = replace(&mut self.hold, None)?;
        let facts = [
            hold.worker(),
            u32::from(hold.tag().number()),
            hold.address(),
        ];
        Some((show(self.heap.release(hold)), facts))
    }

    // A question about a buffer, with a free one as the new one.
    #[tactic(auto, using(crate::proofs::Benches::still, crate::proofs::Benches::renewed))]
    fn ask(&mut self, from: u32) -> Option<Verdict>
        requires { from < 4 }
    {
        let to = self.row.take_any()?;
        let answer = self.heap.answer_move(from, to);
        let verdict = answer.verdict();
        self.take_back_each(answer);
        Some(verdict)
    }

    #[tactic(auto, using(crate::proofs::Benches::still, crate::proofs::Benches::renewed))]
    fn take_back_each(&mut self, answer: Answer<RecordKind>)
        requires { All (λ b. (b.object ≡ blank) × IsBufferOf self.old.home.cells b) (buffers_back answer) }
    {
        match answer {
            Answer::DontNeed(old, new) => {
                self.row.give(old);
                self.row.give(new);
            }
            Answer::Yes(buf) | Answer::No(buf) | Answer::Later(buf) | Answer::DontKnow(buf) => {
                self.row.give(buf)
            }
        }
    }

    // The number of the leftover that goes.
    #[tactic(auto, using(crate::proofs::Benches::still, crate::proofs::Benches::renewed))]
    fn collect(&mut self) -> Option<u32> {
        let buf = self.heap.take_leftover()?;
        let number = buf.number();
        self.row.give(buf);
        Some(number)
    }

    // Whether the buffer of the number is shown to be out.
    #[tactic(auto, using(crate::proofs::Benches::still, crate::proofs::Benches::renewed))]
    fn meet(&mut self, b: u32) -> bool
        requires { b < 4 }
    {
        let lists = self.heap.lists(b);
        if lists {
            self.heap.meet(b, &mut self.row);
        }
        lists
    }
}
