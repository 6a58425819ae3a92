//! Moves: what is answered about one.
ghost use Rattle.std.specs.Prelude.{◌≡◌};
ghost use Rattle.record_table.specs.Tables.{home_of};
ghost use Rattle.record_table.specs.Moves.{IsMoveAsk, IsAsked, StaysStanding, share_asked};

use super::Records;
use crate::shares::Share;
use kmem_buf::{Answer, Buf, Verdict};
use marks::Marks;
use record_heap::RecordKind;

/// What a turn about a move comes to.
#[derive(Drop)]
pub enum Asked {
    /// The heap's answer.
    Answered(Answer<RecordKind>),
    /// There is no object in the old buffer. The new one comes back.
    Absent(Buf<RecordKind>),
}

impl Records {
    /// Answers whether the object of the number can move to the buffer, and moves it where the answer is yes. The word of the new buffer
    /// is set once the object is there, and that of the old one is cleared before it is handed out.
    pub fn answer_move(
        &mut self,
        marks: &Marks,
        from: u32,
        to: Buf<RecordKind>,
        share: Share,
    ) -> (Asked, Share)
        requires ask { IsMoveAsk (home_of self.old) marks.now from to share }
        ensures home { home_of self.new ≡ home_of self.old }
        ensures asked { IsAsked self.old from to result.0 }
        ensures stands { StaysStanding self.old self.new }
        ensures share { result.1 ≡ share_asked result.0 share }
    {
        if !self.heap.lists(from) {
            return (Asked::Absent(to), share);
        }
        let number = to.number();
        let answer = self.heap.answer_move(from, to);
        let share = match answer.verdict() {
            Verdict::Yes => {
                marks.set(&mut self.pen, number);
                marks.clear(&mut self.pen, from);
                self.shares.count(share, 1, 1)
            }
            Verdict::DontNeed => {
                marks.clear(&mut self.pen, from);
                self.shares.count(share, 0, 1)
            }
            Verdict::No | Verdict::Later | Verdict::DontKnow => share,
        };
        (Asked::Answered(answer), share)
    }
}
