//! A page of text on its way out.

ghost use Rattle.std.specs.Prelude.{◌≡◌, ◌+◌, ◌≤◌, ◌++◌, ◌∷◌, [], length, take, IfOk, OnOk};
ghost use Rattle.std.specs.Fmt.{decimal};
ghost use Rattle.kmem_io.specs.Streams.{CanRise, CountsFaults};
ghost use Rattle.kmem_text.specs.Replies.{reply_text, IsReplyWithinNames};
ghost use Rattle.run_print.specs.Pages.{Carries, CarriesFront};

use itoa::Buffer;
use kmem_io::{Failed, Sink, write_all};
use kmem_text::{Reply, Script, write_reply};
use std::alloc::{AllocError, Global};
use std::marker::Model;

/// The room of a page: 64 KiB.
const ROOM: usize = 65_536;

/// The most that is put between two looks at the room: a reply with its place, and a line feed.
const MOST: usize = 700;

/// Text that isn't written yet. To contracts it is that text. It has a fixed room, which is taken when it is made.
#[derive(Drop)]
pub struct Page {
    bytes: Vec<u8>,
    at: usize,
}

impl Model for Page {
    ghost use Rattle.std.specs.Prelude.{ℕ, List, take};
    ghost use Rattle.run_print.specs.Pages.{IsPage};

    ghost Value = { List ℕ };

    ghost view = { λ p. take p.at p.bytes.items };

    ghost invariant = { λ p. IsPage p.bytes.items p.at };
}

impl Page {
    /// A page without text.
    pub fn create(alloc: Global) -> Result<Page, AllocError>
        ensures { IfOk result (λ page. page ≡ []) }
    {
        let bytes = vec![in alloc; 0u8; ROOM]?;
        Ok(Page { bytes, at: 0 })
    }

    /// Writes the text where there is no room for one more line behind it.
    pub fn make_room<W: Sink>(&mut self, out: &mut W) -> Result<(), Failed>
        requires out { CanRise (W.faults out.old) }
        ensures room { OnOk result (length self.new + 700 ≤ 65536) }
        ensures kept { length self.old + 700 ≤ 65536 → (self.new ≡ self.old) × (W.written out.new ≡ W.written out.old) }
        ensures carried { OnOk result (Carries (W.written out.old) (W.written out.new) self.old self.new []) }
        ensures front { CarriesFront (W.written out.old) (W.written out.new) self.old [] }
        ensures counted { CountsFaults (W.faults out.old) (W.faults out.new) result }
    {
        if ROOM - self.at < MOST {
            self.write_out(out)?;
        }
        Ok(())
    }

    /// Writes the text, and none is left.
    pub fn write_out<W: Sink>(&mut self, out: &mut W) -> Result<(), Failed>
        requires out { CanRise (W.faults out.old) }
        ensures none { OnOk result (self.new ≡ []) }
        ensures carried { OnOk result (Carries (W.written out.old) (W.written out.new) self.old self.new []) }
        ensures front { CarriesFront (W.written out.old) (W.written out.new) self.old [] }
        ensures counted { CountsFaults (W.faults out.old) (W.faults out.new) result }
    {
        write_all(out, &self.bytes[..self.at])?;
        self.at = 0;
        Ok(())
    }

    /// Puts a piece behind the text.
    pub fn put(&mut self, piece: &[u8])
        requires { length self.old + length piece.now ≤ 65536 }
        ensures { self.new ≡ self.old ++ piece.now }
    {
        let end = self.at + piece.len();
        self.bytes[self.at..end].copy_from_slice(piece);
        self.at = end;
    }

    /// Puts a number behind the text, in decimal.
    pub fn put_number(&mut self, number: u32)
        requires { length self.old + 10 ≤ 65536 }
        ensures text { self.new ≡ self.old ++ decimal number }
        ensures room { length self.new ≤ length self.old + 10 }
    {
        self.put(Buffer::new().format(number).as_bytes());
    }

    /// Puts the text of a reply behind the text.
    pub fn put_reply(&mut self, script: &Script, reply: &Reply)
        requires room { length self.old + 640 ≤ 65536 }
        requires names { IsReplyWithinNames (length script.now.names.items) reply.now }
        ensures text { self.new ≡ self.old ++ reply_text script.now.names.items reply.now }
        ensures room { length self.new ≤ length self.old + 640 }
    {
        self.at = put_reply_at(script, reply, &mut self.bytes, self.at);
    }
}

// Puts the text of a reply at a place, and answers where it ends.
fn put_reply_at(script: &Script, reply: &Reply, bytes: &mut [u8], at: usize) -> usize
    requires room { at + 640 ≤ length bytes.old }
    requires names { IsReplyWithinNames (length script.now.names.items) reply.now }
    ensures end { result ≤ at + 640 }
    ensures text { take result bytes.new ≡ take at bytes.old ++ reply_text script.now.names.items reply.now }
{
    at + write_reply(script, reply, &mut bytes[at..at + 640])
}
