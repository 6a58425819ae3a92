//! The text of a reply.

ghost use Rattle.std.specs.Prelude.{◌≡◌, ◌+◌, ◌++◌, ◌≤◌, length, drop};
ghost use Rattle.kmem_text.specs.Replies.{reply_text, IsReplyWithinNames};

use super::{Reply, Script};
use itoa::Buffer;

/// Puts the reply's text, without a line feed, at the front of `out`, and answers its length.
pub fn write_reply(script: &Script, reply: &Reply, out: &mut [u8]) -> usize
    requires names { IsReplyWithinNames (length script.now.names.items) reply.now }
    requires room { 640 ≤ length out.old }
    ensures len { result ≡ length (reply_text script.now.names.items reply.now) }
    ensures text { out.new ≡ reply_text script.now.names.items reply.now ++ drop result out.old }
{
    match reply {
        Reply::New => put(out, b"new"),
        Reply::Was(value) => put_two(out, b"was ", value.as_bytes()),
        Reply::Full => put(out, b"full"),
        Reply::Gone(value) => put_two(out, b"del ", value.as_bytes()),
        Reply::Val(value) => put_two(out, b"val ", value.as_bytes()),
        Reply::Absent => put(out, b"none"),
        Reply::At(name, value) => put_four(
            out,
            b"at ",
            script.names[name.0 as usize].as_bytes(),
            b" ",
            value.as_bytes(),
        ),
        Reply::Number(count) => put_two(out, b"n ", Buffer::new().format(*count).as_bytes()),
        Reply::Done => put(out, b"ok"),
        Reply::Taken => put(out, b"taken"),
        Reply::Many => put(out, b"many"),
        Reply::Used => put(out, b"used"),
        Reply::Idle => put(out, b"idle"),
    }
}

/// Puts a piece at the front.
fn put(out: &mut [u8], piece: &[u8]) -> usize
    requires { length piece.now ≤ length out.old }
    ensures len { result ≡ length piece.now }
    ensures text { out.new ≡ piece.now ++ drop (length piece.now) out.old }
{
    out[..piece.len()].copy_from_slice(piece);
    piece.len()
}

/// Puts two pieces at the front, one after the other.
fn put_two(out: &mut [u8], word: &[u8], piece: &[u8]) -> usize
    requires { length word.now + length piece.now ≤ length out.old }
    ensures len { result ≡ length (word.now ++ piece.now) }
    ensures text { out.new ≡ (word.now ++ piece.now) ++ drop (length (word.now ++ piece.now)) out.old }
{
    let at = put(out, word);
    at + put(&mut out[at..], piece)
}

/// Puts two words, each with a piece behind it, at the front.
fn put_four(out: &mut [u8], word: &[u8], piece: &[u8], next: &[u8], last: &[u8]) -> usize
    requires { length word.now + length piece.now + length next.now + length last.now ≤ length out.old }
    ensures len { result ≡ length (word.now ++ piece.now ++ next.now ++ last.now) }
    ensures text { out.new ≡ (word.now ++ piece.now ++ next.now ++ last.now)
        ++ drop (length (word.now ++ piece.now ++ next.now ++ last.now)) out.old }
{
    let at = put_two(out, word, piece);
    at + put_two(&mut out[at..], next, last)
}
