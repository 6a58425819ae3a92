//! Replies read back from their texts.

ghost use Rattle.std.specs.Prelude.{◌≡◌, ◌<◌, ◌^◌, ◌↔◌, ℕ, List, length, Some, IfSome};
ghost use Rattle.std.specs.List.Sorted.{IsStrictlySortedBy};
ghost use Rattle.std.specs.Cmp.Lexicographic.{slice_cmp};
ghost use Rattle.std.specs.Ordering.{nat_cmp};
ghost use Rattle.kmem_text.specs.Replies.{reply_text};
ghost use Rattle.kmem_text.specs.ReplyRows.{IsReplyTo, may_reply, reply_in, worded, split_at, last_word_len, name_in};

use super::{Command, Name, NameId, Reply, SPACE, Script, Value, number_within};

/// The reply that has this text, among those that the command may have. The names are searched by halves.
pub fn read_reply(script: &Script, command: &Command, text: &[u8]) -> Option<Reply>
    requires sorted { IsStrictlySortedBy (slice_cmp nat_cmp) script.now.names.items }
    requires few { length script.now.names.items < 2 ^ 32 }
    ensures { (reply : Reply) → (result ≡ Some reply) ↔
        (IsReplyTo (length script.now.names.items) command.now reply × (text.now ≡ reply_text script.now.names.items reply)) }
{
    let reply = reply_in(&script.names, text)?;
    if may_reply(command, &reply) {
        Some(reply)
    } else {
        None
    }
}

/// A reply's text tells the reply, among those that a command may have.
pub fn law_reread()
    ensures { (names : List (List ℕ)) (command : Command) (reply other : Reply) → IsStrictlySortedBy (slice_cmp nat_cmp) names →
        IsReplyTo (length names) command reply → IsReplyTo (length names) command other →
        reply_text names reply ≡ reply_text names other → reply ≡ other }
{}

/// The command may have the reply, whatever the records are.
fn may_reply(command: &Command, reply: &Reply) -> bool
    ensures { result ≡ may_reply command.now reply.now }
{
    match command {
        Command::Put(_, _) => matches!(reply, Reply::New | Reply::Was(_) | Reply::Full),
        Command::Get(_) => matches!(reply, Reply::Val(_) | Reply::Absent),
        Command::Del(_) => matches!(reply, Reply::Gone(_) | Reply::Absent),
        Command::First | Command::Next(_) => matches!(reply, Reply::At(_, _) | Reply::Absent),
        Command::Count => matches!(reply, Reply::Number(_)),
        Command::Link(_, _) => matches!(
            reply,
            Reply::Absent | Reply::Taken | Reply::Many | Reply::Done
        ),
        Command::Hold(_, _) => matches!(reply, Reply::Used | Reply::Absent | Reply::Done),
        Command::Read(_) => matches!(reply, Reply::Val(_) | Reply::Idle),
        Command::Write(_, _) => matches!(reply, Reply::Was(_) | Reply::Idle),
        Command::Drop(_) => matches!(reply, Reply::Done | Reply::Idle),
        Command::Fix(_) | Command::Loose(_) => matches!(reply, Reply::Done | Reply::Absent),
    }
}

/// The reply that has this text.
fn reply_in(names: &[Name], text: &[u8]) -> Option<Reply>
    requires sorted { IsStrictlySortedBy (slice_cmp nat_cmp) names.now }
    requires few { length names.now < 2 ^ 32 }
    ensures { result ≡ reply_in names.now text.now }
{
    if text == b"new".as_slice() {
        Some(Reply::New)
    } else if text == b"full".as_slice() {
        Some(Reply::Full)
    } else if text == b"none".as_slice() {
        Some(Reply::Absent)
    } else if text == b"ok".as_slice() {
        Some(Reply::Done)
    } else if text == b"taken".as_slice() {
        Some(Reply::Taken)
    } else if text == b"many".as_slice() {
        Some(Reply::Many)
    } else if text == b"used".as_slice() {
        Some(Reply::Used)
    } else if text == b"idle".as_slice() {
        Some(Reply::Idle)
    } else {
        worded(names, text)
    }
}

/// The reply of a word with more behind it.
fn worded(names: &[Name], text: &[u8]) -> Option<Reply>
    requires sorted { IsStrictlySortedBy (slice_cmp nat_cmp) names.now }
    requires few { length names.now < 2 ^ 32 }
    ensures { result ≡ worded names.now text.now }
{
    if let Some(value) = text.strip_prefix(b"was ".as_slice()) {
        Some(Reply::Was(Value::from_bytes(value)?))
    } else if let Some(value) = text.strip_prefix(b"del ".as_slice()) {
        Some(Reply::Gone(Value::from_bytes(value)?))
    } else if let Some(value) = text.strip_prefix(b"val ".as_slice()) {
        Some(Reply::Val(Value::from_bytes(value)?))
    } else if let Some(count) = text.strip_prefix(b"n ".as_slice()) {
        Some(Reply::Number(number_within(count, 0, u32::MAX)?))
    } else if let Some(further) = text.strip_prefix(b"at ".as_slice()) {
        split_at(names, further)
    } else {
        None
    }
}

/// A name and a value with a space between them. A value has no space, so it stands behind the last one.
fn split_at(names: &[Name], text: &[u8]) -> Option<Reply>
    requires sorted { IsStrictlySortedBy (slice_cmp nat_cmp) names.now }
    requires few { length names.now < 2 ^ 32 }
    ensures { result ≡ split_at names.now text.now (last_word_len text.now) }
{
    let len = last_word_len(text)?;
    let name = name_in(names, &text[..text.len() - len - 1])?;
    let value = Value::from_bytes(&text[text.len() - len..])?;
    Some(Reply::At(name, value))
}

/// How many bytes stand behind the last space.
fn last_word_len(text: &[u8]) -> Option<usize>
    ensures len { result ≡ last_word_len text.now }
    ensures within { IfSome result (λ len. len < length text.now) }
{
    text.iter().rev().position(|byte| *byte == SPACE)
}

/// The place of a name, if it is one of these. By binary search.
fn name_in(names: &[Name], text: &[u8]) -> Option<NameId>
    requires sorted { IsStrictlySortedBy (slice_cmp nat_cmp) names.now }
    requires few { length names.now < 2 ^ 32 }
    ensures { result ≡ name_in names.now text.now }
{
    match names.binary_search_by(|name| name.as_bytes().cmp(text)) {
        Ok(place) => Some(NameId(place as u32)),
        Err(_) => None,
    }
}

#[cfg(test)]
mod tests {
    use crate::{Command, NameId, Reply, Value, read_reply, read_script};
    use std::alloc::Global;
    use std::test::Fail;

    /// What a text is read as, where the script's names are a and b.
    fn told(alloc: Global, command: &Command, text: &[u8]) -> Result<Option<Reply>, Fail> {
        match read_script(alloc, b"1 put a x\n1 get b", 1) {
            Ok(script) => Ok(read_reply(&script, command, text)),
            Err(_) => Err(Fail::from("a good script")),
        }
    }

    #[test]
    fn replies_are_read(rt: HostRuntime) -> Result<(), Fail> {
        let x = Value::from_bytes(b"x").ok_or("a value")?;
        let put = Command::Put(NameId(0), x);
        let rows = [
            (put, b"new".as_slice(), Some(Reply::New)),
            (put, b"was x".as_slice(), Some(Reply::Was(x))),
            (put, b"val x".as_slice(), None),
            (put, b"was".as_slice(), None),
            (put, b"was ".as_slice(), None),
            (put, b"was x x".as_slice(), None),
            (
                Command::First,
                b"at b x".as_slice(),
                Some(Reply::At(NameId(1), x)),
            ),
            (Command::First, b"at c x".as_slice(), None),
            (Command::First, b"at b  x".as_slice(), None),
            (Command::Count, b"n 0".as_slice(), Some(Reply::Number(0))),
            (
                Command::Count,
                b"n 4294967295".as_slice(),
                Some(Reply::Number(u32::MAX)),
            ),
            (Command::Count, b"n 4294967296".as_slice(), None),
            (Command::Count, b"n 03".as_slice(), None),
            (Command::Count, b"full".as_slice(), None),
        ];
        for (command, text, reply) in rows {
            assert_eq!(rt; told(rt.alloc(), &command, text)?, reply);
        }
        Ok(())
    }
}
