//! The text of a script's line.

ghost use Rattle.std.specs.Prelude.{◌≡◌, ◌+◌, ◌++◌, ◌∷◌, ◌<◌, ◌≤◌, ◌^◌, [], ℕ, None, length, drop, take};
ghost use Rattle.kmem_text.specs.Grammar.{IsWithinNames, first_bad_of, script_of, script_of_lines};
ghost use Rattle.kmem_text.specs.Layout.{IsGoodLine, command_tokens};
ghost use Rattle.generator.specs.Lines.{line_text, spelled_line, spelled_command, name_at, spaced};

use super::room::put;
use itoa::Buffer;
use kmem_text::{Command, LINE_FEED, Line, NameId, SPACE, Script, Tag, law_written};

/// Puts the line, with single spaces and a line feed, at the front of `out`, and answers its length.
pub fn write_line(script: &Script, line: &Line, out: &mut [u8]) -> usize
    requires names { IsWithinNames (length script.now.names.items) line.now.command }
    requires room { 640 ≤ length out.old }
    ensures len { result ≡ length (line_text script.now.names.items line.now) }
    ensures text { out.new ≡ line_text script.now.names.items line.now ++ drop result out.old }
    ensures good { (workers : ℕ) → workers < 2 ^ 32 → IsGoodLine workers (spelled_line script.now.names.items line.now) →
        first_bad_of workers (take result out.new) ≡ None }
    ensures read { (workers : ℕ) → workers < 2 ^ 32 → IsGoodLine workers (spelled_line script.now.names.items line.now) →
        script_of workers (take result out.new) ≡ script_of_lines (spelled_line script.now.names.items line.now ∷ []) }
{
    law_written();
    let mut digits = Buffer::new();
    let at = put(out, 0, digits.format(line.worker).as_bytes());
    let at = put_command(script, &line.command, out, at);
    put(out, at, &[LINE_FEED])
}

/// Puts the tokens of a command at a place, each with a space before it, and answers where they end.
fn put_command(script: &Script, command: &Command, out: &mut [u8], at: usize) -> usize
    requires names { IsWithinNames (length script.now.names.items) command.now }
    requires room { at + 128 ≤ length out.old }
    ensures end { (at ≤ result) × (result ≤ at + 128) }
    ensures text { take result out.new ≡ take at out.old ++
        spaced (command_tokens (spelled_command script.now.names.items command.now)) }
    ensures rest { drop result out.new ≡ drop result out.old }
{
    match command {
        Command::Put(name, value) => {
            put_three(out, at, b"put", name_at(script, name), value.as_bytes())
        }
        Command::Get(name) => put_two(out, at, b"get", name_at(script, name)),
        Command::Del(name) => put_two(out, at, b"del", name_at(script, name)),
        Command::First => put_one(out, at, b"first"),
        Command::Next(name) => put_two(out, at, b"next", name_at(script, name)),
        Command::Count => put_one(out, at, b"count"),
        Command::Link(name, other) => {
            put_three(
                out,
                at,
                b"link",
                name_at(script, name),
                name_at(script, other),
            )
        }
        Command::Hold(tag, name) => {
            put_three(out, at, b"hold", &[digit_of(*tag)], name_at(script, name))
        }
        Command::Read(tag) => put_two(out, at, b"read", &[digit_of(*tag)]),
        Command::Write(tag, value) => {
            put_three(out, at, b"write", &[digit_of(*tag)], value.as_bytes())
        }
        Command::Drop(tag) => put_two(out, at, b"drop", &[digit_of(*tag)]),
        Command::Fix(name) => put_two(out, at, b"fix", name_at(script, name)),
        Command::Loose(name) => put_two(out, at, b"loose", name_at(script, name)),
    }
}

fn name_at<'a>(script: &'a Script, place: &NameId) -> &'a [u8]
    requires { place.now.0 < length script.now.names.items }
    ensures name { result.now ≡ name_at script.now.names.items place.now }
    ensures short { length result.now ≤ 32 }
{
    script.names[place.0 as usize].as_bytes()
}

fn digit_of(tag: Tag) -> u8
    ensures { result ≡ 48 + tag }
{
    b'0' + tag.number()
}

/// Puts one token at a place, with a space before it, and answers where it ends.
fn put_one(out: &mut [u8], at: usize, token: &[u8]) -> usize
    requires { at + 1 + length token.now ≤ length out.old }
    ensures end { result ≡ at + 1 + length token.now }
    ensures text { take result out.new ≡ take at out.old ++ spaced (token.now ∷ []) }
    ensures rest { drop result out.new ≡ drop result out.old }
{
    let at = put(out, at, &[SPACE]);
    put(out, at, token)
}

/// Puts two tokens at a place, each with a space before it, and answers where they end.
fn put_two(out: &mut [u8], at: usize, token: &[u8], next: &[u8]) -> usize
    requires { at + 2 + length token.now + length next.now ≤ length out.old }
    ensures end { result ≡ at + 2 + length token.now + length next.now }
    ensures text { take result out.new ≡ take at out.old ++ spaced (token.now ∷ next.now ∷ []) }
    ensures rest { drop result out.new ≡ drop result out.old }
{
    let at = put_one(out, at, token);
    put_one(out, at, next)
}

/// Puts three tokens at a place, each with a space before it, and answers where they end.
fn put_three(out: &mut [u8], at: usize, token: &[u8], next: &[u8], last: &[u8]) -> usize
    requires { at + 3 + length token.now + length next.now + length last.now ≤ length out.old }
    ensures end { result ≡ at + 3 + length token.now + length next.now + length last.now }
    ensures text { take result out.new ≡ take at out.old ++ spaced (token.now ∷ next.now ∷ last.now ∷ []) }
    ensures rest { drop result out.new ≡ drop result out.old }
{
    let at = put_two(out, at, token, next);
    put_one(out, at, last)
}
