//! The tokens of a line.

ghost use Rattle.std.specs.Prelude.{◌≡◌, ◌<◌, ◌≤◌, ◌∷◌, [], length, map, take, vec_capacity, not, position};
ghost use Rattle.std.specs.Str.Lines.{strip_carriage_return};
ghost use Rattle.kmem_text.specs.Grammar.{is_blank, tokens_in, tokens_of};
ghost use Rattle.kmem_text.specs.Tokens.{Cuts};
ghost use Rattle.std.specs.List.{position_or_len};

use super::{CARRIAGE_RETURN, SPACE, TAB};

/// No line that is good has more tokens than four, so the fifth is enough to tell that there are too many.
pub const MOST_TOKENS: usize = 5;

/// Puts the first tokens of a line in place of those that are there.
pub fn fill_tokens<'a>(line: &'a [u8], tokens: &mut Vec<&'a [u8]>)
    requires { 5 ≤ vec_capacity tokens.old }
    ensures tokens { map (λ token. token.now) tokens.new.items ≡ take 5 (tokens_of line.now) }
    ensures room { 5 ≤ vec_capacity tokens.new }
{
    tokens.clear();
    let mut rest = without_return(line);
    'cutting: while tokens.len() < MOST_TOKENS {
        let (token, behind) = next_token(rest);
        if token.is_empty() {
            break;
        }
        tokens.push(token).unwrap();
        rest = behind;
    }
}

/// The line without one carriage return at its end.
fn without_return(line: &[u8]) -> &[u8]
    ensures { result.now ≡ strip_carriage_return line.now }
{
    match line {
        [front @ .., CARRIAGE_RETURN] => front,
        _ => line,
    }
}

/// The first token, and what stands behind it. An empty one says that there is none.
fn next_token(line: &[u8]) -> (&[u8], &[u8])
    ensures { Cuts line.now result.0.now result.1.now }
{
    let start = first_not_blank(line);
    let token = &line[start..];
    let end = first_blank(token);
    (&token[..end], &token[end..])
}

/// How many blanks the bytes begin with.
fn first_not_blank(bytes: &[u8]) -> usize
    ensures count { result ≡ position_or_len (λ byte. not (is_blank byte)) bytes.now }
    ensures within { result ≤ length bytes.now }
{
    token_at(bytes).unwrap_or(bytes.len())
}

/// How many bytes that are no blanks the bytes begin with.
fn first_blank(bytes: &[u8]) -> usize
    ensures count { result ≡ position_or_len is_blank bytes.now }
    ensures within { result ≤ length bytes.now }
{
    blank_at(bytes).unwrap_or(bytes.len())
}

/// Where the first byte that is no blank stands.
fn token_at(bytes: &[u8]) -> Option<usize>
    ensures { result ≡ position (λ byte. not (is_blank byte)) bytes.now }
{
    bytes.iter().position(|byte| !is_blank(*byte))
}

/// Where the first blank stands.
fn blank_at(bytes: &[u8]) -> Option<usize>
    ensures { result ≡ position is_blank bytes.now }
{
    bytes.iter().position(|byte| is_blank(*byte))
}

fn is_blank(byte: u8) -> bool
    ensures { result ≡ is_blank byte }
{
    byte == SPACE || byte == TAB
}
