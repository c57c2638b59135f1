// The fields of a command, read one after another.
ghost use Rattle.std.specs.Prelude.{◌≡◌, ℕ, List, [], ◌∷◌, ◌++◌, length, MatchBool, MatchOption, ◌≢◌, refl};
ghost use Rattle.commands.specs.Parts.{Part, word, number, opens, closes, token_part, rest};

use crate::words::Keyword;
use lines::cursor::{Cursor, Token};

// What can be read from the parts of a line.
pub(crate) trait FromParts: Copy {
    // the parts that say a value
    ghost parts: { Self → List Part };

    // how many they are
    ghost size: { ℕ };

    // Reads the value that comes next.
    fn next(from: &mut Cursor) -> Option<Self>
        ensures { MatchOption result ((x : Self) (more : List Part) → rest from.old ≢ parts x ++ more) (λ x. rest from.old ≡ parts x ++ rest from.new) };

    ghost sized: { (x : Self) → length (parts x) ≡ size };
}

fn next_token<'a>(from: &mut Cursor<'a>) -> Option<Token<'a>>
    ensures { MatchOption result (rest from.old ≡ []) (λ t. rest from.old ≡ token_part t ∷ rest from.new) }
{
    from.next()
}

impl FromParts for i32 {
    ghost parts = { λ n. number n ∷ [] };

    ghost size = { 1 };

    ghost sized = { λ _. refl };

    fn next(from: &mut Cursor) -> Option<i32> {
        match next_token(from)? {
            Token::Number(n) => Some(n),
            _ => None,
        }
    }
}

impl<K: Keyword> FromParts for K {
    ghost parts = { λ k. word (K.name k) ∷ [] };

    ghost size = { 1 };

    ghost sized = { λ _. refl };

    fn next(from: &mut Cursor) -> Option<K> {
        match next_token(from)? {
            Token::Word { text, .. } => K::from_text(text),
            _ => None,
        }
    }
}

// This and the next are a line each: with the bracket as a parameter the contract would need both cases.
pub(crate) fn next_open(from: &mut Cursor) -> Option<()>
    ensures { MatchOption result ((more : List Part) → rest from.old ≢ opens ∷ more) (λ _. rest from.old ≡ opens ∷ rest from.new) }
{
    matches!(next_token(from)?, Token::Open).then_some(())
}

pub(crate) fn next_close(from: &mut Cursor) -> Option<()>
    ensures { MatchOption result ((more : List Part) → rest from.old ≢ closes ∷ more) (λ _. rest from.old ≡ closes ∷ rest from.new) }
{
    matches!(next_token(from)?, Token::Close).then_some(())
}

// Whether nothing is left.
pub(crate) fn is_done(from: &Cursor) -> bool
    ensures { MatchBool result (rest from.now ≡ []) (rest from.now ≢ []) }
{
    let mut ahead = *from;
    next_token(&mut ahead).is_none()
}

// Reads a value that is all that is left.
pub(crate) fn last<T: FromParts>(from: &mut Cursor) -> Option<T>
    ensures { MatchOption result ((x : T) → rest from.old ≢ T.parts x) (λ x. rest from.old ≡ T.parts x) }
{
    let value = T::next(from)?;
    is_done(from).then_some(value)
}
