//! Numbers as words.
ghost use Rattle.std.specs.Prelude.{◌≡◌, ◌↔◌, ℕ, IsTrue, MatchOption};
ghost use Rattle.value_form.specs.declared.objects.ObjectId.{ObjectId};
ghost use Rattle.command_words.specs.Words.{IsNumber, IsObjectWord, IsPlain};

use value_form::ObjectId;

// Whether the word has neither a sign nor a zero in front, `0` itself aside.
fn is_plain(word: &str) -> bool
    ensures { IsTrue result ↔ IsPlain word.now }
{
    match word.as_bytes() {
        [first] => *first != b'+',
        [first, ..] => *first != b'+' && *first != b'0',
        [] => true,
    }
}

/// The number between these that the word is.
pub fn number(word: &str, least: u64, most: u64) -> Option<u64>
    ensures { MatchOption result ((n : ℕ) → IsNumber least most n word.now → ⊥) (λ n. IsNumber least most n word.now) }
{
    if !is_plain(word) {
        return None;
    }
    match word.parse::<u64>() {
        Ok(number) if least <= number && number <= most => Some(number),
        _ => None,
    }
}

/// The object that the word is, as `R.N`.
pub fn object(word: &str) -> Option<ObjectId>
    ensures { MatchOption result ((o : ObjectId) → IsObjectWord o word.now → ⊥) (λ o. IsObjectWord o word.now) }
{
    let (repository, number_word) = word.split_once('.')?;
    let repository = number(repository, 1, 16)?;
    let number = number(number_word, 0, 4_294_967_295)?;
    Some(ObjectId {
        repository: repository as u8,
        number: number as u32,
    })
}
