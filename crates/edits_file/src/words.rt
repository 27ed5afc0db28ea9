ghost use Rattle.std.specs.Prelude.{◌≡◌, ◌<◌, ◌==◌, ◌++◌, ◌∷◌, false, length, map, All};
ghost use Rattle.std.specs.Prelude.{MatchOption};
ghost use Rattle.std.specs.Str.{bytes_eq};
ghost use Rattle.stow_messages.specs.Steps.{text_of};
ghost use Rattle.edits_file.specs.Words.{number_in, step_in, mass_in, id_in, name_in};
ghost use Rattle.edits_file.specs.Words.{words_in};

use arrayvec::ArrayVec;
use csv_text::natural;
use units_core::Kg;

/// The greatest number of words of a line.
const MOST_WORDS: usize = 6;

/// The greatest number of digits.
const MOST_DIGITS: usize = 10;

/// The greatest number of a step, and the greatest mass of a tank's filling in kg.
const MOST: u32 = 1_000_000_000;

/// The text before the first of these bytes, and the text behind it; the whole text where it has
/// none of them.
pub fn cut(text: &[u8], end: u8) -> (&[u8], Option<&[u8]>)
    ensures before { All (λ c. (c == end) ≡ false) result.0.now }
    ensures parts { MatchOption result.1 (text.now ≡ result.0.now)
        (λ behind. text.now ≡ result.0.now ++ end ∷ behind.now) }
{
    for place in 0..text.len() {
        if text[place] == end {
            return (&text[..place], Some(&text[place + 1..]));
        }
    }
    (text, None)
}

/// The words of a line; none where they are more than those of any form.
pub fn words_of(line: &[u8]) -> Option<ArrayVec<&[u8], MOST_WORDS>>
    ensures { MatchOption result (6 < length (words_in line.now))
        (λ words. map (λ w. w.now) words.items ≡ words_in line.now) }
{
    let mut words = ArrayVec::new();
    let mut rest = line;
    for _ in 0..MOST_WORDS {
        let (word, behind) = cut(rest, b' ');
        words.push(word);
        match behind {
            Some(behind) => rest = behind,
            None => return Some(words),
        }
    }
    None
}

/// The number that a word writes, up to the greatest.
fn number(most: u32, word: &[u8]) -> Option<u32>
    ensures { result ≡ number_in most word.now }
{
    let value = natural(word, MOST_DIGITS)?;
    if value <= u64::from(most) {
        Some(value as u32)
    } else {
        None
    }
}

/// The number of a step, or the mass of a tank's filling in kg.
pub fn step(word: &[u8]) -> Option<u32>
    ensures { result ≡ step_in word.now }
{
    number(MOST, word)
}

/// The gross mass of a container.
pub fn mass(word: &[u8]) -> Option<Kg>
    ensures { result ≡ mass_in word.now }
{
    Kg::new(number(Kg::MAX, word)?)
}

/// The bytes of a word, unchanged; `None` where they aren't 1 to `LENGTH`.
fn text_of<const LENGTH: usize>(word: &[u8]) -> Option<ArrayVec<u8, LENGTH>>
    ensures { result ≡ text_of 1 LENGTH word.now }
{
    let mut text = ArrayVec::new();
    if word.is_empty() || text.try_extend_from_slice(word).is_err() {
        return None;
    }
    Some(text)
}

/// The identification of a container; a hyphen stands for an empty one.
pub fn identification(word: &[u8]) -> Option<ArrayVec<u8, 17>>
    ensures { result ≡ id_in word.now }
{
    if is(word, b"-") {
        Some(ArrayVec::new())
    } else {
        text_of::<17>(word)
    }
}

/// The name of a tank.
pub fn name(word: &[u8]) -> Option<ArrayVec<u8, 16>>
    ensures { result ≡ name_in word.now }
{
    text_of::<16>(word)
}

/// Whether a word is this one.
#[tactic(auto, using(stow_messages::proofs::Texts::told))]
pub fn is(word: &[u8], other: &[u8]) -> bool
    ensures { result ≡ bytes_eq word.now other.now }
{
    word == other
}
