//! This module takes the words of a line, one after another.

ghost use Rattle.std.specs.Prelude.{◌≡◌, ◌≢◌, ℕ, ◌<◌, ◌+◌, ◌^◌, ◌∷◌, [], List, Bool, IfSome, IfNone, MatchOption, decimal, if◌then◌else◌, ◌==◌, position, IsSome, ◌⊎◌};
ghost use Rattle.lot_script.specs.Words.{number};
ghost use Rattle.lot_script.specs.Private.Parsing.{texts_in, texts_left, AreWords};

// The first word of a line, and what stands behind the blank that ends it, if one does.
pub(super) fn split_word(line: &[u8]) -> (&[u8], Option<&[u8]>)
    ensures { texts_in line.now ≡ result.0.now ∷ texts_left result.1 }
{
    match blank_in(line) {
        Some(end) => (&line[..end], Some(&line[end + 1..])),
        None => (line, None),
    }
}

// Where the first blank stands.
fn blank_in(line: &[u8]) -> Option<usize>
    ensures { result ≡ position (λ byte. byte == 32) line.now }
{
    line.iter().position(|byte| *byte == b' ')
}

// The next word, and what is left behind it.
pub(super) fn next_word(left: Option<&[u8]>) -> Option<(&[u8], Option<&[u8]>)>
    ensures { MatchOption result (texts_left left.entry ≡ [])
        (λ x. texts_left left.entry ≡ x.0.now ∷ texts_left x.1) }
{
    left.map(|line| split_word(line))
}

// The number that this word is.
fn number_of(word: &[u8]) -> Option<usize>
    ensures found { IfSome result (λ n. word.now ≡ decimal n) }
    ensures each { (n : ℕ) → n < 2 ^ 64 → word.now ≡ decimal n → IsSome result }
{
    let (first, rest) = word.split_first()?;
    // A number but zero has no zero in front.
    if *first == b'0' {
        return if rest.is_empty() { Some(0) } else { None };
    }
    let mut number: usize = 0;
    for byte in word {
        let digit = digit_in(*byte)?;
        number = number.checked_mul(10)?.checked_add(digit)?;
    }
    Some(number)
}

// The digit that this byte is.
fn digit_in(byte: u8) -> Option<usize>
    ensures { MatchOption result ((byte < 48) ⊎ (57 < byte))
        (λ digit. (byte ≡ 48 + digit) × (digit < 10)) }
{
    match byte {
        b'0'..=b'9' => Some(usize::from(byte - b'0')),
        _ => None,
    }
}

// The number that the next word is, and what is left behind it.
pub(super) fn next_number(left: Option<&[u8]>) -> Option<(usize, Option<&[u8]>)>
    ensures found { IfSome result (λ x. (x.0 < 2 ^ 64)
        × (texts_left left.entry ≡ decimal x.0 ∷ texts_left x.1)) }
    ensures none { IfNone result ((n : ℕ) (texts : List (List ℕ)) → n < 2 ^ 64
        → texts_left left.entry ≢ decimal n ∷ texts) }
{
    let (word, left) = next_word(left)?;
    let number = number_of(word)?;
    Some((number, left))
}

// Whether the next word is the first of two words or the second, and what is left behind it.
pub(super) fn next_choice<'a>(
    left: Option<&'a [u8]>,
    yes: &[u8],
    no: &[u8],
) -> Option<(bool, Option<&'a [u8]>)>
    ensures found { IfSome result (λ x. texts_left left.entry
        ≡ (if x.0 then yes.now else no.now) ∷ texts_left x.1) }
    ensures none { IfNone result ((b : Bool) (texts : List (List ℕ)) →
        texts_left left.entry ≢ (if b then yes.now else no.now) ∷ texts) }
{
    let (word, left) = next_word(left)?;
    if word == yes {
        return Some((true, left));
    }
    if word == no {
        return Some((false, left));
    }
    None
}

// The number that is the only word left.
pub(super) fn last_number(left: Option<&[u8]>) -> Option<usize>
    ensures found { IfSome result (λ n. AreWords (number n ∷ []) (texts_left left.entry)) }
    ensures none { IfNone result
        ((n : ℕ) → AreWords (number n ∷ []) (texts_left left.entry) → ⊥) }
{
    let (number, left) = next_number(left)?;
    match left {
        Some(_) => None,
        None => Some(number),
    }
}

// The numbers that are the only two words left.
pub(super) fn last_numbers(left: Option<&[u8]>) -> Option<(usize, usize)>
    ensures found { IfSome result (λ x.
        AreWords (number x.0 ∷ number x.1 ∷ []) (texts_left left.entry)) }
    ensures none { IfNone result
        ((m n : ℕ) → AreWords (number m ∷ number n ∷ []) (texts_left left.entry) → ⊥) }
{
    let (first, left) = next_number(left)?;
    let second = last_number(left)?;
    Some((first, second))
}
