// Reading decimal numbers from a line.
ghost use Rattle.std.specs.Prelude.{◌≡◌, ◌≢◌, ◌≤◌, ◌++◌, ◌∷◌, slice_index, EachIndex, MatchOption};

use arrayvec::ArrayVec;

// A list of words: one more than a set of vectors, or a list of receivers, may have.
pub type Words = ArrayVec<u64, 65>;

// The number that digits alone write, if it has at most 64 bits.
fn number(digits: &[u8]) -> Option<u64> {
    digits.iter().try_fold(0u64, |number, &byte| {
        let digit = char::from(byte).to_digit(10)?;
        number.checked_mul(10)?.checked_add(u64::from(digit))
    })
}

// The numbers of a text that has at most N, with spaces before, between and after them, and nothing else.
pub fn numbers<const N: usize>(text: &[u8]) -> Option<ArrayVec<u64, N>> {
    let mut numbers = ArrayVec::new();
    for digits in text.split(|&byte| byte == b' ') {
        if !digits.is_empty() {
            numbers.try_push(number(digits)?).ok()?;
        }
    }
    Some(numbers)
}

// The same where a text has just N.
pub fn exactly<const N: usize>(text: &[u8]) -> Option<[u64; N]>
    requires { N ≤ 65 }
{
    numbers(text)?.into_inner().ok()
}

// What stands before the first of a mark in a text, and what after it.
pub fn split_once(text: &[u8], mark: u8) -> Option<(&[u8], &[u8])>
    ensures { MatchOption result (EachIndex text.now (λ k. slice_index text.now k ≢ mark))
        (λ parts. (text.now ≡ parts.0.now ++ mark ∷ parts.1.now)
        × EachIndex parts.0.now (λ k. slice_index parts.0.now k ≢ mark)) }
{
    let at = text.iter().position(|&byte| byte == mark)?;
    Some((&text[..at], &text[at + 1..]))
}

// Two lists with a semicolon between them.
pub fn two_lists(text: &[u8]) -> Option<(Words, Words)> {
    let (first, second) = split_once(text, b';')?;
    Some((numbers(first)?, numbers(second)?))
}

// A line of just N numbers, a colon and a list.
pub fn with_list<const N: usize>(line: &[u8]) -> Option<([u64; N], Words)>
    requires { N ≤ 65 }
{
    let (head, list) = split_once(line, b':')?;
    Some((exactly(head)?, numbers(list)?))
}
