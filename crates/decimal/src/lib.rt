// Numbers as text in base ten, put into a text from an index on, or at the end of a page. Helpers between crates: each
// asks that the text has room.

#![tactic(auto)]

ghost use Rattle.std.specs.Prelude.{◌≡◌, ◌++◌, ◌+◌, ◌*◌, ◌≤◌, length, drop};
ghost use Rattle.arrayvec.specs.ArrayVec.{array_vec_len};
ghost use Rattle.words.specs.Writing.{written};
ghost use Rattle.decimal.specs.Decimal.{decimal, numbers_end};

use arrayvec::ArrayVec;

// A text as it grows. 4,142 bytes hold the longest report: 110 for line one, and 84 for each of 48 nets.
pub type Page = ArrayVec<u8, 4142>;

// The digits of a number at the end of a buffer, which has room for those of each; returns where they start.
#[tactic(auto, using(crate::proofs::Numerals::first_put, crate::proofs::Numerals::digit_put, crate::proofs::Numerals::place_less))]
fn digits_at_end(n: u64, buffer: &mut [u8; 20]) -> usize
    ensures { (result ≤ 19) × (drop result buffer.new ≡ decimal n) }
{
    let mut rest = n;
    for start in (0..20).rev() {
        buffer[start] = b'0' + (rest % 10) as u8;
        rest /= 10;
        if rest == 0 {
            return start;
        }
    }
    0
}

// A number into a text from an index on; returns the index past it.
pub fn put_decimal(text: &mut [u8], at: usize, n: u64) -> usize
    requires { at + 20 ≤ length text.old }
    ensures { (result ≡ at + length (decimal n)) × (text.new ≡ written text.old at (decimal n)) }
{
    let mut buffer = [0u8; 20];
    let start = digits_at_end(n, &mut buffer);
    let end = at + (20 - start);
    text[at..end].copy_from_slice(&buffer[start..]);
    end
}

// Numbers with a space before each, and a newline, into a text from an index on; returns the index past them.
pub fn put_numbers(text: &mut [u8], at: usize, numbers: &[u64]) -> usize
    requires { at + 21 * length numbers.now + 1 ≤ length text.old }
    ensures { (result ≡ at + length (numbers_end numbers.now))
        × (text.new ≡ written text.old at (numbers_end numbers.now)) }
{
    let mut end = at;
    for &n in numbers {
        text[end] = b' ';
        end = put_decimal(text, end + 1, n);
    }
    text[end] = b'\n';
    end + 1
}

// A line of a word and numbers into a text from an index on; returns the index past it.
pub fn put_line(text: &mut [u8], at: usize, word: &[u8], numbers: &[u64]) -> usize
    requires { at + length word.now + 21 * length numbers.now + 1 ≤ length text.old }
    ensures { (result ≡ at + length (word.now ++ numbers_end numbers.now))
        × (text.new ≡ written text.old at (word.now ++ numbers_end numbers.now)) }
{
    let end = at + word.len();
    text[at..end].copy_from_slice(word);
    put_numbers(text, end, numbers)
}

// A number at the end of a page.
pub fn append_decimal(text: &mut Page, n: u64)
    requires { array_vec_len text.old + length (decimal n) ≤ 4142 }
    ensures { text.new.items ≡ text.old.items ++ decimal n }
{
    let mut buffer = [0u8; 20];
    let start = digits_at_end(n, &mut buffer);
    for &digit in &buffer[start..] {
        text.push(digit);
    }
}

// Numbers with a space before each, and a newline, at the end of a page.
pub fn append_numbers(text: &mut Page, numbers: &[u64])
    requires { array_vec_len text.old + length (numbers_end numbers.now) ≤ 4142 }
    ensures { text.new.items ≡ text.old.items ++ numbers_end numbers.now }
{
    for &n in numbers {
        text.push(b' ');
        append_decimal(text, n);
    }
    text.push(b'\n');
}

// A line of a word and numbers at the end of a page.
pub fn append_line(text: &mut Page, word: &[u8], numbers: &[u64])
    requires { array_vec_len text.old + length (word.now ++ numbers_end numbers.now) ≤ 4142 }
    ensures { text.new.items ≡ text.old.items ++ (word.now ++ numbers_end numbers.now) }
{
    for &byte in word {
        text.push(byte);
    }
    append_numbers(text, numbers);
}
