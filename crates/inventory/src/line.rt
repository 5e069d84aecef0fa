// What one line of an inventory says.
ghost use Rattle.std.specs.Prelude.{◌≡◌, ◌<◌, ◌≤◌, true, [], ◌∷◌, drop, slice_index_or, IfOk, MatchOption, MatchResult};
ghost use Rattle.inventory.specs.declared.fault.Fault.TheVariants.{Missing};
ghost use Rattle.std.specs.Str.{all_ascii_digits};
ghost use Rattle.std.specs.Str.Parse.{digits_value};
ghost use Rattle.kinds.specs.Labels.{is_label};
ghost use Rattle.inventory.specs.Lines.{number_in, label_in, row_of, words, words_left, meaning};

use crate::fault::{Fault, Field};
use crate::front::{is_gap, split_front};
use crate::words::Words;
use kinds::label::Label;
use kinds::rows::slot::SlotRow;

// What a line says: a row, or why there is none: the fault where it is refused, and none where it is empty or a comment alone.
// No `Option` in the `Ok`: its tag beside that of the `Result` would make a line 32 bytes in place of 24.
pub type Line = Result<SlotRow, Option<Fault>>;

// Whether every byte is a digit.
fn all_digits(word: &[u8]) -> bool
    ensures { result ≡ all_ascii_digits word.now }
{
    word.iter().all(u8::is_ascii_digit)
}

// The number that digits write, where it is at most `most`. The sum stops once it passes `most`, so it fits however long the word is.
// A loop: std's `parse` takes text, so every word would first be tested for UTF-8, and a fold that saturates took half as long again.
fn value(digits: &[u8], most: u32) -> Option<u32>
    requires { all_ascii_digits digits.now ≡ true }
    ensures { MatchOption result (most < digits_value 10 digits.now) (λ n. (n ≡ digits_value 10 digits.now) × (n ≤ most)) }
{
    let mut value: u64 = 0;
    for digit in digits {
        value = value * 10 + u64::from(digit.saturating_sub(b'0'));
        if value > u64::from(most) {
            return None;
        }
    }
    Some(value as u32)
}

// A word as the number of a field. An empty one is missing: the program hands its argument on as it is.
pub fn number(word: &[u8], field: Field, most: u32) -> Result<u32, Fault>
    ensures value { result ≡ number_in field most word.now }
    ensures within { IfOk result (λ n. n ≤ most) }
{
    if word.is_empty() {
        return Err(Fault::Missing { field });
    }
    if !all_digits(word) {
        return Err(Fault::NotANumber { field });
    }
    value(word, most).ok_or(Fault::TooLarge { field })
}

// A word as the number of a label. An empty one is missing, as for `number`.
pub fn label_number(word: &[u8]) -> Result<u64, Fault>
    ensures value { result ≡ label_in word.now }
    ensures labelled { IfOk result (λ n. is_label n ≡ true) }
{
    if word.is_empty() {
        return Err(Fault::Missing {
            field: Field::Label,
        });
    }
    Ok(Label::try_from(word)?.into())
}

// Here, since only a line has fields.
impl<'a> Words<'a> {
    // The next word, which is for a field.
    fn next_word(&mut self, field: Field) -> Result<&'a [u8], Fault>
        ensures word { MatchResult result (λ word. words_left self.old ≡ word.now ∷ words_left self.new) (λ fault. (words_left self.old ≡ []) × (fault ≡ Missing field)) }
        ensures rest { words_left self.new ≡ drop 1 (words_left self.old) }
    {
        self.next().ok_or(Fault::Missing { field })
    }

    // The next word as the number of a field.
    fn next_number(&mut self, field: Field, most: u32) -> Result<u32, Fault>
        ensures value { result ≡ number_in field most (slice_index_or (words_left self.old) 0 []) }
        ensures within { IfOk result (λ n. n ≤ most) }
        ensures rest { words_left self.new ≡ drop 1 (words_left self.old) }
    {
        number(self.next_word(field)?, field, most)
    }

    // The next word as the number of a label.
    fn next_label(&mut self) -> Result<u64, Fault>
        ensures value { result ≡ label_in (slice_index_or (words_left self.old) 0 []) }
        ensures labelled { IfOk result (λ n. is_label n ≡ true) }
        ensures rest { words_left self.new ≡ drop 1 (words_left self.old) }
    {
        label_number(self.next_word(Field::Label)?)
    }
}

// The row that the words of a text write, or the first fault. A comment is cut off before.
pub fn read_row(text: &[u8]) -> Result<SlotRow, Fault>
    ensures value { result ≡ row_of (words text.now) }
    ensures labelled { IfOk result (λ row. is_label row.label ≡ true) }
{
    let mut words = Words::new(text);
    let address = words.next_number(Field::Address, 65535)?;
    let label = words.next_label()?;
    let gigabytes = words.next_number(Field::Gigabytes, 4294967295)?;
    let day = words.next_number(Field::Day, 65535)?;
    if words.next().is_some() {
        return Err(Fault::ExtraWord);
    }
    // Both are at most 65,535, so `as` is proved to lose nothing.
    Ok(SlotRow {
        label,
        gigabytes,
        address: address as u16,
        day: day as u16,
    })
}

// What a line says, its comment cut off.
pub fn read_line(line: &[u8]) -> Line
    ensures value { result ≡ meaning line.now }
    ensures labelled { IfOk result (λ row. is_label row.label ≡ true) }
{
    let (text, _) = split_front(line, |byte| byte != b'#');
    if text.iter().all(|byte| is_gap(*byte)) {
        return Err(None);
    }
    read_row(text).map_err(Some)
}
