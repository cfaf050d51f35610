//! Where the text words lie.
#![tactic(auto)]

ghost use Rattle.std.specs.Prelude.{◌≡◌, ◌+◌, ◌%◌, ◌≤◌, ◌^◌, ℕ, List, length, true};
ghost use Rattle.swi_memory.specs.Bus.{AreaData, AreInOrder, Execute, fetched, grants, is_text_word, touches_text};
ghost use Rattle.swi_memory.specs.TextAt.{HasOne, IsText, IsTextOf};
ghost use Rattle.swi_memory.specs.Views.{area, areas};
ghost use Rattle.swi_memory.specs.WordRange.{IsWordRange, in_range};

use crate::bank::Bank;
use crate::loads::number;
use crate::right::Right;
use crate::word_range::WordRange;

/// The text words: `len` bytes from the address `from` on, both multiples of 4, in the bank at place
/// `bank`, behind so many of its bytes. Where there are none, `len` is 0.
#[derive(Clone, Copy)]
pub struct Text {
    pub bank: usize,
    pub skipped: u32,
    pub from: u32,
    pub len: u32,
}

/// The word that stands at a text word's address, which is a multiple of 4.
#[inline(always)]
#[tactic(auto, using(crate::proofs::Texts::word))]
pub fn fetch_aligned(banks: &[Bank], text: &Text, a: u32) -> Option<u32>
    requires order { AreInOrder (areas banks.now) }
    requires text { IsText (areas banks.now) text.now }
    requires aligned { a % 4 ≡ 0 }
    ensures { result ≡ fetched (areas banks.now) a }
{
    let distance = a.wrapping_sub(text.from);
    if distance >= text.len {
        return None;
    }
    let bank = &banks[text.bank];
    Some(number(&bank.bytes, text.skipped as usize + distance as usize, 4))
}

/// The word that stands at a text word's address.
#[inline(always)]
pub fn fetch(banks: &[Bank], text: &Text, a: u32) -> Option<u32>
    requires order { AreInOrder (areas banks.now) }
    requires text { IsText (areas banks.now) text.now }
    ensures { result ≡ fetched (areas banks.now) a }
{
    if a % 4 != 0 {
        return None;
    }
    fetch_aligned(banks, text, a)
}

/// The range of the text words.
#[tactic(auto, using(crate::proofs::Texts::are_words))]
pub fn range(text: &Text) -> WordRange
    ensures range { (bus : List AreaData) → IsText bus text.now → IsWordRange result }
    ensures words { (bus : List AreaData) → IsText bus text.now →
        (a : ℕ) → is_text_word bus a ≡ in_range result a }
{
    WordRange {
        from: text.from,
        words: text.len / 4,
    }
}

/// Whether one of n bytes from the address on is a text word's.
#[inline(always)]
#[tactic(auto, using(crate::proofs::Texts::touches))]
pub fn is_touched(text: &Text, a: u32, n: u32) -> bool
    ensures { (bus : List AreaData) → IsText bus text.now → result ≡ touches_text bus a n }
{
    let from = u64::from(text.from);
    let first = u64::from(a);
    let end = (from + u64::from(text.len)).min(first + u64::from(n));
    from.max(first) < end
}

/// The text words of a bank that can be executed: the whole words among the bytes of its file.
fn text_in(bank: &Bank, place: usize) -> Text
    requires file_size { bank.now.file_size ≤ length bank.now.bytes.items }
    requires end { bank.now.base + length bank.now.bytes.items ≤ 2 ^ 32 }
    requires executable { grants Execute bank.now.flags ≡ true }
    ensures { IsTextOf (area bank.now) place result }
{
    let size = bank.file_size;
    let skipped = (4 - bank.base % 4) % 4;
    if size < skipped + 4 {
        return Text {
            bank: place,
            skipped: 0,
            from: 0,
            len: 0,
        };
    }
    Text {
        bank: place,
        skipped,
        from: bank.base + skipped,
        len: (size - skipped) / 4 * 4,
    }
}

/// Where the text words of the banks lie.
#[tactic(auto, using(crate::proofs::Looks::bank_end, crate::proofs::Looks::bank_place))]
pub fn find_text(banks: &[Bank]) -> Text
    requires order { AreInOrder (areas banks.now) }
    requires one { HasOne (areas banks.now) }
    ensures { IsText (areas banks.now) result }
{
    for (i, bank) in banks.iter().enumerate() {
        if Right::Execute.grants(bank.flags) {
            return text_in(bank, i);
        }
    }
    Text {
        bank: 0,
        skipped: 0,
        from: 0,
        len: 0,
    }
}
