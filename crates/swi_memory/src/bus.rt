//! The memory of a machine.
#![tactic(auto)]

ghost use Rattle.std.specs.Prelude.{◌≡◌, ◌+◌, ◌*◌, ◌<◌, ◌≤◌, ◌^◌, ◌%◌, ℕ, true, false, length, slice_get, IfOk, IfSome, IsSomeAnd, Ok, OnOk, OnErr};
ghost use Rattle.swi_memory.specs.Bus.{AreInOrder, IsSize, Read, Right, Write, bytes_at, fetched, front_of, holds, is_text_word, lets_store, loaded, stored, touches_text, with_bytes};
ghost use Rattle.swi_memory.specs.BusOf.{AreApart, HasOneTextAtMost, bus_of, ranges, word_in};
ghost use Rattle.swi_memory.specs.WordRange.{IsWordRange, in_range};

use crate::access::Access;
use crate::area::Area;
use crate::bank::Bank;
use crate::gather::gather;
use crate::layout::Layout;
use crate::right::Right;
use crate::segment::Segment;
use crate::text::Text;
use crate::window::Windows;
use crate::windows::find_windows;
use crate::word_range::WordRange;
use crate::{copies, loads, ranges, stores, text};
use std::alloc::Global;
use std::marker::Model;
use swi_outside::Memory;

/// The segments of a program with the bytes that stand there now, its heap and its stack. Addresses
/// and lengths are in bytes; numbers are little-endian.
///
/// Source: RISC-V unprivileged specification, section 1.4 "Memory" and section 2.6 "Load and Store
/// Instructions". An access that passes address 2^32 - 1 is refused, a misaligned one works byte by
/// byte, and only text words are fetched.
#[derive(Drop)]
pub struct Bus {
    banks: Vec<Bank>,
    text: Text,
    windows: Windows,
}

impl Model for Bus {
    ghost use Rattle.std.specs.Prelude.{List};
    ghost use Rattle.swi_memory.specs.Bus.{AreaData};

    ghost Value = { List AreaData };

    ghost use Rattle.swi_memory.specs.BusView.{areas_of, IsBus};

    ghost view = { areas_of };

    ghost invariant = { IsBus };
}

impl Bus {
    /// The bus at the start of a run: each segment's bytes with zeros behind them, the heap and the
    /// stack. No two of the segments and regions share an address, none ends past 2^32, and one segment
    /// at most can be executed. Memory where there is not enough memory, or where more areas than
    /// 2^32 - 1 are asked for.
    #[tactic(auto, using(crate::proofs::StartText::start))]
    pub fn new(alloc: Global, segments: &[Segment<'_>], l: &Layout) -> Result<Bus, Memory>
        requires apart { AreApart (ranges segments.now l.now) }
        requires heap_end { l.now.heap + l.now.heap_len ≤ 2 ^ 32 }
        requires stack_end { l.now.stack + l.now.stack_len ≤ 2 ^ 32 }
        requires one_text { HasOneTextAtMost segments.now }
        ensures start { IfOk result (λ bus. bus ≡ bus_of segments.now l.now) }
        ensures order { IfOk result AreInOrder }
        ensures text { IfOk result (λ bus. (a : ℕ) → fetched bus a ≡ word_in segments.now a) }
    {
        let banks = gather(alloc, segments, l)?;
        if banks.len() > u32::MAX as usize {
            return Err(Memory);
        }
        let text = text::find_text(&banks);
        let windows = find_windows(&banks, &text);
        Ok(Bus {
            banks,
            text,
            windows,
        })
    }

    /// The number that the `k` bytes from the address on make; `k` is 1, 2 or 4. Access exactly where
    /// one of them cannot be read.
    #[inline(always)]
    pub fn load(&self, a: u32, k: u8) -> Result<u32, Access>
        requires { IsSize k }
        ensures value { result ≡ loaded self.now a k }
        ensures small { IfOk result (λ v. v < 2 ^ (8 * k)) }
    {
        loads::load(&self.banks, &self.windows, a, k)
    }

    /// What `load` answers, where the bytes lie in an area that it looks into first; None says nothing of them. For a loop
    /// that leaves each other load to a function of its own.
    #[inline(always)]
    pub fn load_in_window(&self, a: u32, k: u8) -> Option<u32>
        requires { IsSize k }
        ensures value { IfSome result (λ v. Ok v ≡ loaded self.now a k) }
        ensures small { IfSome result (λ v. v < 2 ^ (8 * k)) }
    {
        loads::load_in_window(&self.banks, &self.windows, a, k)
    }

    /// Puts the lowest `k` bytes of `v` from the address on; `k` is 1, 2 or 4. Access exactly where
    /// one of them cannot be written, and then nothing changes. Rights stay, and where none of the bytes is
    /// a text word's, so does what is fetched.
    #[inline(always)]
    #[tactic(auto, using(crate::proofs::Written::same_rights, crate::proofs::Written::same_text))]
    pub fn store(&mut self, a: u32, k: u8, v: u32) -> Result<(), Access>
        requires { IsSize k }
        ensures ok { OnOk result (holds self.old Write a k ≡ true) }
        ensures bytes { OnOk result (self.new ≡ stored self.old a k v) }
        ensures refused { OnErr result (holds self.old Write a k ≡ false) }
        ensures unchanged { OnErr result (self.new ≡ self.old) }
        ensures text { touches_text self.old a k ≡ false → (x : ℕ) → fetched self.new x ≡ fetched self.old x }
        ensures rights { (right : Right) → (x n : ℕ) → holds self.new right x n ≡ holds self.old right x n }
    {
        stores::store(&mut self.banks, &self.windows, a, k, v)
    }

    /// Puts the lowest `k` bytes of `v` from the address on, where each can be written and none is a text
    /// word's; `k` is 1, 2 or 4. False, and nothing changed, exactly where not. What is fetched stays.
    #[inline(always)]
    pub fn store_beside_text(&mut self, a: u32, k: u8, v: u32) -> bool
        requires { IsSize k }
        ensures made { result ≡ lets_store self.old a k }
        ensures stored { result ≡ true → self.new ≡ stored self.old a k v }
        ensures refused { result ≡ false → self.new ≡ self.old }
        ensures text { (x : ℕ) → fetched self.new x ≡ fetched self.old x }
    {
        stores::store_beside_text(&mut self.banks, &self.windows, &self.text, a, k, v).is_ok()
    }

    /// The range of the text words; of no words where nothing is fetched. No write moves it, so who keeps
    /// something of each text word finds it by the word's place in the range.
    pub fn text_range(&self) -> WordRange
        ensures range { IsWordRange result }
        ensures words { (a : ℕ) → is_text_word self.now a ≡ in_range result a }
    {
        text::range(&self.text)
    }

    /// The text word that stands now at the address. None exactly where no text word stands.
    #[inline(always)]
    pub fn fetch(&self, a: u32) -> Option<u32>
        ensures value { result ≡ fetched self.now a }
        ensures aligned { IfSome result (λ _. a % 4 ≡ 0) }
    {
        text::fetch(&self.banks, &self.text, a)
    }

    /// The text word that stands now at the address, a multiple of 4, as `fetch` gives it: so who knows that it is one
    /// need not have it tested. None exactly where no text word stands.
    #[inline(always)]
    pub fn fetch_aligned(&self, a: u32) -> Option<u32>
        requires { a % 4 ≡ 0 }
        ensures { result ≡ fetched self.now a }
    {
        text::fetch_aligned(&self.banks, &self.text, a)
    }

    /// Whether each of the `n` bytes from the address on can be read. Of no byte, true.
    pub fn readable(&self, a: u32, n: u32) -> bool
        ensures { result ≡ holds self.now Read a n }
    {
        ranges::are_held(&self.banks, Right::Read, a, n)
    }

    /// Whether each of the `n` bytes from the address on can be written. Of no byte, true.
    pub fn writable(&self, a: u32, n: u32) -> bool
        ensures { result ≡ holds self.now Write a n }
    {
        ranges::are_held(&self.banks, Right::Write, a, n)
    }

    /// Whether one of the `n` bytes from the address on is a text word's. Of no byte, false.
    #[inline(always)]
    pub fn touches_text(&self, a: u32, n: u32) -> bool
        ensures { result ≡ touches_text self.now a n }
    {
        text::is_touched(&self.text, a, n)
    }

    /// The longest front of the `n` bytes from the address on that lies in one segment or region: at
    /// least one byte. `n` is positive, and each of the bytes can be read.
    pub fn front(&self, a: u32, n: u32) -> &[u8]
        requires some { 0 < n }
        requires readable { holds self.now Read a n ≡ true }
        ensures value { result.now ≡ front_of self.now a n }
        ensures some { 0 < length result.now }
        ensures short { length result.now ≤ n }

        // Said beside `value`, so that a caller that writes in pieces needs no fact about areas.
        ensures bytes { result.now ≡ bytes_at self.now a (length result.now) }
    {
        ranges::front(&self.banks, a, n)
    }

    /// Puts the bytes of `piece`, at most 2^26 of them, from the address on. Access exactly where one
    /// of them cannot be written, and then nothing changes. Rights stay, and where none of the bytes is a
    /// text word's, so does what is fetched.
    #[tactic(auto, using(crate::proofs::Written::same_rights, crate::proofs::Written::same_text))]
    pub fn copy_in(&mut self, a: u32, piece: &[u8]) -> Result<(), Access>
        requires { length piece.now ≤ 2 ^ 26 }
        ensures ok { OnOk result (holds self.old Write a (length piece.now) ≡ true) }
        ensures bytes { OnOk result (self.new ≡ with_bytes self.old a piece.now) }
        ensures refused { OnErr result (holds self.old Write a (length piece.now) ≡ false) }
        ensures unchanged { OnErr result (self.new ≡ self.old) }
        ensures text { touches_text self.old a (length piece.now) ≡ false →
            (x : ℕ) → fetched self.new x ≡ fetched self.old x }
        ensures rights { (right : Right) → (x n : ℕ) → holds self.new right x n ≡ holds self.old right x n }
    {
        copies::copy_in(&mut self.banks, a, piece)
    }

    /// The number of segments and regions that have at least one byte.
    pub fn areas(&self) -> u32
        ensures count { result ≡ length self.now }
        ensures order { AreInOrder self.now }
    {
        self.banks.len() as u32
    }

    /// The segment or region at place `k` of those that have a byte, in ascending order of address,
    /// with its bytes as they stand now. `k` counts from 0 and is below `areas()`.
    pub fn area(&self, k: u32) -> Area<'_>
        requires { k < length self.now }
        ensures { IsSomeAnd (slice_get self.now k) (λ s.
            (result.base ≡ s.base) × (result.flags ≡ s.flags) × (result.bytes.now ≡ s.bytes)) }
    {
        let bank = &self.banks[k as usize];
        Area {
            base: bank.base,
            flags: bank.flags,
            bytes: &bank.bytes,
        }
    }
}
