//! Where an access is looked for first.
#![tactic(auto)]

ghost use Rattle.std.specs.Prelude.{◌≡◌, ◌+◌, ◌<◌, ◌&&◌, nat_le, nat_lt, IfSome, length};
ghost use Rattle.swi_memory.specs.Bus.{AreInOrder, IsSize};
ghost use Rattle.swi_memory.specs.TextAt.{IsText};
ghost use Rattle.swi_memory.specs.Views.{areas};
ghost use Rattle.swi_memory.specs.Windows.{AreWindows, IsInWindow, IsWindow};

use crate::bank::Bank;
use crate::right::Right;
use crate::text::{Text, is_touched};
use crate::window::{Window, Windows};

/// Whether four bytes from the address on lie in a window.
#[inline(always)]
fn starts_in(window: &Window, a: u32) -> bool
    ensures { result ≡ (nat_le window.now.base a && nat_lt a (window.now.base + window.now.starts)) }
{
    a.wrapping_sub(window.base) < window.starts
}

/// The place of the bank of a window in which four bytes from the address on lie, and so all `n`.
#[inline(always)]
pub fn find_window(windows: &Windows, a: u32, n: u8) -> Option<usize>
    requires { IsSize n }
    ensures { IfSome result (λ i. IsInWindow windows.now a n i) }
{
    let Windows { last, first } = windows;
    if starts_in(last, a) {
        return Some(last.bank);
    }
    if starts_in(first, a) {
        return Some(first.bank);
    }
    None
}

/// The window that the bank at the place is; None where it cannot be read and written, or has a text word's byte.
#[tactic(auto, using(crate::proofs::Looks::bank_end))]
fn window_at(banks: &[Bank], place: usize, text: &Text) -> Option<Window>
    requires order { AreInOrder (areas banks.now) }
    requires text { IsText (areas banks.now) text.now }
    requires place { place < length banks.now }
    ensures { IfSome result (λ w. IsWindow (areas banks.now) w) }
{
    let bank = &banks[place];
    if !Right::Read.grants(bank.flags) || !Right::Write.grants(bank.flags) {
        return None;
    }
    let Ok(len) = u32::try_from(bank.bytes.len()) else {
        return None;
    };
    if is_touched(text, bank.base, len) {
        return None;
    }
    Some(Window {
        base: bank.base,
        starts: len.saturating_sub(3),
        bank: place,
    })
}

/// The windows of the banks; of length 0 where there are none.
pub fn find_windows(banks: &[Bank], text: &Text) -> Windows
    requires order { AreInOrder (areas banks.now) }
    requires text { IsText (areas banks.now) text.now }
    ensures { AreWindows (areas banks.now) result }
{
    let none = Window {
        base: 0,
        starts: 0,
        bank: 0,
    };
    let mut windows = Windows {
        last: none,
        first: none,
    };
    for i in 0..banks.len() {
        if let Some(window) = window_at(banks, i, text) {
            windows.last = window;
            if windows.first.starts == 0 {
                windows.first = window;
            }
        }
    }
    windows
}
