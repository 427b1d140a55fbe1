//! Whether events lie in the text, between characters, and never go back.
ghost use Rattle.std.specs.Prelude.{◌≡◌, ◌≤◌, ◌<◌, ◌&&◌, ℕ, List, length, true, take, nat_le, IfSome, is_some};
ghost use Rattle.std.specs.Str.{is_utf8, IsUtf8};
ghost use Rattle.event_grammar.specs.Points.{IsFront, reaches, is_spot, is_column};
ghost use Rattle.event_grammar.specs.Phases.{phase_at, is_column_by};

use event_grammar::Spot;
use event_grammar::phase::phase_after;

/// An index whose column is known: how many columns are between it and the tab stop before it.
///
/// Columns are asked for at tabs alone, and are counted on from the last index where they were.
#[derive(Clone, Copy)]
pub struct Known {
    pub index: usize,
    /// From 0 to 3.
    pub phase: u8,
}

/// The longest front of some bytes that is UTF-8.
pub fn front_of(bytes: &[u8]) -> &str
    ensures { IsFront bytes.now result.now }
{
    match std::str::from_utf8(bytes) {
        Ok(text) => text,
        Err(error) => whole(&bytes[..error.valid_up_to()]),
    }
}

/// Bytes as a text, which they are.
fn whole(bytes: &[u8]) -> &str
    requires { IsUtf8 bytes.now }
    ensures { result.now ≡ bytes.now }
{
    match std::str::from_utf8(bytes) {
        Ok(text) => text,
        Err(_) => "",
    }
}

/// Whether an event may be at a place after the last one, in bytes with this front. Answers whose
/// column is known then.
#[inline(always)]
pub fn place(bytes: &[u8], front: &str, from: Spot, known: Known, to: Spot) -> Option<Known>
    requires front { IsFront bytes.now front.now }
    requires known { known.index ≤ from.index }
    requires phase { known.phase ≡ phase_at bytes.now known.index }
    ensures answer { is_some result ≡ (reaches from to && is_spot bytes.now to) }
    ensures known { IfSome result (λ next. next.index ≤ to.index) }
    ensures phase { IfSome result (λ next. next.phase ≡ phase_at bytes.now next.index) }
    ensures same { to.vs ≡ 0 → IfSome result (λ next. next ≡ known) }
{
    if !reaches(from, to) || !is_between(front, to.index) {
        return None;
    }
    if to.vs == 0 {
        return Some(known);
    }
    known_at(bytes, known, to)
}

/// Whether an event may be at a place after the last one, where neither cuts a tab.
#[inline(always)]
pub fn is_place(front: &str, from: Spot, to: Spot) -> bool
    ensures whole { result ≡ true → (from.vs ≡ 0) × (to.vs ≡ 0) }
    ensures place { (bytes : List ℕ) → IsFront bytes front.now → result ≡ true → (reaches from to && is_spot bytes to) ≡ true }
{
    from.vs == 0 && to.vs == 0 && from.index <= to.index && is_between(front, to.index)
}

/// Whether an event may be at a place after the last one, which lies in the text, where neither cuts
/// a tab.
#[inline(always)]
pub fn is_next(front: &str, from: Spot, to: Spot) -> bool
    ensures place { (bytes : List ℕ) → IsFront bytes front.now → is_spot bytes from ≡ true → result ≡ true → (reaches from to && is_spot bytes to) ≡ true }
    ensures after { result ≡ true → from.index ≤ to.index }
{
    from.vs == 0
        && to.vs == 0
        && (from.index == to.index || is_further(front, from.index, to.index))
}

/// Whether an index is after another, and lies in the bytes with this front, between characters.
#[inline(always)]
fn is_further(front: &str, from: usize, index: usize) -> bool
    ensures after { result ≡ true → from < index }
    ensures between { (bytes : List ℕ) → IsFront bytes front.now → result ≡ true → (nat_le index (length bytes) && is_utf8 (take index bytes)) ≡ true }
{
    from < index && is_between(front, index)
}

/// Whether an index lies in the bytes with this front, between characters.
fn is_between(front: &str, index: usize) -> bool
    ensures between { (bytes : List ℕ) → IsFront bytes front.now → result ≡ (nat_le index (length bytes) && is_utf8 (take index bytes)) }
    ensures within { (bytes : List ℕ) → IsFront bytes front.now → result ≡ true → index ≤ length bytes }
{
    front.is_char_boundary(index)
}

/// Whether columns of a tab are before a place, counted on from where they are known.
#[inline(never)]
fn known_at(bytes: &[u8], known: Known, to: Spot) -> Option<Known>
    requires within { to.index ≤ length bytes.now }
    requires known { known.index ≤ to.index }
    requires phase { known.phase ≡ phase_at bytes.now known.index }
    ensures answer { is_some result ≡ is_column bytes.now to }
    ensures known { IfSome result (λ next. next.index ≤ to.index) }
    ensures phase { IfSome result (λ next. next.phase ≡ phase_at bytes.now next.index) }
{
    let next = phase_after(bytes, known.index, known.phase, to.index);
    if is_column(bytes, to, next) {
        Some(Known {
            index: to.index,
            phase: next,
        })
    } else {
        None
    }
}

/// Whether the one place is the other, or after it.
fn reaches(from: Spot, to: Spot) -> bool
    ensures { result ≡ reaches from to }
{
    from.index < to.index || from.index == to.index && from.vs <= to.vs
}

/// Columns are before a place only at a tab, and fewer than the tab has there.
fn is_column(bytes: &[u8], at: Spot, phase: u8) -> bool
    requires { phase < 4 }
    ensures { result ≡ is_column_by bytes.now at phase }
{
    at.vs == 0 || at.index < bytes.len() && bytes[at.index] == b'\t' && at.vs < 4 - phase
}
