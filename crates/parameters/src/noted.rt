// Calls on any store, each with what every run of calls keeps.
ghost use Rattle.std.specs.Prelude.{◌≡◌, ℕ, ◌≤◌, List, length, is_ok};
ghost use Rattle.parameters.specs.declared.parameter.Parameter.{Parameter};
ghost use Rattle.parameters.specs.Values.{asked, byte_at, lawful, after_write};
ghost use Rattle.parameters.specs.Histories.{History, ◌▸◌, told_length, told_byte, wrote, Run, LeadsOn};

use super::store::{Store, Unlawful};

/// Asks for the length of a value, which a frame can carry. After any calls, the answer is right by the last lawful write.
pub fn ask_length<S: Store>(store: &S, number: u8) -> usize
    ensures length { result ≡ length (asked (S.Store.held store.now) number) }
    ensures within { result ≤ 241 }
    ensures law { (h : History) → Run h (S.Store.held store.now) → LeadsOn (h ▸ told_length number result) (S.Store.held store.now) }
{
    store.length(number)
}

/// Asks for a byte of a value. After any calls, the answer is right by the last lawful write.
pub fn ask_byte<S: Store>(store: &S, number: u8, place: usize) -> Option<u8>
    ensures byte { result ≡ byte_at (asked (S.Store.held store.now) number) place }
    ensures law { (h : History) → Run h (S.Store.held store.now) → LeadsOn (h ▸ told_byte number place result) (S.Store.held store.now) }
{
    store.byte(number, place)
}

/// Writes a value. After any calls, each parameter holds its last lawful write, else what it began with.
pub fn write<S: Store>(store: &mut S, number: u8, value: &[u8]) -> Result<(), Unlawful>
    ensures taken { is_ok result ≡ lawful number value.now }
    ensures held { (p : Parameter) → S.Store.held store.new p ≡ after_write (S.Store.held store.old) number value.now p }
    ensures over { (handed : List ℕ) → S.Store.over store.old handed → S.Store.over store.new handed }
    ensures law { (h : History) → Run h (S.Store.held store.old) → LeadsOn (h ▸ wrote number value.now (is_ok result)) (S.Store.held store.new) }
{
    store.write(number, value)
}
