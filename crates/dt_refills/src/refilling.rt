ghost use Rattle.std.specs.Prelude.{◌≡◌, ℕ, ◌+◌, ◌*◌, ◌<◌, ◌≤◌, length, IsTrue};
ghost use Rattle.std.specs.Result.{is_ok};
ghost use Rattle.std.specs.Str.{bytes_eq};
ghost use Rattle.dt_record.specs.declared.reasons.Reason.TheVariants.{Refill as NotRefilled};
ghost use Rattle.dt_record.specs.Lawful.{is_ram_line};
ghost use Rattle.dt_rules.specs.Checks.{first_difference};
ghost use Rattle.dt_versions.specs.Words.{IsSteady};
ghost use Rattle.dt_refills.specs.Refilling.{line_at, refill_check};

use dt_rules::{Misfit, Reason, same_bytes};
use dt_versions::{Moments, Span, steady_words_stay};

/// The bytes of the line after the first k writes.
fn line_at(m: &Moments, k: u32, line: u64) -> [u8; 64]
    requires within { k ≤ length m.now.writes }
    requires line { IsTrue (is_ram_line line) }
    ensures { result ≡ line_at m.now.image m.now.writes k line }
{
    let mut bytes = [0; 64];
    for i in 0..64 {
        bytes[i] = m.byte(k, line + i as u64);
    }
    bytes
}

/// Whether the line had these bytes after the first k writes.
fn had(m: &Moments, k: u32, line: u64, bytes: &[u8; 64]) -> Result<(), Misfit>
    requires within { k ≤ length m.now.writes }
    requires line { IsTrue (is_ram_line line) }
    ensures value { result ≡ first_difference NotRefilled (line_at m.now.image m.now.writes k line) bytes.now }
    ensures same { is_ok result ≡ bytes_eq (line_at m.now.image m.now.writes k line) bytes.now }
{
    same_bytes(Reason::Refill, &line_at(m, k, line), bytes)
}

/// The least moment from which on, up to moment k, none of the line's words changes.
fn steady_words(m: &Moments, k: u32, line: u64) -> u32
    requires within { k ≤ length m.now.writes }
    requires line { IsTrue (is_ram_line line) }
    ensures within { result ≤ k }
    ensures steady { (i : ℕ) → i < 8 → IsSteady m.now.writes (line + 8 * i) result k }
{
    let mut from = 0;
    for i in 0..8 {
        from = u32::max(from, m.steady_from(k, line + 8 * i));
    }
    from
}

/// The least moment from which on, up to moment k, the line stays.
fn steady_from(m: &Moments, k: u32, line: u64) -> u32
    requires within { k ≤ length m.now.writes }
    requires line { IsTrue (is_ram_line line) }
    ensures within { result ≤ k }
    ensures steady { (j : ℕ) → result ≤ j → j ≤ k → line_at m.now.image m.now.writes k line ≡ line_at m.now.image m.now.writes j line }
{
    steady_words_stay();
    steady_words(m, k, line)
}

/// Whether the line of RAM has these bytes at some moment of the span: those that the hart may see
/// at the refill. The misfit names the first byte that differs at the last moment.
pub fn refill(m: &Moments, seen: Span, line: u64, bytes: &[u8; 64]) -> Result<(), Misfit>
    requires within { seen.last ≤ length m.now.writes }
    requires line { IsTrue (is_ram_line line) }
    ensures { result ≡ refill_check m.now.image m.now.writes seen line bytes.now }
{
    let mut k = seen.last;
    'down: while seen.first <= k {
        if had(m, k, line, bytes).is_ok() {
            return Ok(());
        }
        let from = steady_from(m, k, line);
        if from == 0 {
            return had(m, seen.last, line, bytes);
        }
        k = from - 1;
    }
    had(m, seen.last, line, bytes)
}
