ghost use Rattle.std.specs.Prelude.{◌≡◌, ◌+◌, ◌≤◌, ◌<◌, length};

use crate::plain;
use crate::writes::{next, some_key, some_moments};
use dt_record::{Key, RAM_START, Write};
use dt_versions::Moments;
use std::test::Fail;

/// Whether the byte, its source, its word and the word's stretch at a moment are those that the
/// plain searches find.
fn is_same_byte(m: &Moments, writes: &[Write], k: u32, addr: u64) -> bool
    requires within { k ≤ length m.now.writes }
    requires in_ram { 0x8000_0000 ≤ addr }
    requires before_end { addr < 0x8400_0000 }
{
    m.byte(k, addr) == plain::byte(writes, k, addr)
        && m.source(k, addr) == plain::source(writes, k, addr)
        && m.word(k, addr - addr % 8) >> (addr % 8 * 8) & 0xff
            == u64::from(plain::byte(writes, k, addr))
        && m.steady_from(k, addr) == plain::steady_from(writes, k, addr)
        && m.next_change(k, addr) == plain::next_change(writes, k, addr)
}

/// Whether what a record sees is what the plain searches find.
fn is_same_view(m: &Moments, writes: &[Write], key: Key, at: u64) -> bool
    requires { at ≤ key.stamp }
{
    m.visible(key, at) == plain::visible(writes, key, at)
        && m.count_below(key) == plain::count_below(writes, key)
}

fn is_same_touch(m: &Moments, writes: &[Write], from: Key, to: Key, but: u8) -> bool {
    m.touched(RAM_START, from, to, but) == plain::touched(writes, RAM_START, from, to, but)
}

#[test]
fn bytes_and_words(rt: HostRuntime) -> Result<(), Fail> {
    for seed in 0..200 {
        let (moments, writes) = some_moments(rt.alloc(), next(seed))?;
        for k in 0..13 {
            for place in [0, 1, 2, 7, 8, 31, 63, 64, 70, 127, 128] {
                if k <= moments.count() {
                    let is_same = is_same_byte(&moments, &writes, k, RAM_START + place);
                    assert!(rt; is_same, "seed {seed}, moment {k}, place {place}");
                }
            }
        }
    }
    Ok(())
}

#[test]
fn views(rt: HostRuntime) -> Result<(), Fail> {
    for seed in 0..500 {
        let (moments, writes) = some_moments(rt.alloc(), next(seed))?;
        let mut seed = next(seed);
        for seq in 0..12 {
            let key = some_key(seed, 4 + seed / 64 % 8, seq);
            let at = seed / 512 % 12;
            if at <= key.stamp {
                let is_same = is_same_view(&moments, &writes, key, at);
                assert!(rt; is_same, "seed {seed}, {key:?} at {at}");
            }
            let from = some_key(next(seed), at, (seed / 4096 % 12) as u32);
            let is_same = is_same_touch(&moments, &writes, from, key, (seed / 32 % 2) as u8);
            assert!(rt; is_same, "seed {seed}, from {from:?} to {key:?}");
            seed = next(seed);
        }
    }
    Ok(())
}
