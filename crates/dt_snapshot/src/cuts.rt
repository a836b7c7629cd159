ghost use Rattle.std.specs.Prelude.{◌≡◌, ◌≤◌, ℕ, Some, IsSome, min};
ghost use Rattle.std.specs.Option.{option_map_or};
ghost use Rattle.dt_snapshot.specs.Cuts.{newer_cut, older_cut, least_reach};

/// How far a hart has come.
#[derive(Clone, Copy, Debug, PartialEq, Eq)]
pub enum Reach {
    /// To a record of this cycle.
    Stamp(u64),
    /// To its end.
    Ended,
}

/// Two cuts, one after the other.
#[derive(Clone, Copy, Debug, PartialEq, Eq)]
pub struct Cuts {
    pub older: u64,
    pub newer: u64,
}

/// The lesser of a cycle and the least of others, where there is one.
fn lesser(stamp: u64, least: Option<u64>) -> u64
    ensures { result ≡ option_map_or (λ other. min stamp other) least stamp }
{
    match least {
        Some(least) => stamp.min(least),
        None => stamp,
    }
}

/// The least cycle that harts have reached, where one has not ended.
fn least_reach(reached: &[Reach]) -> Option<u64>
    ensures { result ≡ least_reach reached.now }
{
    let mut least = None;
    for place in (0..reached.len()).rev() {
        if let Reach::Stamp(stamp) = reached[place] {
            least = Some(lesser(stamp, least));
        }
    }
    least
}

/// The greatest cut that is not above a cycle.
pub(crate) fn newer_cut(interval: u64, stamp: u64) -> u64
    requires { 1 ≤ interval }
    ensures { result ≡ newer_cut interval stamp }
{
    stamp / interval * interval
}

/// The newest cut that all harts have reached, and the one before it.
pub fn newest_complete(reached: &[Reach], interval: u64) -> Cuts
    requires some_cycle { IsSome (least_reach reached.now) }
    requires some_interval { 1 ≤ interval }
    ensures newer { (least : ℕ) → least_reach reached.now ≡ Some least → result.newer ≡ newer_cut interval least }
    ensures older { (least : ℕ) → least_reach reached.now ≡ Some least → result.older ≡ older_cut interval least }
{
    match least_reach(reached) {
        Some(least) => {
            let newer = newer_cut(interval, least);
            Cuts {
                older: newer.saturating_sub(interval),
                newer,
            }
        }
        None => unreachable!(),
    }
}
