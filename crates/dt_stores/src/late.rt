ghost use Rattle.std.specs.Prelude.{◌≡◌, ◌<◌, ◌-◌, ◌++◌, ◌∷◌, [], true, length, find, slice_get, nat_lt, nat_le, vec_len, vec_capacity};
ghost use Rattle.std.specs.List.{position_or_len};
ghost use Rattle.std.specs.List.Sorted.{IsNonDecreasingBy};
ghost use Rattle.std.specs.Option.{option_copied, option_map_or};
ghost use Rattle.dt_stores.specs.Late.{first_at};
ghost use Rattle.dt_stores.specs.Past.{last_first, without_last};

/// What waited before a drain took its stores.
#[derive(Clone, Copy, Debug)]
pub struct Late {
    /// The cycle of the drain.
    pub stamp: u64,
    /// The place of the store that had waited longest.
    pub first: usize,
}

/// The place of the oldest store that is undrained in a cycle, where the store at `first` is the
/// oldest that waits now.
pub fn first_in_cycle(late: &[Late], first: usize, at: u64) -> usize
    requires { IsNonDecreasingBy (λ l. l.stamp) late.now }
    ensures { result ≡ first_at late.now first at }
{
    match first_after(late, at) {
        Some(l) => l.first,
        None => first,
    }
}

/// The first drain of a later cycle.
fn first_after(late: &[Late], at: u64) -> Option<&Late>
    requires { IsNonDecreasingBy (λ l. l.stamp) late.now }
    ensures { option_copied result ≡ find (λ l. nat_lt at l.stamp) late.now }
{
    late_at(late, place_after(late, at))
}

fn late_at(late: &[Late], place: usize) -> Option<&Late>
    ensures { option_copied result ≡ slice_get late.now place }
{
    late.get(place)
}

fn place_after(late: &[Late], at: u64) -> usize
    requires { IsNonDecreasingBy (λ l. l.stamp) late.now }
    ensures { result ≡ position_or_len (λ l. nat_lt at l.stamp) late.now }
{
    if is_over(late, at) {
        return late.len();
    }
    late.partition_point(|l| l.stamp <= at)
}

/// Whether the last drain is of no later cycle.
fn is_over(late: &[Late], at: u64) -> bool
    ensures { result ≡ option_map_or (λ l. nat_le l.stamp at) (slice_get late.now (length late.now - 1)) true }
{
    match late.last() {
        None => true,
        Some(l) => l.stamp <= at,
    }
}

/// Adds what waited before one more drain.
pub fn push_late(late: &mut Vec<Late>, stamp: u64, first: usize)
    requires { vec_len late.old < vec_capacity late.old }
    ensures { late.new.items ≡ late.old.items ++ record { stamp = stamp; first = first } ∷ [] }
{
    let _ = late.push(Late { stamp, first });
}

/// Drops what waited before the last drain. The answer is the place of what waits first without it.
pub fn pop_late(late: &mut Vec<Late>, first: usize) -> usize
    ensures first { result ≡ last_first late.old.items first }
    ensures late { late.new.items ≡ without_last late.old.items }
{
    let before = first_before(late, first);
    let _ = late.pop();
    before
}

fn first_before(late: &[Late], first: usize) -> usize
    ensures { result ≡ last_first late.now first }
{
    match late.last() {
        None => first,
        Some(l) => l.first,
    }
}
