ghost use Rattle.std.specs.Prelude.{◌≡◌, ◌↔◌, ◌≤◌, ◌==◌, nat_lt, nat_le, true, false, length};
ghost use Rattle.std.specs.List.{filter};
ghost use Rattle.std.specs.List.Sorted.{IsNonDecreasingBy, IsPartitionPoint};
ghost use Rattle.ap_fst.specs.Lists.{IsIn, IsKeyRange};
ghost use Rattle.ap_live.specs.Spreads.{arrival_to};

/// A state that was reached, and the place of an edge by which it was reached.
#[derive(Clone, Copy, Debug)]
pub struct Arrival {
    pub to: usize,
    pub edge: usize,
}

fn sort_all(arrivals: &mut Vec<Arrival>)
    ensures members { (a : Arrival) → IsIn a arrivals.new.items ↔ IsIn a arrivals.old.items }
    ensures order { IsNonDecreasingBy arrival_to arrivals.new.items }
{
    arrivals.sort_unstable_by_key(|a| a.to);
}

/// Puts arrivals into the order of their states.
pub(crate) fn sort_arrivals(arrivals: &mut Vec<Arrival>)
    ensures members { (a : Arrival) → IsIn a arrivals.new.items ↔ IsIn a arrivals.old.items }
    ensures order { IsNonDecreasingBy arrival_to arrivals.new.items }
{
    if arrivals.len() < 2 {
        return;
    }
    sort_all(arrivals);
}

/// Where the arrivals at earlier states end, by halving.
fn low_of(arrivals: &[Arrival], state: usize) -> usize
    requires { IsNonDecreasingBy arrival_to arrivals.now }
    ensures point { IsPartitionPoint (λ a. nat_lt (arrival_to a) state ≡ true)
        (λ a. nat_lt (arrival_to a) state ≡ false) arrivals.now result }
    ensures bound { result ≤ length arrivals.now }
{
    arrivals.partition_point(|a| a.to < state)
}

/// Where the arrivals at the state end that begin here. They are few, so that going on is faster
/// than halving once more.
fn high_of(arrivals: &[Arrival], state: usize, low: usize) -> usize
    requires order { IsNonDecreasingBy arrival_to arrivals.now }
    requires point { IsPartitionPoint (λ a. nat_lt (arrival_to a) state ≡ true)
        (λ a. nat_lt (arrival_to a) state ≡ false) arrivals.now low }
    requires bound { low ≤ length arrivals.now }
    ensures point { IsPartitionPoint (λ a. nat_le (arrival_to a) state ≡ true)
        (λ a. nat_le (arrival_to a) state ≡ false) arrivals.now result }
    ensures bound { result ≤ length arrivals.now }
{
    let mut high = low;
    while high < arrivals.len() {
        if arrivals[high].to != state {
            return high;
        }
        high += 1;
    }
    high
}

fn range_of(arrivals: &[Arrival], state: usize) -> (usize, usize)
    requires { IsNonDecreasingBy arrival_to arrivals.now }
    ensures { IsKeyRange arrival_to state arrivals.now result.0 result.1 }
{
    let low = low_of(arrivals, state);
    let high = high_of(arrivals, state, low);
    (low, high)
}

/// The arrivals at a state.
pub(crate) fn arrivals_at(arrivals: &[Arrival], state: usize) -> &[Arrival]
    requires { IsNonDecreasingBy arrival_to arrivals.now }
    ensures { result.now ≡ filter (λ a. arrival_to a == state) arrivals.now }
{
    let (low, high) = range_of(arrivals, state);
    &arrivals[low..high]
}
