// The point of least span.
ghost use Rattle.std.specs.Prelude.{◌≡◌, ◌<◌, length};
ghost use Rattle.bs_settle.specs.Timed.{numbers};
ghost use Rattle.bs_whatif.specs.Best.{IsFirstLeast, best_of};

use bs_num::Tick;

/// The number of the least of some spans, the first of equals, counted from 1. There is at least one.
pub fn best(spans: &[Tick]) -> usize
    requires { 0 < length spans.now }
    ensures { result ≡ best_of (numbers spans.now) }
{
    first_least(spans) + 1
}

// Its place, counted from 0.
fn first_least(spans: &[Tick]) -> usize
    requires { 0 < length spans.now }
    ensures { IsFirstLeast (numbers spans.now) result }
{
    let mut least = 0;
    for place in 1..spans.len() {
        if spans[place].0 < spans[least].0 {
            least = place;
        }
    }
    least
}
