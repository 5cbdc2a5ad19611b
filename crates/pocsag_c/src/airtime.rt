ghost use Rattle.std.specs.Prelude.{◌≡◌, ◌⊎◌, ◌↔◌};
ghost use Rattle.pocsag_plan.specs.Reports.{AreMostWithin, IsRate};

use pocsag_plan::most_batches;

/// Gives the most batches whose airtime at a rate of 512, 1200 or 2400 bits a second, as `pocsag_report` reports it, is at most
/// so many milliseconds; 0 where one batch takes longer.
#[unsafe(no_mangle)]
pub extern "C" fn pocsag_airtime_batches(airtime_ms: u32, rate: u32, batches: &mut u32) -> u32
    ensures most { result ≡ 0 → AreMostWithin airtime_ms rate batches.new }
    ensures bad_rate { result ≡ 4 ↔ (¬ IsRate rate) }
    ensures only { (result ≡ 0) ⊎ (result ≡ 4) }
    ensures nothing { result ≡ 4 → batches.new ≡ 0 }
{
    *batches = 0;
    let Ok(most) = most_batches(airtime_ms, rate) else {
        return 4;
    };
    *batches = most;
    0
}
