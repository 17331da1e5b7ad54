//! Laws of the definitions. The calls do nothing.
ghost use Rattle.std.specs.Prelude.{◌≡◌, ℕ, ◌+◌, ◌<◌, ◌≤◌, true, List, length, take, count_by};
ghost use Rattle.cf_renumber.specs.declared.mark.FrameFate.{FrameFate};
ghost use Rattle.cf_renumber.specs.Counts.{IsCountOf, count_from, is_counted, covered_by, is_admitted, acked_by_client};
ghost use Rattle.cf_renumber.specs.Counts.{acked_by_controller, to_client, to_controller};
ghost use Rattle.cf_renumber.specs.NumbersCalls.{NumbersCall, Over, IsNumbersRun, IsInOrder, AllAnswered, IsNumbersAt, turn_after};
ghost use Rattle.cf_renumber.specs.NumbersCalls.{events_of};
ghost use Rattle.cf_renumber.specs.Numbers.{NumbersValue};

/// Where fewer than 32,768 counts are allowed, a number stands for at most one: the least from the lowest one on that
/// agrees with it.
pub fn one_count()
    ensures counted { (low high number count : ℕ) → high < low + 32768 → IsCountOf low high number count
        → is_counted low high number ≡ true }
    ensures only { (low high number count : ℕ) → high < low + 32768 → IsCountOf low high number count → count ≡ count_from low number }
    ensures is_one { (low high number : ℕ) → is_counted low high number ≡ true → IsCountOf low high number (count_from low number) }
{}

/// Over every list of calls in their order, of which none was refused, a received N(R) stands for at most one count, and the
/// definitions find it: at most 4,096 frames of each direction are unacknowledged.
pub fn one_count_in_every_run()
    ensures of_client { (calls : List NumbersCall) → IsInOrder calls → AllAnswered calls → (turn_after calls ≡ Over → ⊥) →
        (number count : ℕ) → IsCountOf (acked_by_client (events_of calls)) (to_client (events_of calls)) number count →
        (is_counted (acked_by_client (events_of calls)) (to_client (events_of calls)) number ≡ true)
        × (count ≡ count_from (acked_by_client (events_of calls)) number) }
    ensures of_controller { (calls : List NumbersCall) → IsInOrder calls → AllAnswered calls → (turn_after calls ≡ Over → ⊥) →
        (number count : ℕ) → IsCountOf (acked_by_controller (events_of calls)) (to_controller (events_of calls)) number count →
        (is_counted (acked_by_controller (events_of calls)) (to_controller (events_of calls)) number ≡ true)
        × (count ≡ count_from (acked_by_controller (events_of calls)) number) }
{}

/// The front that m covers holds at most m admitted frames, and no longer front does.
pub fn covers_the_most()
    ensures inside { (m : ℕ) (frames : List FrameFate) → covered_by m frames ≤ length frames }
    ensures few { (m : ℕ) (frames : List FrameFate) → count_by is_admitted (take (covered_by m frames) frames) ≤ m }
    ensures most { (m j : ℕ) (frames : List FrameFate) → j ≤ length frames → count_by is_admitted (take j frames) ≤ m
        → j ≤ covered_by m frames }
{}

/// Over every list of calls in their order the numbers answer what the counts give.
pub fn every_numbers_run()
    ensures answers { (calls : List NumbersCall) (v : NumbersValue) → IsNumbersRun calls v → IsInOrder calls → AllAnswered calls }
    ensures stands { (calls : List NumbersCall) (v : NumbersValue) → IsNumbersRun calls v → IsInOrder calls →
        IsNumbersAt (turn_after calls) v (events_of calls) }
{}
