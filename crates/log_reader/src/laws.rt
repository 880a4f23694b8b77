//! Laws of the records of a log. A function here does nothing: its contract is the law.
ghost use Rattle.std.specs.Prelude.{◌≡◌, ◌<◌, ◌≤◌, ◌^◌, ℕ, length, ◌++◌, Bool, false};
ghost use Rattle.std.specs.List.{AllByRecursion};
ghost use Rattle.qtl_syntax.specs.Tree as tree;
ghost use Rattle.qtl_truth.specs.Truth.{time_at};
ghost use Rattle.log_reader.specs.Growth.{GoesOn};
ghost use Rattle.log_reader.specs.Records.{cut};

/// What the first bytes of a log gave as events stays, whatever bytes follow and whether the log then ends or not. So
/// does a fault that they have, of which the end of the log is no cause.
pub fn records_stay()
    ensures grows { (bytes more : tree.Text) (timed ended : Bool) → GoesOn (cut bytes timed false) (cut (bytes ++ more) timed ended) }
{}

/// Each event takes a byte of the log at least.
pub fn records_take_bytes()
    ensures bounded { (bytes : tree.Text) (timed ended : Bool) → length (cut bytes timed ended).events ≤ length bytes }
{}

/// Each event's time has 64 bits.
pub fn times_fit()
    ensures fit { (bytes : tree.Text) (timed ended : Bool) → AllByRecursion (λ e. e.time < 2 ^ 64) (cut bytes timed ended).events }
{}

/// The times of a log's events don't fall.
pub fn times_never_fall()
    ensures rising { (bytes : tree.Text) (timed ended : Bool) (i j : ℕ) →
        1 ≤ j → j ≤ i → i ≤ length (cut bytes timed ended).events →
        time_at (cut bytes timed ended).events j ≤ time_at (cut bytes timed ended).events i }
{}

/// In a log that is read without times each event has time 0.
pub fn untimed_is_zero()
    ensures zero { (bytes : tree.Text) (ended : Bool) → AllByRecursion (λ e. e.time ≡ 0) (cut bytes false ended).events }
{}
