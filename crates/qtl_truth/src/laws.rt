//! Laws of truth, which show that the definition says what is meant. A function here does nothing: its contract is the law.
ghost use Rattle.std.specs.Prelude.{◌≡◌, ℕ, ◌≤◌, ◌⊎◌, ◌↔◌, List};
ghost use Rattle.qtl_syntax.specs.declared.formula.Bound.{Bound};
ghost use Rattle.qtl_syntax.specs.Tree.{
  Formula,
  Item,
  True,
  Not,
  And,
  Or,
  Prev,
  Since,
  TimedSince,
  Once,
  TimedOnce,
  Always,
  TimedAlways,
  Interval,
};
ghost use Rattle.qtl_truth.specs.declared.event.Event.{Event};
ghost use Rattle.qtl_truth.specs.Laws.{PastDecides};
ghost use Rattle.qtl_truth.specs.Truth.{Assignment, IsWithin, Holds};

/// Events after a position change nothing there.
pub fn past_decides()
    ensures { PastDecides }
{}

/// At any event of the log, since holds where its second side does, or where its first side does and
/// since held at the event before.
pub fn since_unfolds()
    ensures { (before : List Item) (log : List Event) (i : ℕ) (nu : Assignment) (f g : Formula) → 1 ≤ i →
        Holds before log i nu (Since f g)
        ↔ Holds before log i nu (Or g (And f (Prev (Since f g)))) }
{}

/// Once is since, with nothing asked of the events in between.
pub fn once_is_since()
    ensures { (before : List Item) (log : List Event) (i : ℕ) (nu : Assignment) (f : Formula) →
        Holds before log i nu (Once f) ↔ Holds before log i nu (Since True f) }
{}

/// The same under a bound on the age.
pub fn timed_once_is_timed_since()
    ensures { (before : List Item) (log : List Event) (i : ℕ) (nu : Assignment) (b : Bound) (f : Formula) →
        Holds before log i nu (TimedOnce b f) ↔ Holds before log i nu (TimedSince b True f) }
{}

/// Historically says that the opposite was never so; and the other way round where each event decides.
pub fn always_is_never_not()
    ensures only { (before : List Item) (log : List Event) (i : ℕ) (nu : Assignment) (f : Formula) →
        Holds before log i nu (Always f) → Holds before log i nu (Not (Once (Not f))) }
    ensures back { (before : List Item) (log : List Event) (i : ℕ) (nu : Assignment) (f : Formula) →
        ((j : ℕ) → 1 ≤ j → j ≤ i → Holds before log j nu f ⊎ Holds before log j nu (Not f)) →
        Holds before log i nu (Not (Once (Not f))) → Holds before log i nu (Always f) }
{}

/// The same under a bound on the age.
pub fn timed_always_is_never_not()
    ensures only { (before : List Item) (log : List Event) (i : ℕ) (nu : Assignment) (b : Bound) (f : Formula) →
        Holds before log i nu (TimedAlways b f) → Holds before log i nu (Not (TimedOnce b (Not f))) }
    ensures back { (before : List Item) (log : List Event) (i : ℕ) (nu : Assignment) (b : Bound) (f : Formula) →
        ((j : ℕ) → 1 ≤ j → j ≤ i → Holds before log j nu f ⊎ Holds before log j nu (Not f)) →
        Holds before log i nu (Not (TimedOnce b (Not f))) → Holds before log i nu (TimedAlways b f) }
{}

/// The interval from f up to g is since: no g since an f without g.
pub fn interval_is_since()
    ensures { (before : List Item) (log : List Event) (i : ℕ) (nu : Assignment) (f g : Formula) →
        Holds before log i nu (Interval f g) ↔ Holds before log i nu (Since (Not g) (And f (Not g))) }
{}
