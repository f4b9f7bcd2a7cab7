//! What follows of a desk's whole life.

ghost use Rattle.std.specs.Prelude.{◌≡◌, ℕ, List, Some};
ghost use Rattle.desk_state.specs.declared.desk.Desk.{Desk};
ghost use Rattle.desk_state.specs.Ends.{AreNumbered, AreCoded, units_of};
ghost use Rattle.desk_state.specs.Laws.{Event, Lives, KeepsEnded};

/// Whatever is asked of a desk and however its runs end.
pub fn desk_laws()
    // Its jobs stay numbered from 1.
    ensures numbered { (old new : Desk) (events : List Event) → AreNumbered old.jobs → Lives old events new → AreNumbered new.jobs }
    // A job that ended stays as it is: it is never run again.
    ensures ended { (old new : Desk) (events : List Event) → Lives old events new → KeepsEnded old.jobs new.jobs }
    // An ended job has one of the seven codes.
    ensures coded { (old new : Desk) (events : List Event) → AreCoded old.jobs → Lives old events new → AreCoded new.jobs }
    // Its units stay the same.
    ensures units { (old new : Desk) (events : List Event) → Lives old events new → units_of new.lines ≡ units_of old.lines }
    // The job whose run first broke the pool stays named.
    ensures broken { (old new : Desk) (events : List Event) (number : ℕ) → Lives old events new → old.broken ≡ Some number → new.broken ≡ Some number }
{}
