ghost use Rattle.fx_sweep.specs.Ordered.{IntervalsStayOrdered};
ghost use Rattle.fx_sweep.specs.Standing.{StandingMomentsMeetNoRange, StandingMomentsRepeat};

/// A law with nothing to run: the intervals of a sweep that begins in order stay in order.
pub fn intervals_stay_ordered()
    ensures { IntervalsStayOrdered }
{}

/// A law with nothing to run: where a moment leaves what is carried as it was, each later moment adds what it adds. If
/// it met no range, they meet none as long as the gains stay below the limit.
pub fn standing_moments_repeat()
    ensures numbers { StandingMomentsRepeat }
    ensures ranges { StandingMomentsMeetNoRange }
{}
