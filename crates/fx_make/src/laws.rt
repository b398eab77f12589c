ghost use Rattle.fx_make.specs.First.{EachFailureIsTold, FirstIsFound};

/// A law with nothing to run: the search finds the first of a filter's candidates that passes, in the order of its
/// lists, and each before it fails; where it finds none, each candidate fails, and the failures are told in that order.
pub fn search_finds_the_first()
    ensures first { FirstIsFound }
    ensures none { EachFailureIsTold }
{}
