//! Laws of the definitions, for the crates above. The functions do nothing.
ghost use Rattle.dt_versions.specs.Laws.{EarlierWritesAreHeld, VisibleIsInterval, SourcesRise, FirstVisibleIsLeast, LastVisibleIsGreatest, LaterMomentsLieSince, LaterWritesDoNotCount, OwnMomentIsVisible};
ghost use Rattle.dt_versions.specs.Words.{SteadyBytesStay, SteadySourcesStay, SteadyWordsStay};

/// The visible moments of a record lie between two ends, and there is always one.
pub fn visible_is_interval()
    ensures { VisibleIsInterval }
{}

/// The ends of the visible moments, as they are computed, are the least and the greatest of them.
pub fn visible_ends_are_extreme()
    ensures first { FirstVisibleIsLeast }
    ensures last { LastVisibleIsGreatest }
{
    visible_is_interval();
}

/// The source of a byte at a moment never falls as the moment rises.
pub fn sources_rise()
    ensures { SourcesRise }
{}

/// Writes of later cycles than a record's change nothing of what it sees or reads.
pub fn later_writes_do_not_count()
    ensures { LaterWritesDoNotCount }
{}

/// Over a stretch in which no write covers a byte of a word, the word and its sources stay.
pub fn steady_words_stay()
    ensures bytes { SteadyBytesStay }
    ensures sources { SteadySourcesStay }
    ensures words { SteadyWordsStay }
{}

/// The moment of a record's key is visible for it, lies in the span since each earlier fence, and holds
/// all writes before the record.
pub fn own_moments_are_visible()
    ensures visible { OwnMomentIsVisible }
    ensures since { LaterMomentsLieSince }
    ensures held { EarlierWritesAreHeld }
{}
