//! Laws of the definitions, for the crates above. The functions do nothing.
ghost use Rattle.dt_feed.specs.Ends.{PoppedEndMeansAll, WholeFeedEndsAll};

/// What was taken from a queue begins its hart's records. Where the end of the feed was popped it is
/// all of them.
pub fn popped_end_means_all()
    ensures { PoppedEndMeansAll }
{}

/// A whole feed leaves in each queue its hart's records and one end.
pub fn whole_feed_ends_all()
    ensures { WholeFeedEndsAll }
{}
