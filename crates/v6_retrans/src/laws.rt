//! Laws on the times of a message.

ghost use Rattle.v6_retrans.specs.Times.{BoundedTimes, CountsSayings, FollowsTimes};

/// What `first` and then `next` make, once for each RAND, has the times of RFC 8415, section 15, one after
/// another, and counts from 1.
pub fn times_follow()
    ensures times { FollowsTimes }
    ensures counted { CountsSayings }
{}

/// Where a message has an upper bound that isn't below its first time, no time is above that bound and a
/// tenth of it.
pub fn times_are_bounded()
    ensures { BoundedTimes }
{}
