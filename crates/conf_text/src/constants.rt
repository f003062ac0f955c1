//! The numbers that the definitions take from the code. The function does nothing: its contract holds each of them.

ghost use Rattle.std.specs.Prelude.{◌≡◌};
ghost use Rattle.settings.specs.Times.{usual_times};

use crate::sharing::METRIC_BASE;

/// Law: what is in force where a configuration says nothing: a timeout of 30 and a reboot of 5 seconds, and metrics from
/// 1000 on.
pub fn bounds_of_a_configuration()
    ensures default_timeout { usual_times.timeout ≡ 30 }
    ensures default_reboot { usual_times.reboot ≡ 5 }
    ensures metric_base { METRIC_BASE ≡ 1000 }
{}
