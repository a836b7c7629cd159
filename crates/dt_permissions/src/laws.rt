//! Laws. The functions do nothing.
ghost use Rattle.dt_permissions.specs.Holding.{ExclusiveWhereNoViolation};

/// Where no event is a violation, at each moment one hart at most may write a line, and while it may,
/// no other holds anything of it.
pub fn exclusive_where_no_violation()
    ensures { ExclusiveWhereNoViolation }
{}
