ghost use Rattle.dt_judged.specs.Covering.{DrainsCoverStores};
ghost use Rattle.dt_judged.specs.GoingOn.{JudgedGoesOn};

use dt_stores::stores_go_on;

/// A law: the mask of a drain that is allowed has each byte of each store that the drain takes.
pub fn drains_cover_stores()
    ensures { DrainsCoverStores }
{}

/// A law: each record that is allowed leaves a hart's actions judged before its next record.
pub fn judged_goes_on()
    ensures { JudgedGoesOn }
{
    drains_cover_stores();
    stores_go_on();
}
