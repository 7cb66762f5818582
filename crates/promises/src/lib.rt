// What stands for every life of a table, over every lawful rule book.
#![tactic(auto)]

ghost use Rattle.promises.specs.CallsLeave.{CallsLeave};
ghost use Rattle.promises.specs.Carried.{CallsCarry};
ghost use Rattle.promises.specs.Conservation.{CallsConserve};
ghost use Rattle.promises.specs.NeverSticks.{NeverSticks};
ghost use Rattle.promises.specs.Promises.{AllLivesStand};

// These stand for their contracts alone, and do nothing.
pub fn calls_conserve()
    ensures { CallsConserve }
{}

pub fn lives_stand()
    ensures { AllLivesStand }
{}

pub fn never_sticks()
    ensures { NeverSticks }
{}

pub fn calls_leave()
    ensures { CallsLeave }
{}

pub fn calls_carry()
    ensures { CallsCarry }
{}
