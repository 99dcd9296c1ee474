// How much a text can hold, and how much a load has.
ghost use Rattle.xr_scenario.specs.Size.{HoldsLessThanItsBytes};
ghost use Rattle.xr_scenario.specs.Few.{FewOps};
ghost use Rattle.xr_scenario.specs.LoadLaws.{LoadsHaveSoManyOps, LoadsCanBeRun};

/// What a JSON text holds is no more than its bytes and one.
#[tactic(auto, using(crate::proofs::Sizes::holds_less))]
pub fn holds_less()
    ensures { HoldsLessThanItsBytes }
{}

/// A scenario that is read has fewer than 2^20 ops.
#[tactic(auto, using(crate::proofs::Few::few_ops))]
pub fn few_ops()
    ensures { FewOps }
{}

/// The scenario of a load of N frames has exactly 7 + 7N ops, two more for each tenth frame and one more for each seventh.
#[tactic(auto, using(crate::proofs::LoadCounts::loads_have_so_many_ops))]
pub fn loads_have_so_many_ops()
    ensures { LoadsHaveSoManyOps }
{}

/// The scenario of a load has one script, fewer than 2^22 ops, and only ops in form.
pub fn loads_can_be_run()
    ensures { LoadsCanBeRun }
{}
