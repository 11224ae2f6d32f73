// Laws of the definitions.
ghost use Rattle.tetra_puncture.specs.Certified.{AcceptedIsCertified, CostToGoIsOne, CostsToGoAreAccepted};
ghost use Rattle.tetra_puncture.specs.Plan.{WordsDiffer};
ghost use Rattle.tetra_puncture.specs.Steps.{LeastBranchIsRowEntry};
ghost use Rattle.tetra_puncture.specs.ToGo.{CostToGoIsFound};

use crate::plan::Plan;

/// Different messages have different words, under every sound plan.
pub fn words_differ<P: Plan>()
    requires { P.IsSound }
    ensures { WordsDiffer P.plan }
{}

/// Where all rules hold, the message is first-least, and the table shows it, whoever made the table.
pub fn accepted_is_certified()
    ensures { AcceptedIsCertified }
{}

/// There is one cost to go from a state.
pub fn cost_to_go_is_one()
    ensures { CostToGoIsOne }
{}

/// The cost to go as a function has the cost to go.
pub fn cost_to_go_is_found()
    ensures { CostToGoIsFound }
{}

/// Beside the first-least message the costs to go meet all rules.
pub fn costs_to_go_are_accepted()
    ensures { CostsToGoAreAccepted }
{}

/// An entry of a row comes from the values of the step and the row behind it alone.
pub fn least_branch_is_row_entry()
    ensures { LeastBranchIsRowEntry }
{}
