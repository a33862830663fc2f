//! Laws of the standing queries.
ghost use Rattle.std.specs.List.{AllByRecursion};
ghost use Rattle.pdn_network.specs.Network.{network_schema};
ghost use Rattle.pdn_network.specs.Standing.{standing};
ghost use Rattle.pdn_plan.specs.Answer.{IsWritten};
ghost use Rattle.pdn_gen.specs.Gen.{Binds};

/// The standing queries have what the law of binding asks of a query.
pub fn standing_queries_are_written()
    ensures { AllByRecursion IsWritten standing }
{}

/// Binding refuses none of the standing queries.
pub fn standing_queries_bind()
    ensures { AllByRecursion (Binds network_schema) standing }
{}
