//! Laws of the standing queries.
ghost use Rattle.pdn_sql.specs.Reading.{Says};
ghost use Rattle.pdn_network.specs.Standing.{standing, standing_text};

/// The text of the standing queries says them.
pub fn standing_queries_are_said()
    ensures { Says 3 standing_text standing }
{}
