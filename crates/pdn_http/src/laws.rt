//! What the definition of requests comes to.
ghost use Rattle.std.specs.Prelude.{◌≡◌, ℕ, List};
ghost use Rattle.pdn_http.specs.Requests.{Outcome, IsOutcome};

use pdn_schema::Schema;

/// The bytes of a connection come to one outcome.
pub fn connections_have_one_outcome(schema: &Schema)
    ensures { (bytes : List ℕ) (one other : Outcome) → IsOutcome schema.now.callers bytes one
        → IsOutcome schema.now.callers bytes other → one ≡ other }
{
    // what a schema keeps is known once it is looked at
    let _floor = schema.floor;
}
