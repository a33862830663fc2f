//! What the plan of a query means.

ghost use Rattle.std.specs.Prelude.{◌≡◌, ℕ, List, None, true};
ghost use Rattle.std.specs.List.{AllByRecursion};
ghost use Rattle.pdn_schema.specs.Rows.{AreValid, union};
ghost use Rattle.pdn_sql.specs.declared.query.Query.{Query};
ghost use Rattle.pdn_sql.specs.Reading.{Says};
ghost use Rattle.pdn_tree.specs.Meaning.{Rows, mean};
ghost use Rattle.pdn_plan.specs.Planning.{root};
ghost use Rattle.pdn_plan.specs.Binding.{refusal};
ghost use Rattle.pdn_plan.specs.Answer.{TablesFit, IsWritten, answer};
ghost use Rattle.pdn_plan.specs.Worked.{AnswersWorked};
ghost use Rattle.pdn_tree.specs.Shapes.{fits};

use pdn_schema::Schema;
use pdn_sql::Query;

/// The law of binding: whatever rows the tables hold, as wide as the schema says, the plan of a query that is not refused
/// gives the query's answer, as a list.
pub fn plan_means_answer(schema: &Schema, query: &Query)
    ensures { (tables : ℕ → Rows) → TablesFit tables 0 schema.now.tables → IsWritten query.now
        → refusal schema.now query.now ≡ None → mean tables (root schema.now
        query.now) ≡ answer schema.now tables query.now }
{}

/// Queries that a text says have what the law of binding asks of a query.
pub fn texts_are_written(bytes: &[u8], most: u32)
    ensures { (queries : List Query) → Says most bytes.now queries
        → AllByRecursion IsWritten queries }
{}

/// The union of valid tables has what the law of binding asks of tables.
pub fn valid_unions_fit(schema: &Schema)
    ensures { (a b : List Rows) → AreValid schema.now a → AreValid schema.now b
        → TablesFit (union a b) 0 schema.now.tables }
{}

/// The law of plans: the plan of a query that is not refused fits the schema.
pub fn plan_fits_schema(schema: &Schema, query: &Query)
    ensures { IsWritten query.now → refusal schema.now query.now ≡ None
        → fits schema.now (root schema.now query.now) ≡ true }
{
    // what a schema keeps is known once it is looked at
    let _floor = schema.floor;
}

/// The answer as written gives six queries over small tables the rows that were worked out by hand.
pub fn answers_worked()
    ensures { AnswersWorked }
{}
