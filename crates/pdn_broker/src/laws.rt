//! What the runs of a query come to.
ghost use Rattle.pdn_broker.specs.Prepared.{PreparedForm};
ghost use Rattle.pdn_broker.specs.Running.{AnswersMean};
ghost use Rattle.pdn_broker.specs.Units.{CompiledTell};

/// Two halves run each secure unit of a prepared query on both sites' words, and then the root on both sites' words and the shares
/// that they put out, each on its own section of a tape. Whatever the tape, the root's two outputs, put together, hold the rows that
/// the plan means over the union of both sites' tables; and in the plan's order these are its meaning as a list.
pub fn answers_mean()
    ensures { AnswersMean }
{}

/// Units that were compiled from both sites' directories, and whose circuits stand in order, are what the meaning of a query asks for:
/// none passes a limit, the output words of the secure ones, one after the other, are those that the root takes, and the last is the
/// root's.
pub fn compiled_units_tell()
    ensures { CompiledTell }
{}

/// A prepared query is what is made ready of its schema, its plan's tree, both sites' tables and the units over them: nothing else
/// can stand in it.
#[tactic(auto, using(crate::proofs::PreparedForms::form_of_prepared))]
pub fn prepared_form()
    ensures { PreparedForm }
{}
