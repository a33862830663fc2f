//! What reading a file of queries rules out.

ghost use Rattle.std.specs.Prelude.{List};
ghost use Rattle.pdn_sql.specs.declared.query.Query.{Query};
ghost use Rattle.pdn_sql.specs.Reading.{Says};
ghost use Rattle.pdn_sql.specs.Limits.{FileKeeps};

/// The law on files: a file that says queries has at most `most` of them, each with its semicolon among its first 4096
/// bytes, with at most four blocks of WITH, and with at most one ROW_NUMBER a block.
pub fn texts_keep_limits(bytes: &[u8], most: u32)
    ensures { (queries : List Query) → Says most bytes.now queries
        → FileKeeps most bytes.now queries }
{}
