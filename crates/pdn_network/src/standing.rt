//! The standing queries of the stated network.
ghost use Rattle.std.specs.Prelude.{◌≡◌, IfOk};
ghost use Rattle.pdn_network.specs.Standing.{standing};

use pdn_base::Memory;
use pdn_sql::{Query, SqlErr, read_queries};
use std::alloc::Global;

/// How many standing queries there are.
const STANDING: u32 = 3;

/// Who fell ill again within 15 to 56 days, the two commonest codes, and how many rows are of day 30 or later.
const TEXT: &str = "\
    WITH d AS (SELECT pid, day, ROW_NUMBER() OVER (PARTITION BY pid ORDER BY day) AS r \
    FROM diag WHERE code = 'cdiff') \
    SELECT DISTINCT a.pid FROM d a JOIN d b ON a.pid = b.pid AND b.r = a.r + 1 \
    WHERE b.day >= a.day + 15 AND b.day <= a.day + 56 ORDER BY pid;\
    SELECT code, COUNT(*) AS n FROM diag GROUP BY code \
    HAVING COUNT(*) >= 3 ORDER BY n DESC LIMIT 2;\
    SELECT COUNT(*) FROM diag WHERE day >= 30;";

/// The standing queries, in order.
pub fn standing_queries(alloc: Global) -> Result<Vec<Query>, Memory>
    ensures { IfOk result (λ queries. queries.items ≡ standing) }
{
    match read_queries(alloc, TEXT.as_bytes(), STANDING) {
        Ok(queries) => Ok(queries),
        Err(SqlErr::Memory) => Err(Memory),
        Err(SqlErr::At { .. }) => unreachable!(),
    }
}
