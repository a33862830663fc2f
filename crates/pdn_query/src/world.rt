//! The objects outside a command, as one value.
ghost use Rattle.std.specs.Prelude.{◌≡◌, ◌≤◌, ◌<◌, Some, length, IfOk, IfErr, MatchResult};
ghost use Rattle.pdn_base.specs.Bounds.{IsShort};
ghost use Rattle.pdn_base.specs.declared.status.Who.TheVariants.{Sink as TheSink};
ghost use Rattle.pdn_schema.specs.Models.{table_of};
ghost use Rattle.pdn_query.specs.Questions.{File, Kept, Batch as BatchAsked, Ticket, OnlyAt, OnlyDesk, told_by};
ghost use Rattle.pdn_query.specs.Script.{Script, Say};
ghost use Rattle.pdn_query.specs.Walk.{Came, Closes, PutFailed, Wrote};
ghost use Rattle.pdn_query.specs.World.{WorldModel, RoseIn, NotFallen, Replied, NotRead, NotKept, NotAdded, NotGiven, answer_of, Put, Cut};
ghost use Rattle.pdn_script.specs.Stops.{end_of, stop_of};

use pdn_base::{FileErr, Files, Rows, Sink, SinkErr, Site, Status};
use pdn_desk_keeper::DeskKeeper;
use pdn_keeper::{AddErr, Added, KeepErr, SiteKeeper};
use pdn_schema::Schema;
use pdn_script::{Stop, conclude};
use std::alloc::Global;

/// A batch: the number of its table, its own number, and its rows.
#[derive(Clone, Copy)]
pub struct Batch<'a> {
    pub table: u32,
    pub number: u64,
    pub rows: &'a Rows,
}

/// The objects outside a command. A call asks one of them, and changes nothing that another one tells.
pub trait Outside {
    /// What the objects tell, what the sink has taken, and how often each has failed.
    ghost state: { Self → WorldModel };

    /// The bytes of the file of this name, at most 536,870,912.
    ///
    /// Absent where there is no such file; Failed where the read failed, which is counted; Memory for want of memory.
    /// No answer changes a file.
    fn read(&mut self, alloc: Global, name: &str) -> Result<Vec<u8>, FileErr>
        ensures size { IfOk result (λ bytes. length bytes.items ≤ 536870912) }
        ensures read { MatchResult result
            (λ bytes. Replied (state self.old) (state self.new) (File name.now) (Some bytes.items))
            (NotRead (state self.old) (state self.new) name.now) };

    /// The rows that a site keeps of a table, fewer than 2^32 - 1, in the order in which they were kept.
    ///
    /// Failed where the keeper failed, which is counted; Memory for want of memory. No answer changes what is kept.
    fn rows(
        &mut self,
        alloc: Global,
        site: Site,
        schema: &Schema,
        table: u32,
    ) -> Result<Rows, KeepErr>
        requires in_range { table < length schema.now.tables }
        ensures size { IfOk result (λ rows. IsShort rows) }
        ensures kept { let name = (table_of schema.now table).name in MatchResult result
            (λ rows. Replied (state self.old) (state self.new) (Kept site name) rows)
            (NotKept (state self.old) (state self.new) site name) };

    /// Gives a site a batch of a table: New where it is now the table's last batch, Again where it was kept before with
    /// the same rows.
    ///
    /// Differs where its number is kept with other rows, OverRows where the table would have too many rows, OverPer where
    /// a value of a public column would stand in too many; Failed where the keeper failed, which is counted; Memory for
    /// want of memory. After New the batch is kept; after each other answer what is kept is as before, and after Failed it
    /// is as before or with the batch.
    fn add_batch(
        &mut self,
        alloc: Global,
        site: Site,
        schema: &Schema,
        batch: Batch<'_>,
    ) -> Result<Added, AddErr>
        requires in_range { batch.table < length schema.now.tables }
        ensures added { let t = table_of schema.now batch.entry.table in MatchResult result
            (λ how. Replied (state self.old) (state self.new)
            (BatchAsked site t batch.entry.number batch.entry.rows.now) (answer_of how))
            (NotAdded (state self.old) (state self.new) site t
            batch.entry.number batch.entry.rows.now) }
        ensures only { OnlyAt site (state self.old).told (state self.new).told };

    /// The desk's next ticket, which is then taken; 2^40 where none is left.
    ///
    /// Failed where the keeper failed, which is counted: a ticket may then be taken, and is given to nobody. Memory for
    /// want of memory: none is taken.
    fn ticket(&mut self, alloc: Global) -> Result<u64, KeepErr>
        ensures given { MatchResult result
            (λ ticket. Replied (state self.old) (state self.new) Ticket ticket)
            (NotGiven (state self.old) (state self.new)) }
        ensures only { OnlyDesk (state self.old).told (state self.new).told };

    /// Puts these bytes on the sink.
    ///
    /// Failed where not all were taken, which is counted: a front of them may stand on the sink.
    fn put(&mut self, bytes: &[u8]) -> Result<(), SinkErr>
        ensures put { MatchResult result
            (λ _. Put (state self.old) (state self.new) bytes.now)
            (λ _. Cut (state self.old) (state self.new) bytes.now) };

    /// Ends a command: the status. The line of a refusal is put; where that put fails, the status stays.
    fn conclude(&mut self, came: Result<(), Stop>) -> Status
        ensures closes { Wrote (state self.old).written (state self.new).written (λ text.
            Closes (λ _. RoseIn (state self.old).counts (state self.new).counts TheSink)
            (end_of came) text result) }
        ensures told { (state self.new).told ≡ (state self.old).told }
        ensures later { NotFallen (state self.old).counts (state self.new).counts };
}

/// Files, both sites' keepers, the desk's keeper and a sink.
#[derive(Drop)]
pub struct World<F, K, D, S> {
    pub files: F,
    pub site_a: K,
    pub site_b: K,
    pub desk: D,
    pub out: S,
}

impl<F: Files, K: SiteKeeper, D: DeskKeeper, S: Sink> Outside for World<F, K, D, S> {
    ghost state = { λ w. record {
      told = told_by (F.held w.files) (K.batches w.site_a) (K.batches w.site_b) (D.held w.desk);
      written = S.written w.out;
      counts = record {
        files = F.faults w.files;
        a = K.faults w.site_a;
        b = K.faults w.site_b;
        desk = D.faults w.desk;
        sink = S.faults w.out;
      };
    } };

    fn read(&mut self, alloc: Global, name: &str) -> Result<Vec<u8>, FileErr> {
        self.files.read(alloc, name)
    }

    fn rows(
        &mut self,
        alloc: Global,
        site: Site,
        schema: &Schema,
        table: u32,
    ) -> Result<Rows, KeepErr> {
        match site {
            Site::A => self.site_a.rows(alloc, schema, table),
            Site::B => self.site_b.rows(alloc, schema, table),
        }
    }

    fn add_batch(
        &mut self,
        alloc: Global,
        site: Site,
        schema: &Schema,
        batch: Batch<'_>,
    ) -> Result<Added, AddErr> {
        let (table, number, rows) = (batch.table, batch.number, batch.rows);
        match site {
            Site::A => self.site_a.add_batch(alloc, schema, table, number, rows),
            Site::B => self.site_b.add_batch(alloc, schema, table, number, rows),
        }
    }

    fn ticket(&mut self, alloc: Global) -> Result<u64, KeepErr> {
        self.desk.ticket(alloc)
    }

    fn put(&mut self, bytes: &[u8]) -> Result<(), SinkErr> {
        self.out.put(bytes)
    }

    fn conclude(&mut self, came: Result<(), Stop>) -> Status {
        conclude(came, &mut self.out)
    }
}

/// Puts a text of the script.
pub fn say<W: Outside>(world: &mut W, text: &[u8]) -> Result<(), Stop>
    ensures came { (rest : Script) →
        Came (W.state world.old) (W.state world.new) (Say text.now rest) (λ _. rest) result }
    ensures sink { IfErr result (λ stop. stop_of stop ≡ PutFailed) }
    ensures same { (W.state world.new).told ≡ (W.state world.old).told }
{
    match world.put(text) {
        Ok(()) => Ok(()),
        Err(SinkErr::Failed) => Err(Stop::Sink),
    }
}
