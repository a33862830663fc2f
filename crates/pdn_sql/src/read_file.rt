//! Reading queries.

ghost use Rattle.std.specs.Prelude.{◌≡◌, ◌∷◌, []};
ghost use Rattle.pdn_sql.specs.Part.{Gives, begins, many, with_front, whole};
ghost use Rattle.pdn_sql.specs.Grammar.{named, next_named, nameds, withs, query, file};

use crate::query::{Named, Query};
use crate::reader::Reader;
use crate::stop::Stop;
use crate::token::{Keyword, Symbol};
use sqlite_items::Items;
use std::alloc::Global;

impl<'a> Reader<'a> {
    #[tactic(auto, unfolding(crate::specs::Grammar::named))]
    pub fn named(&mut self, alloc: Global) -> Result<Named, Stop>
        ensures { Gives (λ x. x) result self.new (named.read self.old) }
    {
        let name = self.name(alloc)?;
        self.keyword(Keyword::As)?;
        self.mark(Symbol::Open)?;
        let block = self.block(alloc)?;
        self.mark(Symbol::Close)?;
        Ok(Named { name, block })
    }

    #[tactic(auto, unfolding(crate::specs::Grammar::next_named))]
    pub fn next_named(&mut self, alloc: Global) -> Result<Named, Stop>
        ensures { Gives (λ x. x) result self.new (next_named.read self.old) }
    {
        self.mark(Symbol::Comma)?;
        self.named(alloc)
    }

    #[tactic(auto, unfolding(crate::specs::Grammar::nameds))]
    pub fn nameds(&mut self, alloc: Global) -> Result<Items<Named>, Stop>
        ensures { Gives (λ x. x) result self.new (nameds.read self.old) }
    {
        let first = self.named(alloc)?;
        self.more_nameds(alloc, first)
    }

    /// The first of a list, and those that follow.
    fn more_nameds(&mut self, alloc: Global, first: Named) -> Result<Items<Named>, Stop>
        ensures { Gives (λ x. x) result self.new
            (with_front (first ∷ []) ((many next_named).read self.old)) }
    {
        let mut with = Items::new(alloc);
        with.push(first)?;
        while self.at_mark(Symbol::Comma) {
            with.push(self.next_named(alloc)?)?;
        }
        Ok(with)
    }

    #[tactic(auto, unfolding(crate::specs::Grammar::withs, crate::specs::Grammar::word_part))]
    pub fn withs(&mut self, alloc: Global) -> Result<Items<Named>, Stop>
        ensures { Gives (λ x. x) result self.new (withs.read self.old) }
    {
        if !self.at_word(Keyword::With) {
            return Ok(Items::new(alloc));
        }
        self.keyword(Keyword::With)?;
        self.nameds(alloc)
    }

    #[tactic(auto, unfolding(crate::specs::Grammar::query))]
    pub fn query(&mut self, alloc: Global) -> Result<Query, Stop>
        ensures { Gives (λ x. x) result self.new (query.read self.old) }
    {
        let with = self.withs(alloc)?;
        let main = self.block(alloc)?;
        self.mark(Symbol::Semicolon)?;
        Ok(Query { with, main })
    }

    #[tactic(auto, unfolding(crate::specs::Grammar::query, crate::specs::Grammar::withs, crate::specs::Grammar::block, crate::specs::Grammar::word_part))]
    fn at_query(&self) -> bool
        ensures { result ≡ begins query.starts self.now }
    {
        self.at_word(Keyword::With) || self.at_word(Keyword::Select)
    }

    /// The first of a list, and those that follow.
    fn more_queries(&mut self, alloc: Global, first: Query) -> Result<Vec<Query>, Stop>
        ensures { Gives (λ x. x.items) result self.new
            (with_front (first ∷ []) ((many query).read self.old)) }
    {
        let mut queries = vec![in alloc; first]?;
        while self.at_query() {
            queries.push(self.query(alloc)?)?;
        }
        Ok(queries)
    }

    #[tactic(auto, unfolding(crate::specs::Grammar::file))]
    pub fn file(&mut self, alloc: Global) -> Result<Vec<Query>, Stop>
        ensures { Gives (λ x. x.items) result self.new (file.read self.old) }
    {
        let first = self.query(alloc)?;
        self.more_queries(alloc, first)
    }

    /// The queries of a file, with nothing behind them.
    pub fn whole_file(&mut self, alloc: Global) -> Result<Vec<Query>, Stop>
        ensures { Gives (λ x. x.items) result self.new (whole file self.old) }
    {
        let queries = self.file(alloc)?;
        if !self.left().is_empty() {
            return Err(Stop::Here);
        }
        Ok(queries)
    }
}
