//! Reading a block.

ghost use Rattle.std.specs.Prelude.{◌≡◌, ◌∷◌, []};
ghost use Rattle.pdn_sql.specs.Part.{Gives, begins, many, with_front};
ghost use Rattle.pdn_sql.specs.Grammar.{word_part, source_name, source, join, joined, sources, distinct, filter, having, group, order_name, next_order_name, order_names, order, limit, block};

use crate::query::{Block, Col, Name, OrderName, Source, SqlClause};
use crate::reader::Reader;
use crate::stop::Stop;
use crate::token::{Keyword, Symbol};
use sqlite_items::Items;
use std::alloc::Global;

impl<'a> Reader<'a> {
    #[tactic(auto, unfolding(crate::specs::Grammar::source_name))]
    pub fn source_name(&mut self, alloc: Global) -> Result<Option<Name>, Stop>
        ensures { Gives (λ x. x) result self.new (source_name.read self.old) }
    {
        if self.at_word(Keyword::As) {
            self.keyword(Keyword::As)?;
            return Ok(Some(self.name(alloc)?));
        }
        if self.at_name() {
            return Ok(Some(self.name(alloc)?));
        }
        Ok(None)
    }

    #[tactic(auto, unfolding(crate::specs::Grammar::source))]
    pub fn source(&mut self, alloc: Global) -> Result<Source, Stop>
        ensures { Gives (λ x. x) result self.new (source.read self.old) }
    {
        let name = self.name(alloc)?;
        let alias = self.source_name(alloc)?;
        Ok(Source {
            name,
            alias,
            on: Items::new(alloc),
        })
    }

    #[tactic(auto, unfolding(crate::specs::Grammar::join))]
    pub fn join(&mut self, alloc: Global) -> Result<Source, Stop>
        ensures { Gives (λ x. x) result self.new (join.read self.old) }
    {
        if self.at_word(Keyword::Inner) {
            self.keyword(Keyword::Inner)?;
        }
        self.joined(alloc)
    }

    #[tactic(auto, unfolding(crate::specs::Grammar::joined))]
    pub fn joined(&mut self, alloc: Global) -> Result<Source, Stop>
        ensures { Gives (λ x. x) result self.new (joined.read self.old) }
    {
        self.keyword(Keyword::Join)?;
        let source = self.source(alloc)?;
        self.keyword(Keyword::On)?;
        let on = self.cond(alloc)?;
        Ok(Source {
            name: source.name,
            alias: source.alias,
            on,
        })
    }

    #[tactic(auto, unfolding(crate::specs::Grammar::join, crate::specs::Grammar::joined, crate::specs::Grammar::word_part))]
    fn at_join(&self) -> bool
        ensures { result ≡ begins join.starts self.now }
    {
        self.at_word(Keyword::Inner) || self.at_word(Keyword::Join)
    }

    #[tactic(auto, unfolding(crate::specs::Grammar::sources))]
    pub fn sources(&mut self, alloc: Global) -> Result<Items<Source>, Stop>
        ensures { Gives (λ x. x) result self.new (sources.read self.old) }
    {
        let first = self.source(alloc)?;
        self.more_sources(alloc, first)
    }

    /// The first of a list, and those that follow.
    fn more_sources(&mut self, alloc: Global, first: Source) -> Result<Items<Source>, Stop>
        ensures { Gives (λ x. x) result self.new
            (with_front (first ∷ []) ((many join).read self.old)) }
    {
        let mut sources = Items::new(alloc);
        sources.push(first)?;
        while self.at_join() {
            sources.push(self.join(alloc)?)?;
        }
        Ok(sources)
    }

    #[tactic(auto, unfolding(crate::specs::Grammar::distinct))]
    pub fn distinct(&mut self) -> Result<bool, Stop>
        ensures { Gives (λ x. x) result self.new (distinct.read self.old) }
    {
        if !self.at_word(Keyword::Distinct) {
            return Ok(false);
        }
        self.keyword(Keyword::Distinct)?;
        Ok(true)
    }

    #[tactic(auto, unfolding(crate::specs::Grammar::filter, crate::specs::Grammar::word_part))]
    pub fn filter(&mut self, alloc: Global) -> Result<Items<SqlClause>, Stop>
        ensures { Gives (λ x. x) result self.new (filter.read self.old) }
    {
        if !self.at_word(Keyword::Where) {
            return Ok(Items::new(alloc));
        }
        self.keyword(Keyword::Where)?;
        self.cond(alloc)
    }

    #[tactic(auto, unfolding(crate::specs::Grammar::having, crate::specs::Grammar::word_part))]
    pub fn having(&mut self) -> Result<Option<u32>, Stop>
        ensures { Gives (λ x. x) result self.new (having.read self.old) }
    {
        if !self.at_word(Keyword::Having) {
            return Ok(None);
        }
        self.keyword(Keyword::Having)?;
        self.count()?;
        self.mark(Symbol::AtLeast)?;
        Ok(Some(self.number()?))
    }

    #[tactic(auto, unfolding(crate::specs::Grammar::group, crate::specs::Grammar::word_part))]
    pub fn group(&mut self, alloc: Global) -> Result<(Items<Col>, Option<u32>), Stop>
        ensures { Gives (λ x. x) result self.new (group.read self.old) }
    {
        if !self.at_word(Keyword::Group) {
            return Ok((Items::new(alloc), None));
        }
        self.keyword(Keyword::Group)?;
        self.keyword(Keyword::By)?;
        let cols = self.cols(alloc)?;
        let having = self.having()?;
        Ok((cols, having))
    }

    #[tactic(auto, unfolding(crate::specs::Grammar::order_name))]
    pub fn order_name(&mut self, alloc: Global) -> Result<OrderName, Stop>
        ensures { Gives (λ x. x) result self.new (order_name.read self.old) }
    {
        let name = self.name(alloc)?;
        let down = self.direction()?;
        Ok(OrderName { name, down })
    }

    #[tactic(auto, unfolding(crate::specs::Grammar::next_order_name))]
    pub fn next_order_name(&mut self, alloc: Global) -> Result<OrderName, Stop>
        ensures { Gives (λ x. x) result self.new (next_order_name.read self.old) }
    {
        self.mark(Symbol::Comma)?;
        self.order_name(alloc)
    }

    #[tactic(auto, unfolding(crate::specs::Grammar::order_names))]
    pub fn order_names(&mut self, alloc: Global) -> Result<Items<OrderName>, Stop>
        ensures { Gives (λ x. x) result self.new (order_names.read self.old) }
    {
        let first = self.order_name(alloc)?;
        self.more_order_names(alloc, first)
    }

    /// The first of a list, and those that follow.
    fn more_order_names(
        &mut self,
        alloc: Global,
        first: OrderName,
    ) -> Result<Items<OrderName>, Stop>
        ensures { Gives (λ x. x) result self.new
            (with_front (first ∷ []) ((many next_order_name).read self.old)) }
    {
        let mut order = Items::new(alloc);
        order.push(first)?;
        while self.at_mark(Symbol::Comma) {
            order.push(self.next_order_name(alloc)?)?;
        }
        Ok(order)
    }

    #[tactic(auto, unfolding(crate::specs::Grammar::order, crate::specs::Grammar::word_part))]
    pub fn order(&mut self, alloc: Global) -> Result<Items<OrderName>, Stop>
        ensures { Gives (λ x. x) result self.new (order.read self.old) }
    {
        if !self.at_word(Keyword::Order) {
            return Ok(Items::new(alloc));
        }
        self.keyword(Keyword::Order)?;
        self.keyword(Keyword::By)?;
        self.order_names(alloc)
    }

    #[tactic(auto, unfolding(crate::specs::Grammar::limit, crate::specs::Grammar::word_part))]
    pub fn limit(&mut self) -> Result<Option<u32>, Stop>
        ensures { Gives (λ x. x) result self.new (limit.read self.old) }
    {
        if !self.at_word(Keyword::Limit) {
            return Ok(None);
        }
        self.keyword(Keyword::Limit)?;
        Ok(Some(self.number()?))
    }

    #[tactic(auto, unfolding(crate::specs::Grammar::block))]
    pub fn block(&mut self, alloc: Global) -> Result<Block, Stop>
        ensures { Gives (λ x. x) result self.new (block.read self.old) }
    {
        self.keyword(Keyword::Select)?;
        let distinct = self.distinct()?;
        let items = self.items(alloc)?;
        self.keyword(Keyword::From)?;
        let sources = self.sources(alloc)?;
        let filter = self.filter(alloc)?;
        let (group, having) = self.group(alloc)?;
        let order = self.order(alloc)?;
        let limit = self.limit()?;
        Ok(Block {
            distinct,
            items,
            sources,
            filter,
            group,
            having,
            order,
            limit,
        })
    }
}
