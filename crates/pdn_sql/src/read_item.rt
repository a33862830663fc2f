//! Reading the items of a block.

ghost use Rattle.std.specs.Prelude.{◌≡◌, ◌∷◌, []};
ghost use Rattle.pdn_sql.specs.Part.{Gives, many, with_front};
ghost use Rattle.pdn_sql.specs.Grammar.{direction, order_col, next_order_col, order_cols, partition, window_order, window, row_number, count, what, as_name, item, next_item, items};

use crate::query::{Col, Item, Name, OrderCol, What};
use crate::reader::Reader;
use crate::stop::Stop;
use crate::token::{Keyword, Symbol};
use sqlite_items::Items;
use std::alloc::Global;

impl<'a> Reader<'a> {
    #[tactic(auto, unfolding(crate::specs::Grammar::direction))]
    pub fn direction(&mut self) -> Result<bool, Stop>
        ensures { Gives (λ x. x) result self.new (direction.read self.old) }
    {
        if self.at_word(Keyword::Asc) {
            self.keyword(Keyword::Asc)?;
            return Ok(false);
        }
        if self.at_word(Keyword::Desc) {
            self.keyword(Keyword::Desc)?;
            return Ok(true);
        }
        Ok(false)
    }

    #[tactic(auto, unfolding(crate::specs::Grammar::order_col))]
    pub fn order_col(&mut self, alloc: Global) -> Result<OrderCol, Stop>
        ensures { Gives (λ x. x) result self.new (order_col.read self.old) }
    {
        let col = self.col(alloc)?;
        let down = self.direction()?;
        Ok(OrderCol { col, down })
    }

    #[tactic(auto, unfolding(crate::specs::Grammar::next_order_col))]
    pub fn next_order_col(&mut self, alloc: Global) -> Result<OrderCol, Stop>
        ensures { Gives (λ x. x) result self.new (next_order_col.read self.old) }
    {
        self.mark(Symbol::Comma)?;
        self.order_col(alloc)
    }

    #[tactic(auto, unfolding(crate::specs::Grammar::order_cols))]
    pub fn order_cols(&mut self, alloc: Global) -> Result<Items<OrderCol>, Stop>
        ensures { Gives (λ x. x) result self.new (order_cols.read self.old) }
    {
        let first = self.order_col(alloc)?;
        self.more_order_cols(alloc, first)
    }

    /// The first of a list, and those that follow.
    fn more_order_cols(&mut self, alloc: Global, first: OrderCol) -> Result<Items<OrderCol>, Stop>
        ensures { Gives (λ x. x) result self.new
            (with_front (first ∷ []) ((many next_order_col).read self.old)) }
    {
        let mut order = Items::new(alloc);
        order.push(first)?;
        while self.at_mark(Symbol::Comma) {
            order.push(self.next_order_col(alloc)?)?;
        }
        Ok(order)
    }

    #[tactic(auto, unfolding(crate::specs::Grammar::partition, crate::specs::Grammar::word_part))]
    pub fn partition(&mut self, alloc: Global) -> Result<Items<Col>, Stop>
        ensures { Gives (λ x. x) result self.new (partition.read self.old) }
    {
        if !self.at_word(Keyword::Partition) {
            return Ok(Items::new(alloc));
        }
        self.keyword(Keyword::Partition)?;
        self.keyword(Keyword::By)?;
        self.cols(alloc)
    }

    #[tactic(auto, unfolding(crate::specs::Grammar::window_order, crate::specs::Grammar::word_part))]
    pub fn window_order(&mut self, alloc: Global) -> Result<Items<OrderCol>, Stop>
        ensures { Gives (λ x. x) result self.new (window_order.read self.old) }
    {
        if !self.at_word(Keyword::Order) {
            return Ok(Items::new(alloc));
        }
        self.keyword(Keyword::Order)?;
        self.keyword(Keyword::By)?;
        self.order_cols(alloc)
    }

    #[tactic(auto, unfolding(crate::specs::Grammar::window))]
    pub fn window(&mut self, alloc: Global) -> Result<What, Stop>
        ensures { Gives (λ x. x) result self.new (window.read self.old) }
    {
        self.mark(Symbol::Open)?;
        let partition = self.partition(alloc)?;
        let order = self.window_order(alloc)?;
        self.mark(Symbol::Close)?;
        Ok(What::Number { partition, order })
    }

    #[tactic(auto, unfolding(crate::specs::Grammar::row_number))]
    pub fn row_number(&mut self, alloc: Global) -> Result<What, Stop>
        ensures { Gives (λ x. x) result self.new (row_number.read self.old) }
    {
        self.keyword(Keyword::RowNumber)?;
        self.mark(Symbol::Open)?;
        self.mark(Symbol::Close)?;
        self.keyword(Keyword::Over)?;
        self.window(alloc)
    }

    #[tactic(auto, unfolding(crate::specs::Grammar::count))]
    pub fn count(&mut self) -> Result<(), Stop>
        ensures { Gives (λ x. x) result self.new (count.read self.old) }
    {
        self.keyword(Keyword::Count)?;
        self.mark(Symbol::Open)?;
        self.mark(Symbol::Star)?;
        self.mark(Symbol::Close)
    }

    #[tactic(auto, unfolding(crate::specs::Grammar::what, crate::specs::Grammar::col, crate::specs::Grammar::name, crate::specs::Grammar::count, crate::specs::Grammar::word_part))]
    pub fn what(&mut self, alloc: Global) -> Result<What, Stop>
        ensures { Gives (λ x. x) result self.new (what.read self.old) }
    {
        if self.at_name() {
            return Ok(What::Column(self.col(alloc)?));
        }
        if self.at_word(Keyword::Count) {
            self.count()?;
            return Ok(What::Count);
        }
        self.row_number(alloc)
    }

    #[tactic(auto, unfolding(crate::specs::Grammar::as_name, crate::specs::Grammar::word_part))]
    pub fn as_name(&mut self, alloc: Global) -> Result<Option<Name>, Stop>
        ensures { Gives (λ x. x) result self.new (as_name.read self.old) }
    {
        if !self.at_word(Keyword::As) {
            return Ok(None);
        }
        self.keyword(Keyword::As)?;
        Ok(Some(self.name(alloc)?))
    }

    #[tactic(auto, unfolding(crate::specs::Grammar::item))]
    pub fn item(&mut self, alloc: Global) -> Result<Item, Stop>
        ensures { Gives (λ x. x) result self.new (item.read self.old) }
    {
        let what = self.what(alloc)?;
        let alias = self.as_name(alloc)?;
        Ok(Item { what, alias })
    }

    #[tactic(auto, unfolding(crate::specs::Grammar::next_item))]
    pub fn next_item(&mut self, alloc: Global) -> Result<Item, Stop>
        ensures { Gives (λ x. x) result self.new (next_item.read self.old) }
    {
        self.mark(Symbol::Comma)?;
        self.item(alloc)
    }

    #[tactic(auto, unfolding(crate::specs::Grammar::items))]
    pub fn items(&mut self, alloc: Global) -> Result<Items<Item>, Stop>
        ensures { Gives (λ x. x) result self.new (items.read self.old) }
    {
        let first = self.item(alloc)?;
        self.more_items(alloc, first)
    }

    /// The first of a list, and those that follow.
    fn more_items(&mut self, alloc: Global, first: Item) -> Result<Items<Item>, Stop>
        ensures { Gives (λ x. x) result self.new
            (with_front (first ∷ []) ((many next_item).read self.old)) }
    {
        let mut items = Items::new(alloc);
        items.push(first)?;
        while self.at_mark(Symbol::Comma) {
            items.push(self.next_item(alloc)?)?;
        }
        Ok(items)
    }
}
