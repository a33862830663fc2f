//! Reading columns and conditions.

ghost use Rattle.std.specs.Prelude.{◌≡◌, ◌∷◌, []};
ghost use Rattle.pdn_sql.specs.Part.{Gives, option, many, made, with_front};
ghost use Rattle.pdn_sql.specs.Grammar.{dot_name, col, next_col, cols, plus, term, operand, cmp, next_cmp, cmps, choice, clause, next_clause, cond};

use crate::query::{Col, Name, SqlClause, SqlCmp, SqlOperand, SqlTerm};
use crate::reader::Reader;
use crate::stop::Stop;
use crate::token::{Keyword, Symbol};
use sqlite_items::Items;
use std::alloc::Global;

impl<'a> Reader<'a> {
    #[tactic(auto, unfolding(crate::specs::Grammar::dot_name, crate::specs::Grammar::mark_part))]
    pub fn dot_name(&mut self, alloc: Global) -> Result<Option<Name>, Stop>
        ensures { Gives (λ x. x) result self.new ((option dot_name).read self.old) }
    {
        if !self.at_mark(Symbol::Dot) {
            return Ok(None);
        }
        self.mark(Symbol::Dot)?;
        Ok(Some(self.name(alloc)?))
    }

    #[tactic(auto, unfolding(crate::specs::Grammar::col))]
    pub fn col(&mut self, alloc: Global) -> Result<Col, Stop>
        ensures { Gives (λ x. x) result self.new (col.read self.old) }
    {
        let first = self.name(alloc)?;
        match self.dot_name(alloc)? {
            Some(name) => Ok(Col {
                of: Some(first),
                name,
            }),
            None => Ok(Col {
                of: None,
                name: first,
            }),
        }
    }

    #[tactic(auto, unfolding(crate::specs::Grammar::next_col))]
    pub fn next_col(&mut self, alloc: Global) -> Result<Col, Stop>
        ensures { Gives (λ x. x) result self.new (next_col.read self.old) }
    {
        self.mark(Symbol::Comma)?;
        self.col(alloc)
    }

    #[tactic(auto, unfolding(crate::specs::Grammar::cols))]
    pub fn cols(&mut self, alloc: Global) -> Result<Items<Col>, Stop>
        ensures { Gives (λ x. x) result self.new (cols.read self.old) }
    {
        let first = self.col(alloc)?;
        self.more_cols(alloc, first)
    }

    /// The first of a list, and those that follow.
    fn more_cols(&mut self, alloc: Global, first: Col) -> Result<Items<Col>, Stop>
        ensures { Gives (λ x. x) result self.new
            (with_front (first ∷ []) ((many next_col).read self.old)) }
    {
        let mut cols = Items::new(alloc);
        cols.push(first)?;
        while self.at_mark(Symbol::Comma) {
            cols.push(self.next_col(alloc)?)?;
        }
        Ok(cols)
    }

    #[tactic(auto, unfolding(crate::specs::Grammar::plus, crate::specs::Grammar::mark_part))]
    pub fn plus(&mut self) -> Result<Option<u32>, Stop>
        ensures { Gives (λ x. x) result self.new (plus.read self.old) }
    {
        if !self.at_mark(Symbol::Plus) {
            return Ok(None);
        }
        self.mark(Symbol::Plus)?;
        Ok(Some(self.number()?))
    }

    #[tactic(auto, unfolding(crate::specs::Grammar::term))]
    pub fn term(&mut self, alloc: Global) -> Result<SqlTerm, Stop>
        ensures { Gives (λ x. x) result self.new (term.read self.old) }
    {
        let col = self.col(alloc)?;
        let plus = self.plus()?;
        Ok(SqlTerm { col, plus })
    }

    #[tactic(auto, unfolding(crate::specs::Grammar::operand, crate::specs::Grammar::term, crate::specs::Grammar::col, crate::specs::Grammar::name))]
    pub fn operand(&mut self, alloc: Global) -> Result<SqlOperand, Stop>
        ensures { Gives (λ x. x) result self.new (operand.read self.old) }
    {
        if self.at_name() {
            return Ok(SqlOperand::Term(self.term(alloc)?));
        }
        if self.at_number() {
            return Ok(SqlOperand::Int(self.number()?));
        }
        Ok(SqlOperand::Code(self.code()?))
    }

    #[tactic(auto, unfolding(crate::specs::Grammar::cmp))]
    pub fn cmp(&mut self, alloc: Global) -> Result<SqlCmp, Stop>
        ensures { Gives (λ x. x) result self.new (cmp.read self.old) }
    {
        let left = self.term(alloc)?;
        let op = self.op()?;
        let right = self.operand(alloc)?;
        Ok(SqlCmp { left, op, right })
    }

    #[tactic(auto, unfolding(crate::specs::Grammar::next_cmp))]
    pub fn next_cmp(&mut self, alloc: Global) -> Result<SqlCmp, Stop>
        ensures { Gives (λ x. x) result self.new (next_cmp.read self.old) }
    {
        self.keyword(Keyword::Or)?;
        self.cmp(alloc)
    }

    #[tactic(auto, unfolding(crate::specs::Grammar::cmps))]
    pub fn cmps(&mut self, alloc: Global) -> Result<Items<SqlCmp>, Stop>
        ensures { Gives (λ x. x) result self.new (cmps.read self.old) }
    {
        let first = self.cmp(alloc)?;
        self.more_cmps(alloc, first)
    }

    /// The first of a list, and those that follow.
    fn more_cmps(&mut self, alloc: Global, first: SqlCmp) -> Result<Items<SqlCmp>, Stop>
        ensures { Gives (λ x. x) result self.new
            (with_front (first ∷ []) ((many next_cmp).read self.old)) }
    {
        let mut any = Items::new(alloc);
        any.push(first)?;
        while self.at_word(Keyword::Or) {
            any.push(self.next_cmp(alloc)?)?;
        }
        Ok(any)
    }

    #[tactic(auto, unfolding(crate::specs::Grammar::choice))]
    pub fn choice(&mut self, alloc: Global) -> Result<Items<SqlCmp>, Stop>
        ensures { Gives (λ x. x) result self.new (choice.read self.old) }
    {
        self.mark(Symbol::Open)?;
        let any = self.cmps(alloc)?;
        self.mark(Symbol::Close)?;
        Ok(any)
    }

    pub fn alone(&mut self, alloc: Global) -> Result<Items<SqlCmp>, Stop>
        ensures { Gives (λ x. x) result self.new ((made (λ x. x ∷ []) cmp).read self.old) }
    {
        let cmp = self.cmp(alloc)?;
        let mut any = Items::new(alloc);
        any.push(cmp)?;
        Ok(any)
    }

    #[tactic(auto, unfolding(crate::specs::Grammar::clause, crate::specs::Grammar::cmp, crate::specs::Grammar::term, crate::specs::Grammar::col, crate::specs::Grammar::name))]
    pub fn clause(&mut self, alloc: Global) -> Result<SqlClause, Stop>
        ensures { Gives (λ x. x) result self.new (clause.read self.old) }
    {
        if self.at_name() {
            return Ok(SqlClause {
                any: self.alone(alloc)?,
            });
        }
        Ok(SqlClause {
            any: self.choice(alloc)?,
        })
    }

    #[tactic(auto, unfolding(crate::specs::Grammar::next_clause))]
    pub fn next_clause(&mut self, alloc: Global) -> Result<SqlClause, Stop>
        ensures { Gives (λ x. x) result self.new (next_clause.read self.old) }
    {
        self.keyword(Keyword::And)?;
        self.clause(alloc)
    }

    #[tactic(auto, unfolding(crate::specs::Grammar::cond))]
    pub fn cond(&mut self, alloc: Global) -> Result<Items<SqlClause>, Stop>
        ensures { Gives (λ x. x) result self.new (cond.read self.old) }
    {
        let first = self.clause(alloc)?;
        self.more_clauses(alloc, first)
    }

    /// The first of a list, and those that follow.
    fn more_clauses(&mut self, alloc: Global, first: SqlClause) -> Result<Items<SqlClause>, Stop>
        ensures { Gives (λ x. x) result self.new
            (with_front (first ∷ []) ((many next_clause).read self.old)) }
    {
        let mut all = Items::new(alloc);
        all.push(first)?;
        while self.at_word(Keyword::And) {
            all.push(self.next_clause(alloc)?)?;
        }
        Ok(all)
    }
}
