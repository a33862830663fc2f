//! The tokens of a query's printed form.

ghost use Rattle.std.specs.Prelude.{◌≡◌, ◌∷◌, [], ◌++◌, OnOk, IfOk};
ghost use Rattle.pdn_sql.specs.declared.token.Token.TheVariants.{Word, Mark, Number};
ghost use Rattle.pdn_sql.specs.declared.token.Keyword.TheVariants as words;
ghost use Rattle.pdn_sql.specs.declared.token.Symbol.TheVariants as marks;
ghost use Rattle.pdn_sql.specs.Printing.{each, between, maybe, name_tokens, source_of, col_tokens, plus_tokens, term_tokens, operand_tokens, op_mark, cmp_tokens, clause_tokens, cond_tokens, down_tokens, order_col_tokens, partition_tokens, window_order_tokens, what_tokens, alias_tokens, item_tokens, source_tokens, join_tokens, sources_tokens, distinct_tokens, filter_tokens, having_tokens, group_tokens, order_name_tokens, order_tokens, limit_tokens, block_tokens, named_tokens, with_tokens, query_tokens};

use crate::query::{
    Block, Col, Item, Name, Named, OrderCol, OrderName, Query, Source, SqlClause, SqlCmp,
    SqlOperand, SqlTerm, What,
};
use crate::token::{Keyword, Symbol, Token};
use pdn_base::Op;
use std::alloc::{AllocError, Global};

fn put_word(out: &mut Vec<Token>, word: Keyword) -> Result<(), AllocError>
    ensures { OnOk result (out.new.items ≡ out.old.items ++ Word word ∷ []) }
{
    out.push(Token::Word(word))?;
    Ok(())
}

fn put_mark(out: &mut Vec<Token>, mark: Symbol) -> Result<(), AllocError>
    ensures { OnOk result (out.new.items ≡ out.old.items ++ Mark mark ∷ []) }
{
    out.push(Token::Mark(mark))?;
    Ok(())
}

fn put_number(out: &mut Vec<Token>, n: u32) -> Result<(), AllocError>
    ensures { OnOk result (out.new.items ≡ out.old.items ++ Number n ∷ []) }
{
    out.push(Token::Number(n))?;
    Ok(())
}

fn op_mark(op: Op) -> Symbol
    ensures { result ≡ op_mark op }
{
    match op {
        Op::Eq => Symbol::Equal,
        Op::Ne => Symbol::Unequal,
        Op::Lt => Symbol::Less,
        Op::Le => Symbol::AtMost,
        Op::Gt => Symbol::More,
        Op::Ge => Symbol::AtLeast,
    }
}

fn put_name(alloc: Global, out: &mut Vec<Token>, name: &Name) -> Result<(), AllocError>
    ensures { OnOk result (out.new.items ≡ out.old.items ++ name_tokens name.now) }
{
    out.push(Token::Name(name.text.copy(alloc)?))?;
    Ok(())
}

fn put_source_name(alloc: Global, out: &mut Vec<Token>, of: &Option<Name>) -> Result<(), AllocError>
    ensures { OnOk result (out.new.items ≡ out.old.items ++ maybe source_of of.now) }
{
    if let Some(name) = of {
        put_name(alloc, out, name)?;
        put_mark(out, Symbol::Dot)?;
    }
    Ok(())
}

#[tactic(auto, unfolding(crate::specs::Printing::col_tokens))]
fn put_col(alloc: Global, out: &mut Vec<Token>, col: &Col) -> Result<(), AllocError>
    ensures { OnOk result (out.new.items ≡ out.old.items ++ col_tokens col.now) }
{
    put_source_name(alloc, out, &col.of)?;
    put_name(alloc, out, &col.name)
}

fn put_plus(out: &mut Vec<Token>, plus: Option<u32>) -> Result<(), AllocError>
    ensures { OnOk result (out.new.items ≡ out.old.items ++ maybe plus_tokens plus) }
{
    if let Some(n) = plus {
        put_mark(out, Symbol::Plus)?;
        put_number(out, n)?;
    }
    Ok(())
}

#[tactic(auto, unfolding(crate::specs::Printing::term_tokens))]
fn put_term(alloc: Global, out: &mut Vec<Token>, term: &SqlTerm) -> Result<(), AllocError>
    ensures { OnOk result (out.new.items ≡ out.old.items ++ term_tokens term.now) }
{
    put_col(alloc, out, &term.col)?;
    put_plus(out, term.plus)
}

#[tactic(auto, unfolding(crate::specs::Printing::operand_tokens))]
fn put_operand(alloc: Global, out: &mut Vec<Token>, operand: &SqlOperand) -> Result<(), AllocError>
    ensures { OnOk result (out.new.items ≡ out.old.items ++ operand_tokens operand.now) }
{
    match operand {
        SqlOperand::Term(term) => put_term(alloc, out, term),
        SqlOperand::Int(n) => put_number(out, *n),
        SqlOperand::Code(code) => {
            out.push(Token::Code(*code))?;
            Ok(())
        }
    }
}

#[tactic(auto, unfolding(crate::specs::Printing::cmp_tokens))]
fn put_cmp(alloc: Global, out: &mut Vec<Token>, cmp: &SqlCmp) -> Result<(), AllocError>
    ensures { OnOk result (out.new.items ≡ out.old.items ++ cmp_tokens cmp.now) }
{
    put_term(alloc, out, &cmp.left)?;
    put_mark(out, op_mark(cmp.op))?;
    put_operand(alloc, out, &cmp.right)
}

fn more_cmps(alloc: Global, out: &mut Vec<Token>, rest: &[SqlCmp]) -> Result<(), AllocError>
    ensures { OnOk result (out.new.items ≡ out.old.items
        ++ each (λ x. Word words.Or ∷ cmp_tokens x) rest.now) }
{
    for x in rest {
        put_word(out, Keyword::Or)?;
        put_cmp(alloc, out, x)?;
    }
    Ok(())
}

fn put_cmps(alloc: Global, out: &mut Vec<Token>, all: &[SqlCmp]) -> Result<(), AllocError>
    ensures { OnOk result (out.new.items ≡ out.old.items
        ++ between (Word words.Or) (λ x. cmp_tokens x) all.now) }
{
    let Some((first, rest)) = all.split_first() else {
        return Ok(());
    };
    put_cmp(alloc, out, first)?;
    more_cmps(alloc, out, rest)
}

fn put_choice(alloc: Global, out: &mut Vec<Token>, any: &[SqlCmp]) -> Result<(), AllocError>
    ensures { OnOk result (out.new.items ≡ out.old.items ++ Mark marks.Open
        ∷ between (Word words.Or) (λ x. cmp_tokens x) any.now ++ Mark marks.Close ∷ []) }
{
    put_mark(out, Symbol::Open)?;
    put_cmps(alloc, out, any)?;
    put_mark(out, Symbol::Close)
}

#[tactic(auto, unfolding(crate::specs::Printing::clause_tokens))]
fn put_clause(alloc: Global, out: &mut Vec<Token>, clause: &SqlClause) -> Result<(), AllocError>
    ensures { OnOk result (out.new.items ≡ out.old.items ++ clause_tokens clause.now.any) }
{
    match clause.any.as_slice().split_first() {
        None => Ok(()),
        Some((first, [])) => put_cmp(alloc, out, first),
        Some(_) => put_choice(alloc, out, clause.any.as_slice()),
    }
}

fn more_cond(alloc: Global, out: &mut Vec<Token>, rest: &[SqlClause]) -> Result<(), AllocError>
    ensures { OnOk result (out.new.items ≡ out.old.items
        ++ each (λ x. Word words.And ∷ clause_tokens x.any) rest.now) }
{
    for x in rest {
        put_word(out, Keyword::And)?;
        put_clause(alloc, out, x)?;
    }
    Ok(())
}

fn put_cond(alloc: Global, out: &mut Vec<Token>, all: &[SqlClause]) -> Result<(), AllocError>
    ensures { OnOk result (out.new.items ≡ out.old.items
        ++ between (Word words.And) (λ x. clause_tokens x.any) all.now) }
{
    let Some((first, rest)) = all.split_first() else {
        return Ok(());
    };
    put_clause(alloc, out, first)?;
    more_cond(alloc, out, rest)
}

fn put_down(out: &mut Vec<Token>, down: bool) -> Result<(), AllocError>
    ensures { OnOk result (out.new.items ≡ out.old.items ++ down_tokens down) }
{
    if down {
        put_word(out, Keyword::Desc)?;
    }
    Ok(())
}

#[tactic(auto, unfolding(crate::specs::Printing::order_col_tokens))]
fn put_order_col(alloc: Global, out: &mut Vec<Token>, order: &OrderCol) -> Result<(), AllocError>
    ensures { OnOk result (out.new.items ≡ out.old.items ++ order_col_tokens order.now) }
{
    put_col(alloc, out, &order.col)?;
    put_down(out, order.down)
}

fn more_cols(alloc: Global, out: &mut Vec<Token>, rest: &[Col]) -> Result<(), AllocError>
    ensures { OnOk result (out.new.items ≡ out.old.items
        ++ each (λ x. Mark marks.Comma ∷ col_tokens x) rest.now) }
{
    for x in rest {
        put_mark(out, Symbol::Comma)?;
        put_col(alloc, out, x)?;
    }
    Ok(())
}

fn put_cols(alloc: Global, out: &mut Vec<Token>, all: &[Col]) -> Result<(), AllocError>
    ensures { OnOk result (out.new.items ≡ out.old.items
        ++ between (Mark marks.Comma) (λ x. col_tokens x) all.now) }
{
    let Some((first, rest)) = all.split_first() else {
        return Ok(());
    };
    put_col(alloc, out, first)?;
    more_cols(alloc, out, rest)
}

fn more_order_cols(alloc: Global, out: &mut Vec<Token>, rest: &[OrderCol]) -> Result<(), AllocError>
    ensures { OnOk result (out.new.items ≡ out.old.items
        ++ each (λ x. Mark marks.Comma ∷ order_col_tokens x) rest.now) }
{
    for x in rest {
        put_mark(out, Symbol::Comma)?;
        put_order_col(alloc, out, x)?;
    }
    Ok(())
}

fn put_order_cols(alloc: Global, out: &mut Vec<Token>, all: &[OrderCol]) -> Result<(), AllocError>
    ensures { OnOk result (out.new.items ≡ out.old.items
        ++ between (Mark marks.Comma) (λ x. order_col_tokens x) all.now) }
{
    let Some((first, rest)) = all.split_first() else {
        return Ok(());
    };
    put_order_col(alloc, out, first)?;
    more_order_cols(alloc, out, rest)
}

#[tactic(auto, unfolding(crate::specs::Printing::partition_tokens))]
fn put_partition(alloc: Global, out: &mut Vec<Token>, partition: &[Col]) -> Result<(), AllocError>
    ensures { OnOk result (out.new.items ≡ out.old.items ++ partition_tokens partition.now) }
{
    if partition.is_empty() {
        return Ok(());
    }
    put_word(out, Keyword::Partition)?;
    put_word(out, Keyword::By)?;
    put_cols(alloc, out, partition)
}

#[tactic(auto, unfolding(crate::specs::Printing::window_order_tokens))]
fn put_window_order(
    alloc: Global,
    out: &mut Vec<Token>,
    order: &[OrderCol],
) -> Result<(), AllocError>
    ensures { OnOk result (out.new.items ≡ out.old.items ++ window_order_tokens order.now) }
{
    if order.is_empty() {
        return Ok(());
    }
    put_word(out, Keyword::Order)?;
    put_word(out, Keyword::By)?;
    put_order_cols(alloc, out, order)
}

fn put_window(
    alloc: Global,
    out: &mut Vec<Token>,
    partition: &[Col],
    order: &[OrderCol],
) -> Result<(), AllocError>
    ensures { OnOk result (out.new.items ≡ out.old.items ++ partition_tokens partition.now
        ++ window_order_tokens order.now) }
{
    put_partition(alloc, out, partition)?;
    put_window_order(alloc, out, order)
}

fn put_count(out: &mut Vec<Token>) -> Result<(), AllocError>
    ensures { OnOk result (out.new.items ≡ out.old.items ++ Word words.Count ∷ Mark marks.Open
        ∷ Mark marks.Star ∷ Mark marks.Close ∷ []) }
{
    put_word(out, Keyword::Count)?;
    put_mark(out, Symbol::Open)?;
    put_mark(out, Symbol::Star)?;
    put_mark(out, Symbol::Close)
}

fn put_number_front(out: &mut Vec<Token>) -> Result<(), AllocError>
    ensures { OnOk result (out.new.items ≡ out.old.items ++ Word words.RowNumber ∷ Mark marks.Open
        ∷ Mark marks.Close ∷ Word words.Over ∷ Mark marks.Open ∷ []) }
{
    put_word(out, Keyword::RowNumber)?;
    put_mark(out, Symbol::Open)?;
    put_mark(out, Symbol::Close)?;
    put_word(out, Keyword::Over)?;
    put_mark(out, Symbol::Open)
}

#[tactic(auto, unfolding(crate::specs::Printing::what_tokens))]
fn put_what(alloc: Global, out: &mut Vec<Token>, what: &What) -> Result<(), AllocError>
    ensures { OnOk result (out.new.items ≡ out.old.items ++ what_tokens what.now) }
{
    match what {
        What::Column(col) => put_col(alloc, out, col),
        What::Count => put_count(out),
        What::Number { partition, order } => {
            put_number_front(out)?;
            put_window(alloc, out, partition.as_slice(), order.as_slice())?;
            put_mark(out, Symbol::Close)
        }
    }
}

fn put_alias(alloc: Global, out: &mut Vec<Token>, alias: &Option<Name>) -> Result<(), AllocError>
    ensures { OnOk result (out.new.items ≡ out.old.items ++ maybe alias_tokens alias.now) }
{
    if let Some(name) = alias {
        put_word(out, Keyword::As)?;
        put_name(alloc, out, name)?;
    }
    Ok(())
}

#[tactic(auto, unfolding(crate::specs::Printing::item_tokens))]
fn put_item(alloc: Global, out: &mut Vec<Token>, item: &Item) -> Result<(), AllocError>
    ensures { OnOk result (out.new.items ≡ out.old.items ++ item_tokens item.now) }
{
    put_what(alloc, out, &item.what)?;
    put_alias(alloc, out, &item.alias)
}

fn more_items(alloc: Global, out: &mut Vec<Token>, rest: &[Item]) -> Result<(), AllocError>
    ensures { OnOk result (out.new.items ≡ out.old.items
        ++ each (λ x. Mark marks.Comma ∷ item_tokens x) rest.now) }
{
    for x in rest {
        put_mark(out, Symbol::Comma)?;
        put_item(alloc, out, x)?;
    }
    Ok(())
}

fn put_items(alloc: Global, out: &mut Vec<Token>, all: &[Item]) -> Result<(), AllocError>
    ensures { OnOk result (out.new.items ≡ out.old.items
        ++ between (Mark marks.Comma) (λ x. item_tokens x) all.now) }
{
    let Some((first, rest)) = all.split_first() else {
        return Ok(());
    };
    put_item(alloc, out, first)?;
    more_items(alloc, out, rest)
}

#[tactic(auto, unfolding(crate::specs::Printing::source_tokens))]
fn put_source(alloc: Global, out: &mut Vec<Token>, source: &Source) -> Result<(), AllocError>
    ensures { OnOk result (out.new.items ≡ out.old.items ++ source_tokens source.now) }
{
    put_name(alloc, out, &source.name)?;
    put_alias(alloc, out, &source.alias)
}

#[tactic(auto, unfolding(crate::specs::Printing::join_tokens))]
fn put_join(alloc: Global, out: &mut Vec<Token>, source: &Source) -> Result<(), AllocError>
    ensures { OnOk result (out.new.items ≡ out.old.items ++ join_tokens source.now) }
{
    put_word(out, Keyword::Join)?;
    put_source(alloc, out, source)?;
    put_word(out, Keyword::On)?;
    put_cond(alloc, out, source.on.as_slice())
}

fn put_joins(alloc: Global, out: &mut Vec<Token>, rest: &[Source]) -> Result<(), AllocError>
    ensures { OnOk result (out.new.items ≡ out.old.items ++ each join_tokens rest.now) }
{
    for x in rest {
        put_join(alloc, out, x)?;
    }
    Ok(())
}

#[tactic(auto, unfolding(crate::specs::Printing::sources_tokens))]
fn put_sources(alloc: Global, out: &mut Vec<Token>, all: &[Source]) -> Result<(), AllocError>
    ensures { OnOk result (out.new.items ≡ out.old.items ++ sources_tokens all.now) }
{
    let Some((first, rest)) = all.split_first() else {
        return Ok(());
    };
    put_source(alloc, out, first)?;
    put_joins(alloc, out, rest)
}

fn put_distinct(out: &mut Vec<Token>, distinct: bool) -> Result<(), AllocError>
    ensures { OnOk result (out.new.items ≡ out.old.items ++ distinct_tokens distinct) }
{
    if distinct {
        put_word(out, Keyword::Distinct)?;
    }
    Ok(())
}

#[tactic(auto, unfolding(crate::specs::Printing::filter_tokens))]
fn put_filter(alloc: Global, out: &mut Vec<Token>, filter: &[SqlClause]) -> Result<(), AllocError>
    ensures { OnOk result (out.new.items ≡ out.old.items ++ filter_tokens filter.now) }
{
    if filter.is_empty() {
        return Ok(());
    }
    put_word(out, Keyword::Where)?;
    put_cond(alloc, out, filter)
}

fn put_having(out: &mut Vec<Token>, having: Option<u32>) -> Result<(), AllocError>
    ensures { OnOk result (out.new.items ≡ out.old.items ++ maybe having_tokens having) }
{
    if let Some(n) = having {
        put_word(out, Keyword::Having)?;
        put_count(out)?;
        put_mark(out, Symbol::AtLeast)?;
        put_number(out, n)?;
    }
    Ok(())
}

#[tactic(auto, unfolding(crate::specs::Printing::group_tokens))]
fn put_group(
    alloc: Global,
    out: &mut Vec<Token>,
    group: &[Col],
    having: Option<u32>,
) -> Result<(), AllocError>
    ensures { OnOk result (out.new.items ≡ out.old.items ++ group_tokens group.now having) }
{
    if group.is_empty() {
        return Ok(());
    }
    put_word(out, Keyword::Group)?;
    put_word(out, Keyword::By)?;
    put_cols(alloc, out, group)?;
    put_having(out, having)
}

#[tactic(auto, unfolding(crate::specs::Printing::order_name_tokens))]
fn put_order_name(alloc: Global, out: &mut Vec<Token>, order: &OrderName) -> Result<(), AllocError>
    ensures { OnOk result (out.new.items ≡ out.old.items ++ order_name_tokens order.now) }
{
    put_name(alloc, out, &order.name)?;
    put_down(out, order.down)
}

fn more_order_names(
    alloc: Global,
    out: &mut Vec<Token>,
    rest: &[OrderName],
) -> Result<(), AllocError>
    ensures { OnOk result (out.new.items ≡ out.old.items
        ++ each (λ x. Mark marks.Comma ∷ order_name_tokens x) rest.now) }
{
    for x in rest {
        put_mark(out, Symbol::Comma)?;
        put_order_name(alloc, out, x)?;
    }
    Ok(())
}

fn put_order_names(alloc: Global, out: &mut Vec<Token>, all: &[OrderName]) -> Result<(), AllocError>
    ensures { OnOk result (out.new.items ≡ out.old.items
        ++ between (Mark marks.Comma) (λ x. order_name_tokens x) all.now) }
{
    let Some((first, rest)) = all.split_first() else {
        return Ok(());
    };
    put_order_name(alloc, out, first)?;
    more_order_names(alloc, out, rest)
}

#[tactic(auto, unfolding(crate::specs::Printing::order_tokens))]
fn put_order(alloc: Global, out: &mut Vec<Token>, order: &[OrderName]) -> Result<(), AllocError>
    ensures { OnOk result (out.new.items ≡ out.old.items ++ order_tokens order.now) }
{
    if order.is_empty() {
        return Ok(());
    }
    put_word(out, Keyword::Order)?;
    put_word(out, Keyword::By)?;
    put_order_names(alloc, out, order)
}

fn put_limit(out: &mut Vec<Token>, limit: Option<u32>) -> Result<(), AllocError>
    ensures { OnOk result (out.new.items ≡ out.old.items ++ maybe limit_tokens limit) }
{
    if let Some(n) = limit {
        put_word(out, Keyword::Limit)?;
        put_number(out, n)?;
    }
    Ok(())
}

fn put_front(alloc: Global, out: &mut Vec<Token>, block: &Block) -> Result<(), AllocError>
    ensures { OnOk result (out.new.items ≡ out.old.items ++ Word words.Select
        ∷ distinct_tokens block.now.distinct ++ between (Mark marks.Comma) (λ x.
        item_tokens x) block.now.items ++ Word words.From ∷ []) }
{
    put_word(out, Keyword::Select)?;
    put_distinct(out, block.distinct)?;
    put_items(alloc, out, block.items.as_slice())?;
    put_word(out, Keyword::From)
}

fn put_rest(alloc: Global, out: &mut Vec<Token>, block: &Block) -> Result<(), AllocError>
    ensures { OnOk result (out.new.items ≡ out.old.items ++ filter_tokens block.now.filter
        ++ group_tokens block.now.group block.now.having ++ order_tokens block.now.order ++ maybe limit_tokens block.now.limit) }
{
    put_filter(alloc, out, block.filter.as_slice())?;
    put_group(alloc, out, block.group.as_slice(), block.having)?;
    put_order(alloc, out, block.order.as_slice())?;
    put_limit(out, block.limit)
}

#[tactic(auto, unfolding(crate::specs::Printing::block_tokens))]
fn put_block(alloc: Global, out: &mut Vec<Token>, block: &Block) -> Result<(), AllocError>
    ensures { OnOk result (out.new.items ≡ out.old.items ++ block_tokens block.now) }
{
    put_front(alloc, out, block)?;
    put_sources(alloc, out, block.sources.as_slice())?;
    put_rest(alloc, out, block)
}

#[tactic(auto, unfolding(crate::specs::Printing::named_tokens))]
fn put_named(alloc: Global, out: &mut Vec<Token>, named: &Named) -> Result<(), AllocError>
    ensures { OnOk result (out.new.items ≡ out.old.items ++ named_tokens named.now) }
{
    put_name(alloc, out, &named.name)?;
    put_word(out, Keyword::As)?;
    put_mark(out, Symbol::Open)?;
    put_block(alloc, out, &named.block)?;
    put_mark(out, Symbol::Close)
}

fn more_nameds(alloc: Global, out: &mut Vec<Token>, rest: &[Named]) -> Result<(), AllocError>
    ensures { OnOk result (out.new.items ≡ out.old.items
        ++ each (λ x. Mark marks.Comma ∷ named_tokens x) rest.now) }
{
    for x in rest {
        put_mark(out, Symbol::Comma)?;
        put_named(alloc, out, x)?;
    }
    Ok(())
}

fn put_nameds(alloc: Global, out: &mut Vec<Token>, all: &[Named]) -> Result<(), AllocError>
    ensures { OnOk result (out.new.items ≡ out.old.items
        ++ between (Mark marks.Comma) (λ x. named_tokens x) all.now) }
{
    let Some((first, rest)) = all.split_first() else {
        return Ok(());
    };
    put_named(alloc, out, first)?;
    more_nameds(alloc, out, rest)
}

#[tactic(auto, unfolding(crate::specs::Printing::with_tokens))]
fn put_with(alloc: Global, out: &mut Vec<Token>, with: &[Named]) -> Result<(), AllocError>
    ensures { OnOk result (out.new.items ≡ out.old.items ++ with_tokens with.now) }
{
    if with.is_empty() {
        return Ok(());
    }
    put_word(out, Keyword::With)?;
    put_nameds(alloc, out, with)
}

#[tactic(auto, unfolding(crate::specs::Printing::query_tokens))]
pub fn put_query(alloc: Global, out: &mut Vec<Token>, query: &Query) -> Result<(), AllocError>
    ensures { OnOk result (out.new.items ≡ out.old.items ++ query_tokens query.now) }
{
    put_with(alloc, out, query.with.as_slice())?;
    put_block(alloc, out, &query.main)?;
    put_mark(out, Symbol::Semicolon)
}
