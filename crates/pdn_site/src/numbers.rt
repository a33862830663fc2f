//! The numbers in a tree: that each fits its type, which is known once it is looked at.
ghost use Rattle.std.specs.Prelude.{◌≡◌, true};
ghost use Rattle.std.specs.List.{list_all};
ghost use Rattle.pdn_site.specs.Meaning.{is_number, operand_number, cmp_numbers, cond_numbers, numbers_fit};

use pdn_base::{Clause, Cmp, Cond, Operand};
use pdn_tree::Node;

fn number_held(number: Option<u32>)
    ensures { is_number number ≡ true }
{
    match number {
        None => (),
        Some(n) => {
            let _number = n;
        }
    }
}

fn operand_held(operand: &Operand)
    ensures { operand_number operand.now ≡ true }
{
    match operand {
        Operand::Term(term) => number_held(term.plus),
        Operand::Int(number) => {
            let _number = *number;
        }
        Operand::Code(code) => {
            let _number = code.number();
        }
    }
}

fn cmp_held(cmp: &Cmp)
    ensures { cmp_numbers cmp.now ≡ true }
{
    number_held(cmp.left.plus);
    operand_held(&cmp.right);
}

fn clause_held(clause: &[Cmp])
    ensures { list_all cmp_numbers clause.now ≡ true }
{
    if let Some((cmp, rest)) = clause.split_first() {
        cmp_held(cmp);
        clause_held(rest);
    }
}

fn clauses_held(clauses: &[Clause])
    ensures { cond_numbers clauses.now ≡ true }
{
    if let Some((clause, rest)) = clauses.split_first() {
        clause_held(clause.any.as_slice());
        clauses_held(rest);
    }
}

fn cond_held(cond: &Cond)
    ensures { cond_numbers cond.now ≡ true }
{
    clauses_held(cond.all.as_slice());
}

/// The numbers of a tree's conditions and limits, and its codes, fit their types.
pub(crate) fn numbers_held(node: &Node)
    ensures { numbers_fit node.now ≡ true }
{
    match node {
        Node::Scan { .. } => (),
        Node::Filter { child, cond } => {
            numbers_held(child.get());
            cond_held(cond);
        }
        Node::Join { left, right, on } => {
            numbers_held(left.get());
            numbers_held(right.get());
            cond_held(on);
        }
        Node::Group { child, having, .. } => {
            numbers_held(child.get());
            number_held(*having);
        }
        Node::Top { child, limit, .. } => {
            numbers_held(child.get());
            number_held(*limit);
        }
        Node::Project { child, .. }
        | Node::Count { child }
        | Node::Distinct { child }
        | Node::Number { child, .. } => numbers_held(child.get()),
    }
}
