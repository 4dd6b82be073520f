//! The one test in the schema: a column is 1.

ghost use Rattle.std.specs.Prelude.{◌≡◌, ◌≢◌, ◌↔◌, ℕ, pos, [], ◌∷◌, slice_index_or, None, IfSome, IsTrue};
ghost use Rattle.sqlite_value.specs.declared.value.Value.TheVariants.{Null, Int};
ghost use Rattle.sqlite_value.specs.declared.keys.Collation.TheVariants.{Binary};
ghost use Rattle.sqlite_schema.specs.Code.{term_in};
ghost use Rattle.sqlite_sql.specs.Term.{lit, col, op2};
ghost use Rattle.sqlite_sql.specs.declared.ops.BinaryOp.TheVariants.{Compare};
ghost use Rattle.sqlite_sql.specs.declared.ops.CompareOp.TheVariants.{Eq};

use sqlite::types::Value;
use sqlite_items::Items;
use sqlite_schema::code::{Op, Terms};
use sqlite_sql::ops::{BinaryOp, CompareOp};
use sqlite_value::keys::Collation;

/// Returns whether the node at `at` is the first column of a row.
pub fn is_first_column(nodes: &Items<Op>, at: usize) -> bool
    ensures { IsTrue result ↔ slice_index_or nodes.now at (Op.Literal Null) ≡ Op.Column 1 0 }
{
    match nodes.get(at) {
        Some(op) => matches!(op, Op::Column(1, 0)),
        None => false,
    }
}

/// Returns whether the node at `at` is the number 1.
pub fn is_number_one(nodes: &Items<Op>, at: usize) -> bool
    ensures { IsTrue result ↔ slice_index_or nodes.now at (Op.Literal Null) ≡ Op.Literal (Int (pos 1)) }
{
    match nodes.get(at) {
        Some(op) => matches!(op, Op::Literal(Value::Int(1))),
        None => false,
    }
}

/// Returns the two sides of the node at `at` where it tests that they are equal, and else `None`.
pub fn sides(nodes: &Items<Op>, at: usize) -> Option<(usize, usize)>
    ensures equal { IfSome result (λ it. slice_index_or nodes.now at (Op.Literal Null) ≡ Op.Binary (Compare Eq Binary) it.0 it.1) }
    ensures other { result ≡ None → (a b : ℕ) → slice_index_or nodes.now at (Op.Literal Null) ≢ Op.Binary (Compare Eq Binary) a b }
{
    match nodes.get(at) {
        Some(Op::Binary(BinaryOp::Compare(CompareOp::Eq, Collation::Binary), first, second)) => {
            Some((*first, *second))
        }
        _ => None,
    }
}

/// Returns whether the node at `root` is the test that the first column of a row is 1.
pub fn is_test(nodes: &Items<Op>, root: usize) -> bool
    ensures { IsTrue result ↔ term_in nodes.now root ≡ op2 (Compare Eq Binary) (col 1 0) (lit (Int (pos 1))) }
{
    let Some((first, second)) = sides(nodes, root) else {
        return false;
    };
    is_first_column(nodes, first) && is_number_one(nodes, second)
}

/// Returns whether `terms` has one term: the test that the first column of a row is 1.
pub fn is_one_test(terms: &Terms) -> bool
    ensures { IsTrue result ↔ terms.now ≡ op2 (Compare Eq Binary) (col 1 0) (lit (Int (pos 1))) ∷ [] }
{
    match terms.roots.as_slice() {
        [root] => is_test(&terms.nodes, *root),
        _ => false,
    }
}
