//! That no list is longer than its padded length.

ghost use Rattle.std.specs.Prelude.{◌≡◌, ◌≤◌, ℕ, List, [], true, length, sum_by};
ghost use Rattle.std.specs.List.{AllByRecursion};
ghost use Rattle.pdn_base.specs.declared.value.Value.{Value};
ghost use Rattle.pdn_schema.specs.Rows.{AreValid, union};
ghost use Rattle.pdn_tree.specs.Meaning.{Rows, mean, table_of};
ghost use Rattle.pdn_level.specs.Links.{slice_at};
ghost use Rattle.pdn_level.specs.Slices.{slices};
ghost use Rattle.pdn_level.specs.Levels.{leaves_of};
ghost use Rattle.pdn_level.specs.Cutting.{AreWide, HaveEach, mean_at, slice_column};
ghost use Rattle.pdn_level.specs.Padding.{IsFew, padding, SegmentsFit, root_room};

use pdn_schema::Schema;
use pdn_tree::Node;

/// Over valid tables of both sites every table's rows in the union are as wide as the schema says, which is all that the law
/// of slices asks of them.
pub fn unions_are_wide(schema: &Schema)
    ensures { (a b : List Rows) → AreValid schema.now a → AreValid schema.now b
        → AreWide schema.now (union a b) }
{}

/// The law of padding in units. For every tree and each of its slice columns, the list of a unit is no longer than its padded
/// length: of `sites` sites, where each leaf has as few rows of the value as so many sites may hold; of both sites, over valid
/// tables; and of one site, over its own.
pub fn units_fit(schema: &Schema, node: &Node)
    ensures few { (tables : ℕ → Rows) (sites : ℕ) (v : Value) (column : ℕ)
        → AreWide schema.now tables → slice_at (slices schema.now
        node.now) column ≡ true → AllByRecursion (IsFew schema.now tables sites v)
        (leaves_of schema.now node.now column) → length (mean_at schema.now tables v node.now
        column) ≤ (padding schema.now sites node.now column).room }
    ensures secure { (a b : List Rows) (v : Value) (column : ℕ) → AreValid schema.now a
        → AreValid schema.now b → slice_at (slices schema.now
        node.now) column ≡ true → length (mean_at schema.now (union a b) v node.now column)
        ≤ (padding schema.now 2 node.now column).room }
    ensures plain { (tables : List Rows) (v : Value) (column : ℕ) → AreValid schema.now tables
        → slice_at (slices schema.now node.now) column ≡ true → length (mean_at schema.now
        (table_of tables) v node.now column) ≤ (padding schema.now 1 node.now column).room }
{}

/// The law of appended lists: a tree that has a slice column has no more rows than the padded lengths of its units together,
/// where each unit's value stands in as few rows of each leaf as the unit's sites may hold.
pub fn units_fit_together(schema: &Schema, node: &Node)
    ensures { (tables : ℕ → Rows) (values : List Value) (sites : Value → ℕ)
        → AreWide schema.now tables → slice_at (slices schema.now node.now) (slice_column schema.now
        node.now) ≡ true → HaveEach tables
        (leaves_of schema.now node.now (slice_column schema.now node.now)) values → ((v : Value)
        → AllByRecursion (IsFew schema.now tables (sites v) v) (leaves_of schema.now node.now
        (slice_column schema.now node.now))) → length (mean tables node.now)
        ≤ sum_by (λ v. (padding schema.now (sites v) node.now
        (slice_column schema.now node.now)).room) values }
{}

/// The law of padding in the root: over valid tables of both sites no tree has more rows than its list has room for, where no
/// segment has more than its units have room for together.
pub fn root_fits(schema: &Schema, node: &Node)
    ensures { (a b : List Rows) (units : List ℕ → ℕ) → AreValid schema.now a → AreValid schema.now b
        → SegmentsFit schema.now (union a b) units [] node.now → length (mean (union a b)
        node.now) ≤ root_room schema.now units node.now }
{}
