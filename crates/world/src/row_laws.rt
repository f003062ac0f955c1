//! Laws of the order of the host's rows: only equal rows compare as equal, and putting rows in order neither loses
//! nor adds any, and leaves those in order as they are.

ghost use Rattle.std.specs.Prelude.{◌≡◌, List};
ghost use Rattle.std.specs.declared.cmp.Ordering.TheVariants.{Equal};
ghost use Rattle.std.specs.List.Sorted.{IsStrictlySortedBy};
ghost use Rattle.world.specs.declared.rows.HostRow.{HostRow};
ghost use Rattle.world.specs.RowOrder.{row_cmp, has_row, in_row_order};

/// Laws of row order: rows that compare as equal are equal, putting rows in order loses and adds none, and leaves those
/// in order as they are.
pub fn row_order_laws()
    ensures exact { (a b : HostRow) → row_cmp a b ≡ Equal → a ≡ b }
    ensures kept { (rows : List HostRow) (row : HostRow) → has_row (in_row_order rows) row ≡ has_row rows row }
    ensures stays { (rows : List HostRow) → IsStrictlySortedBy row_cmp rows → in_row_order rows ≡ rows }
{}
