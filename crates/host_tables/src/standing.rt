//! The rows that stand for targets, found among all that are brought.

ghost use Rattle.std.specs.Prelude.{◌≡◌, ◌||◌, ◌+◌, ◌*◌, ◌^◌, ◌<◌, ◌≤◌, ℕ, length, vec_len};
ghost use Rattle.std.specs.Vec.{vec_capacity};
ghost use Rattle.world.specs.declared.rows.HostRow.{HostRow};
ghost use Rattle.world.specs.RowOrder.{has_row};
ghost use Rattle.host_model.specs.HostTable.{InRowOrder};
ghost use Rattle.host_tables.specs.Bringings.{InBringingOrder, is_it, rows_in, stands_at};
ghost use Rattle.host_tables.specs.Costs.{HasRoom, IsEmpty};
ghost use Rattle.host_tables.specs.Unions.{AddsHeads, AreHeads};

use crate::bringing::{Bringing, target};
use counted_search::{Ledger, Steps, first_from, put_in};
use world::HostRow;

/// The row that stands for the target of this one: the first of those that are brought.
fn head<L: Ledger>(brought: &[Bringing], row: HostRow, steps: &mut Steps<L>) -> Option<HostRow>
    requires { InBringingOrder brought.now }
    ensures stands { (q : HostRow) → stands_at row (rows_in brought.now) q ≡ is_it result q }
    ensures grows { steps.old ≤ steps.new }
    ensures steps { (n : ℕ) → length brought.now < 2 ^ n → steps.new ≤ steps.old + n + 1 }
{
    let target_row = target(row);
    let lowest = Bringing {
        row: target_row,
        place: 0,
    };
    match first_from(brought, &lowest, steps) {
        None => None,
        Some(first) => {
            let order = steps.compare(&target(first.row), &target_row);
            if order.is_eq() { Some(first.row) } else { None }
        }
    }
}

/// Adds what stands for the target of this row.
fn add_head<L: Ledger>(
    brought: &[Bringing],
    row: HostRow,
    heads: &mut Vec<HostRow>,
    steps: &mut Steps<L>,
)
    requires brought { InBringingOrder brought.now }
    requires in_order { InRowOrder heads.old.items }
    requires room { vec_len heads.old < vec_capacity heads.old }
    ensures has { (q : HostRow)
        → has_row heads.new.items q ≡ (has_row heads.old.items q || stands_at row (rows_in brought.now) q) }
    ensures in_order { InRowOrder heads.new.items }
    ensures len { vec_len heads.new ≤ vec_len heads.old + 1 }
    ensures capacity { vec_capacity heads.old ≤ vec_capacity heads.new }
    ensures grows { steps.old ≤ steps.new }
    ensures steps { (n : ℕ) → length brought.now < 2 ^ n → vec_len heads.old < 2 ^ (n + 1)
        → steps.new ≤ steps.old + 2 * (n + 1) }
{
    if let Some(head) = head(brought, row, steps) {
        put_in(heads, 0, head, steps);
    }
}

/// Adds what stands for the targets of these rows.
fn add_heads<L: Ledger>(
    brought: &[Bringing],
    rows: &[HostRow],
    heads: &mut Vec<HostRow>,
    steps: &mut Steps<L>,
)
    requires brought { InBringingOrder brought.now }
    requires in_order { InRowOrder heads.old.items }
    requires room { HasRoom (length rows.now) heads.old }
    ensures adds { AddsHeads rows.now (rows_in brought.now) heads.old.items heads.new.items }
    ensures len { vec_len heads.new ≤ vec_len heads.old + length rows.now }
    ensures capacity { vec_capacity heads.old ≤ vec_capacity heads.new }
    ensures grows { steps.old ≤ steps.new }
    ensures steps { (n : ℕ) → length brought.now < 2 ^ n → vec_len heads.old + length rows.now < 2 ^ (n + 1)
        → steps.new ≤ steps.old + length rows.now * (2 * (n + 1)) }
{
    for row in rows {
        add_head(brought, *row, heads, steps);
    }
}

/// Fills an empty vector with what stands for the targets of the rows before and after.
#[tactic(auto, using(counted_search::proofs::Edits::sorted_none))]
pub fn heads_into<L: Ledger>(
    brought: &[Bringing],
    before: &[HostRow],
    after: &[HostRow],
    heads: &mut Vec<HostRow>,
    steps: &mut Steps<L>,
)
    requires brought { InBringingOrder brought.now }
    requires empty { IsEmpty heads.old }
    requires room { HasRoom (length before.now + length after.now) heads.old }
    ensures heads { AreHeads before.now after.now (rows_in brought.now) heads.new.items }
    ensures len { vec_len heads.new ≤ length before.now + length after.now }
    ensures grows { steps.old ≤ steps.new }
    ensures steps { (n : ℕ) → length brought.now < 2 ^ n → length before.now + length after.now < 2 ^ (n + 1)
        → steps.new ≤ steps.old + (length before.now + length after.now) * (2 * (n + 1)) }
{
    add_heads(brought, before, heads, steps);
    add_heads(brought, after, heads, steps);
}
