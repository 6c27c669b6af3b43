//! A law of tables that no single call shows.

ghost use Rattle.result_sets.specs.Table.{tabulates};
ghost use Rattle.result_sets.specs.declared.table.Table.{Table};
ghost use Rattle.std.specs.Prelude.{◌≡◌, ℕ, List};

/// No list of payloads is two tables': so what is written of a table is read as that table, memory aside.
pub fn one_table()
    ensures { (payloads : List (List ℕ)) (t u : Table) → tabulates t payloads → tabulates u payloads → t ≡ u }
{}
