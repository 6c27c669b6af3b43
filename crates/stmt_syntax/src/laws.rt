//! Laws of the statements' texts that no single call shows.

ghost use Rattle.std.specs.Prelude.{◌≡◌, ℕ, List};
ghost use Rattle.stmt_syntax.specs.Printing.{printed};
ghost use Rattle.stmt_syntax.specs.Reading.{IsPlace, IsReadable, IsText};
ghost use Rattle.stmt_rules.specs.declared.statement.Statement.{Statement};

/// What is printed of a statement that some text is, is a text of that statement.
pub fn read_back()
    ensures { (v : Statement) → IsReadable v → IsText v (printed v) }
{}

/// A text has one place at most at which no statement fits.
pub fn one_place()
    ensures { (text : List ℕ) (left right : ℕ) → IsPlace text left → IsPlace text right → left ≡ right }
{}
