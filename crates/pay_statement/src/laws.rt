//! Laws of statements. Each law is the contract of a function that does nothing: a caller whose proof needs a
//! law calls its function.
ghost use Rattle.std.specs.Prelude.{◌≡◌, List, ◌∷◌, map};
ghost use Rattle.csv.specs.Reading.{default_config, records};
ghost use Rattle.pay_tables.specs.Words.{FareEditions};
ghost use Rattle.pay_rules.specs.declared.shown.Line.{Line};
ghost use Rattle.pay_statement.specs.Statement.{columns, fields_of_line, statement_text};

/// What `csv` by its defaults reads of a statement is the names of the fields, and then the fields of each
/// journey, in their order.
pub fn read_back()
    ensures { (editions : FareEditions) (lines : List Line)
        → records default_config (statement_text editions lines) ≡ columns ∷ map (fields_of_line editions) lines }
{}
