//! A table as the text of a policy.
ghost use Rattle.std.specs.Prelude.{◌≡◌, ◌≤◌, false, IfOk, string_bytes};
ghost use Rattle.toml.specs.Data.{members_depth};
ghost use Rattle.toml.specs.Text.{IsDocumentText};
ghost use Rattle.toml.specs.View.{table_view};
ghost use Rattle.toml_parser.specs.Strings.{recursion_limit};
ghost use Rattle.cf_policylang.specs.Documents.{document, text_meaning};

use std::alloc::{AllocError, Global};
use toml::Table;

/// Prints a table as a policy's text, which means what the table means as a document. Only want of memory gives none, or a
/// date that no calendar has, where a table has such a value; no table of a policy has a date.
pub fn document_text(alloc: Global, table: &Table) -> Result<String, AllocError>
    ensures text { IfOk result (λ t. IsDocumentText false (table_view table.now) (string_bytes t)) }
    ensures meaning { IfOk result (λ t. members_depth (table_view table.now) ≤ recursion_limit
        → text_meaning (string_bytes t) ≡ document (table_view table.now)) }
{
    match toml::table_to_string(alloc, table) {
        Ok(text) => Ok(text),
        Err(_) => Err(AllocError),
    }
}
