//! What holds of the JSON form of schemas, each law as the contract of a function with an empty body. A proof
//! of another crate cites a law by its term in `proofs/LawTerms.antt`.
ghost use Rattle.std.specs.Prelude.{ℕ, List};
ghost use Rattle.lan_model.specs.Plain.{PlainField};
ghost use Rattle.lan_form.specs.Laws.{IsReadBack, TellsNoNumbers};

/// What is printed for fields that a table may have is read back as these fields, apart from their numbers.
pub fn what_is_printed_is_read()
    ensures { (fields : List (PlainField ℕ)) → IsReadBack fields }
{}

/// The JSON of fields doesn't tell their numbers.
pub fn numbers_are_not_printed()
    ensures { (fields : List (PlainField ℕ)) → TellsNoNumbers fields }
{}
