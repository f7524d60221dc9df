//! What holds of the messages of fields and of their logical types, each law as the contract of a function
//! with an empty body. A proof of another crate cites a law by its term in `proofs/LawTerms.antt`.

ghost use Rattle.std.specs.Prelude.{◌≡◌, ℕ, ℤ, ◌^◌, ◌<◌, ◌↔◌, List, [], ◌∷◌, length, map, flat_map, negsuc};
ghost use Rattle.lan_bytes.specs.Placed.{Placed};
ghost use Rattle.lan_model.specs.Plain.{PlainType, PlainField, PlainFields, fields_from, unnumbered};
ghost use Rattle.lan_model.specs.Table.{AreColumns, IsField};
ghost use Rattle.lan_wire.specs.declared.item.WireFault.{WireFault};
ghost use Rattle.lan_wire.specs.Readers.{IsInt32};
ghost use Rattle.lan_wire.specs.Spelling.{part_item};
ghost use Rattle.lan_wire.specs.Written.{WrittenField, with_spellings, CanWriteAll, AreShort, about};
ghost use Rattle.lan_schema.specs.FieldMessages.{listing};
ghost use Rattle.lan_schema.specs.declared.fault.SchemaFault.{SchemaFault};
ghost use Rattle.lan_schema.specs.declared.fault.SchemaFault.TheVariants.{Memory};
ghost use Rattle.lan_schema.specs.FieldMessage.{Flat, IsFlat, SaysField, FailsField, field_text};
ghost use Rattle.lan_schema.specs.FieldTree.{flat_field, own_message, all_messages};
ghost use Rattle.lan_schema.specs.FieldsOf.{FieldsOf};
ghost use Rattle.lan_schema.specs.Forest.{Trees, Absent, AreDistinct, laid, forest};
ghost use Rattle.lan_schema.specs.LogicalLaws.{NamesLeaf, IsNamedOnce};
ghost use Rattle.lan_schema.specs.SchemaFaults.{StandsIn};
ghost use Rattle.lan_schema.specs.Written.{AreTableFields, CanTell, CanTellAll, IsWritable, trees_of};

/// A message says one field, and none where it fails.
pub fn one_entry()
    ensures one { (message : Placed) (f g : Flat) → SaysField message f → SaysField message g → f ≡ g }
    ensures none { (message : Placed) (f : Flat) (fault : WireFault) → SaysField message f → FailsField message fault → ⊥ }
{}

/// What is written for a field says that field, wherever it lies.
pub fn what_is_written_is_read()
    ensures { (at kind : ℕ) (f : Flat) → kind < 2 ^ 64 → IsFlat f → SaysField (record { base = at; bytes = field_text kind f }) f }
{}

/// The message that is written of a field of a table says it, inside any parent and wherever it lies.
pub fn written_messages_say_fields()
    ensures { (at : ℕ) (parent : ℤ) (f : PlainField ℕ) → IsField f → IsInt32 parent → CanTell f → length (own_message parent f) < 2 ^ 63
        → SaysField (record { base = at; bytes = own_message parent f }) (flat_field parent f) }
{}

/// Trees of distinct numbers that are laid flat are found again.
pub fn trees_are_found_again()
    ensures { (top : ℤ) (trees : Trees) → Absent top trees → AreDistinct trees → forest top (laid top trees) ≡ trees }
{}

/// A message stands for one list of fields.
pub fn one_list_of_fields()
    ensures { (message : Placed) (number : ℕ) (f g : PlainFields ℕ) → FieldsOf message number f → FieldsOf message number g → f ≡ g }
{}

/// Where a refusal other than want of memory stands, a message stands for no fields.
pub fn no_fields_where_a_fault_stands()
    ensures { (message : Placed) (number : ℕ) (fault : SchemaFault) (fields : PlainFields ℕ)
        → (fault ≡ Memory → ⊥) → StandsIn message number fault → FieldsOf message number fields → ⊥ }
{}

/// What is written of a table's fields, each with a number of its own, stands for them again wherever it
/// lies, and so for nothing else.
pub fn written_fields_are_read()
    ensures { (at number : ℕ) (fields : PlainFields ℕ) → IsWritable number fields
        → FieldsOf (record { base = at; bytes = all_messages number (negsuc 0) fields }) number fields }
{}

/// What is written of a table's fields before other fields of a message, none of them of their number, stands
/// for them still. It is messages under that number.
pub fn written_fields_are_read_before_others()
    ensures read { (at number : ℕ) (fields : PlainFields ℕ) (others : List WrittenField) → IsWritable number fields → about number others ≡ []
        → CanWriteAll (listing number) (number ∷ []) others → AreShort others
        → FieldsOf (record { base = at; bytes = with_spellings (all_messages number (negsuc 0) fields) others }) number fields }
    ensures messages { (number : ℕ) (fields : PlainFields ℕ) → IsWritable number fields
        → (texts : List (List ℕ)) × (all_messages number (negsuc 0) fields ≡ flat_map (λ text. part_item number text) texts) }
{}

/// Fields that a message stands for may be a table's, each has a number of its own, and messages can tell
/// all of them.
pub fn fields_that_are_read_are_of_a_table()
    ensures table { (message : Placed) (number : ℕ) (fields : PlainFields ℕ) → FieldsOf message number fields → AreTableFields fields }
    ensures apart { (message : Placed) (number : ℕ) (fields : PlainFields ℕ) → FieldsOf message number fields → AreDistinct (trees_of fields) }
    ensures told { (message : Placed) (number : ℕ) (fields : PlainFields ℕ) → FieldsOf message number fields → CanTellAll fields }
{}

/// Fields that a message stands for can be written, under any number, and what is written stands for the
/// same fields.
pub fn fields_that_are_read_are_written_back()
    ensures { (message : Placed) (number at other : ℕ) (fields : PlainFields ℕ) → FieldsOf message number fields
        → 0 < other → other < 2 ^ 29 → length (all_messages other (negsuc 0) fields) < 2 ^ 63
        → FieldsOf (record { base = at; bytes = all_messages other (negsuc 0) fields }) other fields }
{}

/// Whether a table may have these fields doesn't turn on their numbers.
pub fn columns_are_fields_of_a_table()
    ensures { (columns : List (PlainField ℕ)) → AreColumns (map unnumbered columns) ↔ AreTableFields (fields_from columns) }
{}

/// Each leaf type that a table may have is named by its logical type, and by no other text.
pub fn leaf_types_have_one_name()
    ensures named { (t : PlainType ℕ) → NamesLeaf t }
    ensures once { (s : List ℕ) (t : PlainType ℕ) → IsNamedOnce s t }
{}
