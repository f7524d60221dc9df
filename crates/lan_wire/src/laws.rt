//! What holds of spellings, and of messages under their rules, each law as the contract of a function with an
//! empty body. A proof of another crate cites a law by its term in `proofs/LawTerms.antt`.

ghost use Rattle.std.specs.Prelude.{◌≡◌, ℕ, ℤ, ◌+◌, ◌*◌, ◌^◌, ◌<◌, ◌≤◌, List, [], ◌∷◌, ◌++◌, Bool, length, map, IsTrue, Ok, Some, None};
ghost use Rattle.std.specs.List.{flat_map, AllByRecursion};
ghost use Rattle.std.specs.Str.{is_utf8};
ghost use Rattle.lan_bytes.specs.Placed.{Placed};
ghost use Rattle.lan_wire.specs.declared.item.WireKind.{WireKind};
ghost use Rattle.lan_wire.specs.declared.item.WireFault.{WireFault};
ghost use Rattle.lan_wire.specs.declared.item.Item.{Item};
ghost use Rattle.lan_wire.specs.declared.rules.Kind.TheVariants.{OneOf, Numbers, Refused};
ghost use Rattle.lan_wire.specs.Readers.{AreNumbers, BreaksOff, IsInt32, signed_of, text_of};
ghost use Rattle.lan_wire.specs.Faults.{BreaksItem};
ghost use Rattle.lan_wire.specs.Spells.{Spells, Items, numbered, part_placed};
ghost use Rattle.lan_wire.specs.Spelling.{varint, num_item, part_item, packed_field, two_complement};
ghost use Rattle.lan_wire.specs.Rules.{Rules, kind_at};
ghost use Rattle.lan_wire.specs.Messages.{ReadsItems, FailsToRead};
ghost use Rattle.lan_wire.specs.Values.{numbers_of, num_under, small_under, maybe_small_under, signed_under, flag_under, text_under, part_under, parts_under, nums_under, signeds_under};
ghost use Rattle.lan_wire.specs.Written.{WrittenField, num, present, text, part, packed, parts, flag_number, spelling_of, CanWriteAll, AreShort, about, items_placed};

/// No spelling of an item begins a spelling of another, wherever they lie.
pub fn spellings_are_prefix_free()
    ensures { (a b r s : List ℕ) (x y : Item) → Spells a x → Spells b y → a ++ r ≡ b ++ s → a ≡ b }
{}

/// One spelling stands for one item.
pub fn one_spelling_one_item()
    ensures { (a : List ℕ) (x y : Item) → Spells a x → Spells a y → x.at ≡ y.at → x ≡ y }
{}

/// What stands at the front of bytes is one item, of one byte at least, and one rest.
pub fn fronts_are_unique()
    ensures one { (a b r s : List ℕ) (x y : Item) → Spells a x → Spells b y → x.at ≡ y.at → a ++ r ≡ b ++ s → (x ≡ y) × (r ≡ s) }
    ensures some { (front rest : List ℕ) (x : Item) → Spells front x → [] ≡ front ++ rest → ⊥ }
{}

/// Items of bytes and those of bytes behind them are items of all of them.
pub fn items_append()
    ensures { (at : ℕ) (a b : List ℕ) (xs ys : List Item) → Items at a xs → Items (at + length a) b ys → Items at (a ++ b) (xs ++ ys) }
{}

/// Bytes at a place are spellings of one list of items.
pub fn items_are_unique()
    ensures { (at : ℕ) (bytes : List ℕ) (xs ys : List Item) → Items at bytes xs → Items at bytes ys → xs ≡ ys }
{}

/// At most one fault stands at the front of bytes, and where one does, no item is spelled there, and no
/// list of items.
pub fn faults_exclude()
    ensures faults { (bytes : List ℕ) (j k : WireKind) → BreaksItem j bytes → BreaksItem k bytes → j ≡ k }
    ensures item { (bytes front rest : List ℕ) (k : WireKind) (x : Item) → BreaksItem k bytes → Spells front x → bytes ≡ front ++ rest → ⊥ }
    ensures items { (at : ℕ) (bytes : List ℕ) (k : WireKind) (xs : List Item) → BreaksItem k bytes → Items at bytes xs → ⊥ }
{}

/// The numbers of a packed part are one list, or have one fault.
pub fn numbers_are_unique()
    ensures numbers { (bytes ms ns : List ℕ) → AreNumbers bytes ms → AreNumbers bytes ns → ms ≡ ns }
    ensures faults { (bytes : List ℕ) (j k : WireKind) → BreaksOff j bytes → BreaksOff k bytes → j ≡ k }
    ensures either { (bytes : List ℕ) (k : WireKind) (ns : List ℕ) → BreaksOff k bytes → AreNumbers bytes ns → ⊥ }
{}

/// A varint has ten bytes at most.
pub fn varints_are_short()
    ensures { (n : ℕ) → length (varint n) ≤ 10 }
{}

/// What the writer writes for a number spells it.
pub fn written_numbers_are_read()
    ensures { (at number value : ℕ) → 0 < number → number < 2 ^ 29 → value < 2 ^ 64 → Spells (num_item number value) (numbered at number value) }
{}

/// What the writer writes for a number with a sign is read as that number, and nothing else is.
pub fn written_signed_numbers_are_read()
    ensures below { (z : ℤ) → IsInt32 z → two_complement z < 2 ^ 64 }
    ensures read { (at number : ℕ) (z : ℤ) → IsInt32 z → signed_of (numbered at number (two_complement z)) ≡ Ok z }
    ensures only { (at number n : ℕ) (z : ℤ) → n < 2 ^ 64 → signed_of (numbered at number n) ≡ Ok z → IsInt32 z × (n ≡ two_complement z) }
{}

/// What the writer writes for bytes spells them, and of a text it is read as that text.
pub fn written_parts_are_read()
    ensures part { (at number : ℕ) (bytes : List ℕ) → 0 < number → number < 2 ^ 29 → length bytes < 2 ^ 64 → Spells (part_item number bytes) (part_placed at number bytes) }
    ensures text { (at number : ℕ) (text : List ℕ) → IsTrue (is_utf8 text) → text_of (part_placed at number text) ≡ Ok text }
{}

/// What the writer packs spells a part of these numbers.
pub fn written_lists_are_read()
    ensures part { (at number v : ℕ) (vs : List ℕ) → 0 < number → number < 2 ^ 29 → length (flat_map varint (v ∷ vs)) < 2 ^ 64 → Spells (packed_field number (v ∷ vs)) (part_placed at number (flat_map varint (v ∷ vs))) }
    ensures numbers { (values : List ℕ) → AllByRecursion (λ n. n < 2 ^ 64) values → AreNumbers (flat_map varint values) values }
{}

/// A message that is read is read as one list of items, and has no fault; another has one at most.
pub fn messages_are_read_once()
    ensures one { (rules : Rules) (message : Placed) (xs ys : List Item) → ReadsItems rules message xs → ReadsItems rules message ys → xs ≡ ys }
    ensures none { (rules : Rules) (message : Placed) (items : List Item) (fault : WireFault) → ReadsItems rules message items → FailsToRead rules message fault → ⊥ }
    ensures fault { (rules : Rules) (message : Placed) (f g : WireFault) → FailsToRead rules message f → FailsToRead rules message g → f ≡ g }
{}

/// Of the members of a oneof one at most is said.
pub fn oneofs_have_one_member()
    ensures { (rules : Rules) (message : Placed) (items : List Item) (a b : ℕ) (p q : Placed) → (a ≡ b → ⊥) → kind_at rules a ≡ OneOf → kind_at rules b ≡ OneOf
        → ReadsItems rules message items → part_under a items ≡ Some p → part_under b items ≡ Some q → ⊥ }
{}

/// A number that isn't accepted isn't said.
pub fn refused_numbers_are_absent()
    ensures { (rules : Rules) (message : Placed) (items : List Item) (number : ℕ) → kind_at rules number ≡ Refused → ReadsItems rules message items → part_under number items ≡ None }
{}

/// A message of so many bytes has at most half as many messages in it.
pub fn messages_are_few()
    ensures { (rules : Rules) (message : Placed) (items : List Item) (number : ℕ) → ReadsItems rules message items → 2 * length (parts_under number items) ≤ length message.bytes }
{}

/// What is written is read under its rules, wherever it lies: each part of it is short enough for its
/// length, as where the whole is.
pub fn written_messages_are_read()
    ensures each { (rules : Rules) (at : ℕ) (fields : List WrittenField) → CanWriteAll rules [] fields → AreShort fields → ReadsItems rules (record { base = at; bytes = spelling_of fields }) (items_placed at fields) }
    ensures whole { (fields : List WrittenField) → length (spelling_of fields) < 2 ^ 64 → AreShort fields }
{}

/// What is written under a number is said under it.
pub fn written_values_are_said()
    ensures nums { (number at : ℕ) (fields : List WrittenField) (value : ℕ) → about number fields ≡ num value ∷ [] → num_under number (items_placed at fields) ≡ value }
    ensures smalls { (number at : ℕ) (fields : List WrittenField) (value : ℕ) → value < 2 ^ 32 → about number fields ≡ num value ∷ [] → small_under number (items_placed at fields) ≡ value }
    ensures present { (number at : ℕ) (fields : List WrittenField) (value : ℕ) → value < 2 ^ 32 → about number fields ≡ present value ∷ [] → maybe_small_under number (items_placed at fields) ≡ Some value }
    ensures missing { (number at : ℕ) (fields : List WrittenField) → about number fields ≡ [] → maybe_small_under number (items_placed at fields) ≡ None }
    ensures signs { (number at : ℕ) (fields : List WrittenField) (z : ℤ) → IsInt32 z → about number fields ≡ num (two_complement z) ∷ [] → signed_under number (items_placed at fields) ≡ z }
    ensures flags { (number at : ℕ) (fields : List WrittenField) (b : Bool) → about number fields ≡ num (flag_number b) ∷ [] → flag_under number (items_placed at fields) ≡ b }
    ensures texts { (number at : ℕ) (fields : List WrittenField) (bytes : List ℕ) → IsTrue (is_utf8 bytes) → about number fields ≡ text bytes ∷ [] → text_under number (items_placed at fields) ≡ bytes }
    ensures part { (number at : ℕ) (fields : List WrittenField) (bytes : List ℕ) → about number fields ≡ part bytes ∷ [] → (place : ℕ) × (part_under number (items_placed at fields) ≡ Some (record { base = place; bytes = bytes })) }
    ensures absent { (number at : ℕ) (fields : List WrittenField) → about number fields ≡ [] → part_under number (items_placed at fields) ≡ None }
    ensures parts { (number at : ℕ) (fields : List WrittenField) (messages : List (List ℕ)) → about number fields ≡ parts messages ∷ [] → map (λ p. p.bytes) (parts_under number (items_placed at fields)) ≡ messages }
    ensures lists { (number at : ℕ) (fields : List WrittenField) (values : List ℕ) → AllByRecursion (λ n. n < 2 ^ 64) values → about number fields ≡ packed values ∷ [] → nums_under number (items_placed at fields) ≡ values }
    ensures signeds { (number at : ℕ) (fields : List WrittenField) (zs : List ℤ) → AllByRecursion IsInt32 zs → about number fields ≡ packed (map two_complement zs) ∷ [] → signeds_under number (items_placed at fields) ≡ zs }
{}

/// Where a packed part is numbers, those are the ones that are listed.
pub fn packed_numbers_are_listed()
    ensures { (bytes ns : List ℕ) → AreNumbers bytes ns → numbers_of bytes ≡ ns }
{}

/// What is said fits its kind, so it can be written.
pub fn said_values_fit()
    ensures nums { (rules : Rules) (message : Placed) (items : List Item) (number : ℕ) → ReadsItems rules message items → num_under number items < 2 ^ 64 }
    ensures lists { (rules : Rules) (message : Placed) (items : List Item) (number : ℕ) → ReadsItems rules message items → kind_at rules number ≡ Numbers
        → AllByRecursion (λ n. n < 2 ^ 64) (nums_under number items) }
    ensures smalls { (number : ℕ) (items : List Item) → small_under number items < 2 ^ 32 }
    ensures signs { (number : ℕ) (items : List Item) → IsInt32 (signed_under number items) }
    ensures texts { (number : ℕ) (items : List Item) → IsTrue (is_utf8 (text_under number items)) }
    ensures signeds { (number : ℕ) (items : List Item) → AllByRecursion IsInt32 (signeds_under number items) }
{}
