//! What holds of the objects of a store and of calls on it, each law as the contract of a function with an
//! empty body. A proof of another crate cites a law by its term in `proofs/LawTerms.antt`.

ghost use Rattle.std.specs.Prelude.{◌≡◌, ◌↔◌, ◌++◌, ◌∷◌, ◌⊎◌, [], ℕ, List, IsSome, Contains, Bool, false, Option, Some, None};
ghost use Rattle.lan_store.specs.Budget.{Budget, plus, IsWithin, Asks, Spends};
ghost use Rattle.lan_store.specs.Looked.{Looked, Stored};
ghost use Rattle.lan_store.specs.Objects.{object, names_in, IsListing};
ghost use Rattle.lan_store.specs.Streams.{and_then_bytes};
ghost use Rattle.lan_store.specs.Telling.{Telling};
ghost use Rattle.lan_store.specs.declared.name.Dir.{Dir};
ghost use Rattle.lan_store.specs.declared.name.Name.{Name};
ghost use Rattle.lan_store.specs.declared.name.Object.{Object};

/// What two calls that look ask adds up, and more may be allowed.
pub fn looks_add_up()
    ensures then { (failure : Option Name) (a b : Budget) (s t u : Telling) → Looked None a s t → Looked failure b t u → Looked failure (plus a b) s u }
    ensures within { (failure : Option Name) (a b : Budget) (s t : Telling) → IsWithin a b → Looked failure a s t → Looked failure b s t }
    ensures none { (most : Budget) (s : Telling) → Looked None most s s }
{}

/// A call that puts behind one that looks, and a call that only looked.
pub fn puts_follow_looks()
    ensures then { (failure : Option Name) (a b : Budget) (clashed : Bool) (s t u : Telling) → Looked None a s t → Stored failure b clashed t u → Stored failure (plus a b) clashed s u }
    ensures looked { (failure : Option Name) (a : Budget) (clashed : Bool) (s t : Telling) → clashed ≡ false → Looked failure a s t → Stored failure a clashed s t }
    ensures within { (failure : Option Name) (a b : Budget) (clashed : Bool) (s t : Telling) → IsWithin a b → Stored failure a clashed s t → Stored failure b clashed s t }
{}

/// An allowance that each call takes off: one call after another, beside what another walk may ask, and
/// the whole walk.
pub fn allowances_are_taken_off()
    ensures step { (before after most : Budget) (s t : Telling) → Asks most s t → IsWithin (plus most after) before → Spends before after s t }
    ensures then { (a b c : Budget) (s t u : Telling) → Spends a b s t → Spends b c t u → Spends a c s u }
    ensures beside { (a b more : Budget) (s t : Telling) → Spends a b s t → Spends (plus a more) (plus b more) s t }
    ensures whole { (before after : Budget) (s t : Telling) → Spends before after s t → Asks before s t }
{}

/// The names in a folder's listing are those of the objects that are held in it.
pub fn listings_have_what_is_held()
    ensures listing { (dir : Dir) (all : List Object) (names : List Name) (name : Name) → IsListing dir all names → Contains names name ↔ ((name.dir ≡ dir) × IsSome (object all name)) }
    ensures folder { (dir : Dir) (all : List Object) (name : Name) → Contains (names_in dir all) name ↔ ((name.dir ≡ dir) × IsSome (object all name)) }
{}

/// One text and then another are their whole.
pub fn texts_come_one_after_another()
    ensures { (told : Option (List ℕ)) (xs ys : List ℕ) → and_then_bytes (and_then_bytes told xs) ys ≡ and_then_bytes told (xs ++ ys) }
{}

/// What is held stays held where objects come behind it, and what wasn't held is what those have.
pub fn objects_stay_held()
    ensures more { (objects more : List Object) (name : Name) (bytes : List ℕ) → object objects name ≡ Some bytes → object (objects ++ more) name ≡ Some bytes }
    ensures behind { (objects more : List Object) (name : Name) → object objects name ≡ None → object (objects ++ more) name ≡ object more name }
    ensures either { (objects : List Object) (o : Object) (name : Name) → IsSome (object (objects ++ o ∷ []) name) → IsSome (object objects name) ⊎ (o.name ≡ name) }
    ensures first { (o : Object) (objects : List Object) → object (o ∷ objects) o.name ≡ Some o.bytes }
    ensures other { (o : Object) (objects : List Object) (name : Name) → (o.name ≡ name → ⊥) → object (o ∷ objects) name ≡ object objects name }
{}
