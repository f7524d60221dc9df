// Objects in memory, with the counts of what was asked of them.
ghost use Rattle.std.specs.Prelude.{◌≡◌, ◌+◌, ◌^◌, ◌≤◌, ◌++◌, [], ◌∷◌, length, take, find, None, IfOk, OnOk, OnErr, option_copied, is_some, IsErrOf, is_ok, MatchResult};
ghost use Rattle.lan_store.specs.Names.{same_name};
ghost use Rattle.lan_store.specs.Causes.{Rose, RoseBy, RoseAtMost};
ghost use Rattle.lan_store.specs.Objects.{object, names_in, AreDistinct, IsListing};
ghost use Rattle.lan_store.specs.Sizes.{IsSizeOf};
ghost use Rattle.lan_store.specs.Gets.{IsRangeOf};

use crate::{Dir, GetFault, Name, Names, Object, SizeFault};
use lan_model::{Blob, List};
use std::alloc::{AllocError, Global};

#[derive(Drop)]
pub struct Shelf {
    pub objects: List<Object>,
    pub gets: u64,
    pub got: u64,
    pub clashes: u64,
    ghost distinct: { AreDistinct objects },
}

pub fn find_object<'a>(objects: &'a [Object], name: &Name) -> Option<&'a Object>
    ensures { option_copied result ≡ find (λ o. same_name o.name name.now) objects.now }
{
    objects.iter().find(|o| o.name.same(name))
}

#[tactic(auto, unfolding(crate::specs::Objects::object))]
impl Shelf {
    ghost use Rattle.lan_store.specs.Shelf.{SameCounts};

    pub fn new(alloc: Global) -> Shelf
        ensures objects { result.objects ≡ [] }
        ensures counts { (result.gets ≡ 0) × (result.got ≡ 0) × (result.clashes ≡ 0) }
    {
        Shelf {
            objects: List::new(alloc),
            gets: 0,
            got: 0,
            clashes: 0,
        }
    }

    pub fn size(&self, name: &Name) -> Result<u64, SizeFault>
        ensures answer { IsSizeOf (object self.now.objects name.now) result }
        ensures calm { IsErrOf result SizeFault.Failed → ⊥ }
    {
        match find_object(self.objects.as_slice(), name) {
            None => Err(SizeFault::Missing),
            Some(found) => Ok(found.bytes.len()),
        }
    }

    pub fn get(&mut self, name: &Name, at: u64, len: u64, into: &mut Blob) -> Result<(), GetFault>
        requires { at + len ≤ 2 ^ 63 }
        ensures objects { self.new.objects ≡ self.old.objects }
        ensures answer { IsRangeOf (object self.old.objects name.now) at len into.old into.new result }
        ensures as_before { OnErr result (into.new ≡ into.old) }
        ensures calm { IsErrOf result GetFault.Failed → ⊥ }
        ensures ranges { RoseAtMost 1 self.old.gets self.new.gets × RoseAtMost len self.old.got self.new.got }
        ensures counted { Rose self.old.gets self.new.gets × RoseBy len self.old.got self.new.got }
        ensures clashes { self.new.clashes ≡ self.old.clashes }
    {
        self.gets = self.gets.saturating_add(1);
        self.got = self.got.saturating_add(len);
        let Some(found) = find_object(self.objects.as_slice(), name) else {
            return Err(GetFault::Missing);
        };
        let bytes = found.bytes.as_slice();
        let (at, len) = (at as usize, len as usize);
        if bytes.len() < at + len {
            return Err(GetFault::Short);
        }
        match into.extend(&bytes[at..at + len]) {
            Ok(()) => Ok(()),
            Err(_) => Err(GetFault::Memory),
        }
    }

    /// The folder's names in the order of their bytes.
    pub fn list(&self, alloc: Global, dir: Dir) -> Result<Names, AllocError>
        ensures { IfOk result (IsListing dir self.now.objects) }
    {
        let mut names = names_of(alloc, self.objects.as_slice(), dir)?;
        names.sort_by(|a, b| a.rest.as_str().cmp(b.rest.as_str()))?;
        Ok(List::from_vec(names))
    }

    pub fn holds(&self, name: &Name) -> bool
        ensures { result ≡ is_some (object self.now.objects name.now) }
    {
        find_object(self.objects.as_slice(), name).is_some()
    }

    pub fn add(&mut self, alloc: Global, name: &Name, bytes: &[u8]) -> Result<(), AllocError>
        requires { object self.old.objects name.now ≡ None }
        ensures ok { OnOk result (self.new.objects ≡ self.old.objects ++ record { name = name.now; bytes = bytes.now } ∷ []) }
        ensures err { OnErr result (self.new.objects ≡ self.old.objects) }
        ensures counts { SameCounts self.old self.new }
    {
        let object = Object {
            name: name.copy(alloc)?,
            bytes: Blob::from_slice(alloc, bytes)?,
        };
        self.objects.push(object)
    }

    /// Keeps the first `len` objects.
    pub fn cut(&mut self, len: u64)
        ensures objects { self.new.objects ≡ take len self.old.objects }
        ensures counts { SameCounts self.old self.new }
    {
        self.objects.truncate(len as usize);
    }

    pub fn clash(&mut self)
        ensures objects { self.new.objects ≡ self.old.objects }
        ensures ranges { (self.new.gets ≡ self.old.gets) × (self.new.got ≡ self.old.got) }
        ensures clashes { (self.old.clashes ≤ self.new.clashes) × Rose self.old.clashes self.new.clashes }
    {
        self.clashes = self.clashes.saturating_add(1);
    }
}

fn names_of(alloc: Global, objects: &[Object], dir: Dir) -> Result<Vec<Name>, AllocError>
    ensures { IfOk result (λ names. names.items ≡ names_in dir objects.now) }
{
    let mut names = Vec::new(alloc);
    for object in objects {
        if object.name.dir.same(dir) {
            names.push(object.name.copy(alloc)?)?;
        }
    }
    Ok(names)
}
