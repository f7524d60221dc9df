ghost use Rattle.std.specs.Prelude.{◌≡◌, ℕ, [], ◌++◌, map, codes, ◌^◌, ◌<◌, ◌≤◌, IfOk, IsErrOf};
ghost use Rattle.std.specs.Option.{ForSome};
ghost use Rattle.lan_manifest.specs.Manifests.{plain_manifest};
ghost use Rattle.lan_fresh.specs.Fresh.{above, greatest_of, numbers_of, fresh_fragment, file_path, file_number, fresh_file};
ghost use Rattle.lan_store.specs.Budget.{nothing};
ghost use Rattle.lan_store.specs.Looked.{Looked, list_failure};

use lan_manifest::{Fragment, Manifest};
use lan_model::Text;
use lan_store::{Dir, ListFault, Name, Names, Store};
use std::alloc::{AllocError, Global};

const PAST_NUMBERS: u64 = 1 << 53;

fn above_greatest(greatest: Option<u32>) -> u64
    ensures { result ≡ above greatest 0 }
{
    match greatest {
        Some(id) => u64::from(id) + 1,
        None => 0,
    }
}

fn above_fragments(fragments: &[Fragment]) -> u64
    ensures { result ≡ above (greatest_of (map (λ f. f.id) fragments.now)) 0 }
{
    let mut fresh = 0;
    for fragment in fragments {
        fresh = (u64::from(fragment.id) + 1).max(fresh);
    }
    fresh
}

/// One above the greatest fragment id that was ever given, from 0.
#[tactic(auto, using(crate::proofs::Greatest::above_with))]
pub fn fresh_fragment(manifest: &Manifest) -> u64
    ensures { result ≡ fresh_fragment (plain_manifest manifest.now) }
{
    above_greatest(manifest.greatest).max(above_fragments(manifest.fragments.as_slice()))
}

/// The path of a data file's number below `data/`: twenty digits, and `.lance`.
pub fn file_path(alloc: Global, number: u64) -> Result<Text, AllocError>
    requires { number < 2 ^ 53 }
    ensures { IfOk result (λ path. path ≡ file_path number) }
{
    let path = format!(in alloc; "{number:020}.lance")?;
    Ok(Text::from_string(path))
}

fn number_in(digits: &str) -> Option<u64>
    ensures { result ≡ file_number (digits.now ++ codes ".lance") }
{
    if digits.len() != 20 || digits.as_bytes()[0] == b'+' {
        return None;
    }
    let number = digits.parse::<u64>().ok()?;
    if number >= PAST_NUMBERS {
        return None;
    }
    Some(number)
}

/// The number below 2^53 whose path this is.
pub fn file_number(path: &str) -> Option<u64>
    ensures { result ≡ file_number path.now }
{
    let digits = path.strip_suffix(".lance")?;
    number_in(digits)
}

fn above_number(path: &str) -> u64
    ensures fresh { result ≡ above (file_number path.now) 1 }
    ensures range { (1 ≤ result) × (result ≤ 2 ^ 53) }
{
    match file_number(path) {
        Some(number) => number + 1,
        None => 1,
    }
}

fn above_files(names: &[Name]) -> u64
    ensures fresh { result ≡ above (greatest_of (numbers_of names.now)) 1 }
    ensures range { (1 ≤ result) × (result ≤ 2 ^ 53) }
{
    let mut fresh = 1;
    for name in names {
        fresh = above_number(name.rest.as_str()).max(fresh);
    }
    fresh
}

/// One above the greatest number of a data file that is held, from 1; 2^53 where no number is left to draw.
///
/// A name in the folder that is no number's path doesn't count.
pub fn fresh_file<S: Store>(alloc: Global, store: &mut S) -> Result<u64, ListFault>
    ensures looked { Looked (list_failure Dir.Data result) nothing (S.tells store.old) (S.tells store.new) }
    ensures fresh { ForSome (S.tells store.old).objects (λ all. IfOk result (λ n. n ≡ fresh_file all)) }
    ensures range { IfOk result (λ n. (1 ≤ n) × (n ≤ 2 ^ 53)) }
{
    let mut names = Names::new(alloc);
    store.list(alloc, Dir::Data, &mut names)?;
    Ok(above_files(names.as_slice()))
}
