ghost use Rattle.std.specs.Prelude.{◌≡◌, ◌+◌, ◌&&◌, ◌||◌, negsuc, nat_lt, unwrap_or, IfOk, IfErr, OnOk, [], not, is_some};
ghost use Rattle.std.specs.BTreeMap.{get};
ghost use Rattle.std.specs.BTreeSet.{contains};
ghost use Rattle.std.specs.Ordering.{int_cmp};
ghost use Rattle.lan_schema.specs.Forest.{same};
ghost use Rattle.lan_schema.specs.FieldsOf.{AreLinked, AreNamed, AreTyped, ObeyRules};
ghost use Rattle.lan_schema.specs.Listed.{has_bad_id, repeats, is_orphan, is_nameless, has_namesake, is_untyped, miscounts, is_deep, leaves_in, Lacks, Finds};
ghost use Rattle.lan_schema.specs.Logical.{leaf_type};
ghost use Rattle.lan_schema.specs.Shapes.{shape_of, takes};
ghost use Rattle.lan_schema.specs.SchemaFaults.{Breaks};

use crate::fault::SchemaFault;
use crate::logical::leaf_type;
use crate::node::Node;
use crate::shape::shape_of;
use lan_model::Text;
use std::alloc::{AllocError, AllocFailed, Global};
use std::collections::{BTreeMap, BTreeSet};

/// How many layers a leaf has at most.
const MAX_LAYERS: usize = 16;

/// How many leaves there are at most.
const MAX_LEAVES: usize = 1024;

// What a map has at a field's number, or 0.
fn number_at(map: &BTreeMap<i32, usize>, id: i32) -> usize
    ensures { result ≡ unwrap_or (get int_cmp map.now id) 0 }
{
    map.get(&id).copied().unwrap_or(0)
}

// Whether a number is that of the top or of a field.
fn is_parent(seen: &BTreeSet<i32>, parent: i32) -> bool
    ensures { result ≡ (same parent (negsuc 0) || contains int_cmp seen.now parent) }
{
    if parent == -1 {
        return true;
    }
    seen.contains(&parent)
}

// Whether a field with so many layers round it is a leaf of too many.
fn passes_limit(is_leaf: bool, outer: usize) -> bool
    ensures { result ≡ (is_leaf && nat_lt 16 (outer + 1)) }
{
    is_leaf && outer >= MAX_LAYERS
}

// The first field with a negative number.
fn bad_id(nodes: &[Node<'_>]) -> Option<i32>
    ensures { Finds has_bad_id nodes.now result }
{
    for node in nodes {
        let id = node.id();
        if id < 0 {
            return Some(id);
        }
    }
    None
}

// The first field whose number is listed before.
fn repeated(alloc: Global, nodes: &[Node<'_>]) -> Result<Option<i32>, AllocError>
    ensures { IfOk result (Finds repeats nodes.now) }
{
    let mut seen = BTreeSet::new(alloc);
    for node in nodes {
        let id = node.id();
        let added = seen.insert(id)?;
        if !added {
            return Ok(Some(id));
        }
    }
    Ok(None)
}

// The first field whose parent is neither the top nor listed before.
fn orphan(alloc: Global, nodes: &[Node<'_>]) -> Result<Option<i32>, AllocError>
    ensures { IfOk result (Finds is_orphan nodes.now) }
{
    let mut seen = BTreeSet::new(alloc);
    for node in nodes {
        let id = node.id();
        let parent = node.parent();
        if !is_parent(&seen, parent) {
            return Ok(Some(id));
        }
        seen.insert(id)?;
    }
    Ok(None)
}

// The first field without a name.
fn nameless(nodes: &[Node<'_>]) -> Option<i32>
    ensures { Finds is_nameless nodes.now result }
{
    for node in nodes {
        let id = node.id();
        if node.name().is_empty() {
            return Some(id);
        }
    }
    None
}

// The first field that a field before it with the same parent has the name of.
fn namesake(alloc: Global, nodes: &[Node<'_>]) -> Result<Option<i32>, AllocError>
    ensures { IfOk result (Finds has_namesake nodes.now) }
{
    let mut seen = BTreeSet::new(alloc);
    for node in nodes {
        let id = node.id();
        let added = seen.insert((node.parent(), node.name()))?;
        if !added {
            return Ok(Some(id));
        }
    }
    Ok(None)
}

// The last field that has more or fewer fields in it than its type takes.
fn miscounted(alloc: Global, nodes: &[Node<'_>]) -> Result<Option<i32>, AllocError>
    ensures { IfOk result (Finds miscounts nodes.now) }
{
    let mut counts: BTreeMap<i32, usize> = BTreeMap::new(alloc);
    let mut i = nodes.len();
    while i > 0 {
        i -= 1;
        let node = &nodes[i];
        let id = node.id();
        let parent = node.parent();
        let inside = number_at(&counts, id);
        let takes = shape_of(node.logical()).takes(inside);
        if !takes {
            return Ok(Some(id));
        }
        let beside = number_at(&counts, parent);
        counts.insert(parent, beside + 1)?;
    }
    Ok(None)
}

// The first leaf of too many layers.
fn deep_leaf(alloc: Global, nodes: &[Node<'_>]) -> Result<Option<i32>, AllocError>
    ensures { IfOk result (Finds is_deep nodes.now) }
{
    let mut layers: BTreeMap<i32, usize> = BTreeMap::new(alloc);
    for node in nodes {
        let id = node.id();
        let parent = node.parent();
        let outer = number_at(&layers, parent);
        let is_leaf = shape_of(node.logical()).takes(0);
        if passes_limit(is_leaf, outer) {
            return Ok(Some(id));
        }
        layers.insert(id, outer + 1)?;
    }
    Ok(None)
}

// How many fields have no fields in them.
fn leaves_in(nodes: &[Node<'_>]) -> usize
    ensures { result ≡ leaves_in nodes.now }
{
    let mut count = 0;
    for node in nodes {
        let is_leaf = shape_of(node.logical()).takes(0);
        if is_leaf {
            count += 1;
        }
    }
    count
}

// Whether a logical type is none of the format's.
fn is_unknown(logical: &str) -> bool
    ensures { result ≡ (takes (shape_of logical.now) 0 && not (is_some (leaf_type logical.now))) }
{
    shape_of(logical).takes(0) && leaf_type(logical).is_none()
}

// The first field without a type is refused.
fn check_known(alloc: Global, nodes: &[Node<'_>]) -> Result<(), SchemaFault>
    requires linked { AreLinked nodes.now }
    requires named { AreNamed nodes.now }
    ensures ok { OnOk result (Lacks is_untyped [] nodes.now) }
    ensures err { IfErr result (λ fault. Breaks fault nodes.now) }
{
    for node in nodes {
        let id = node.id();
        let logical = node.logical();
        if is_unknown(logical) {
            let text = Text::of(alloc, logical)?;
            return Err(SchemaFault::UnknownType(id, text));
        }
    }
    Ok(())
}

fn check_links(alloc: Global, nodes: &[Node<'_>]) -> Result<(), SchemaFault>
    ensures ok { OnOk result (AreLinked nodes.now) }
    ensures err { IfErr result (λ fault. Breaks fault nodes.now) }
{
    if let Some(id) = bad_id(nodes) {
        return Err(SchemaFault::BadId(id));
    }
    if let Some(id) = repeated(alloc, nodes)? {
        return Err(SchemaFault::SameId(id));
    }
    if let Some(id) = orphan(alloc, nodes)? {
        return Err(SchemaFault::BadParent(id));
    }
    Ok(())
}

fn check_names(alloc: Global, nodes: &[Node<'_>]) -> Result<(), SchemaFault>
    requires linked { AreLinked nodes.now }
    ensures ok { OnOk result (AreNamed nodes.now) }
    ensures err { IfErr result (λ fault. Breaks fault nodes.now) }
{
    if let Some(id) = nameless(nodes) {
        return Err(SchemaFault::NoName(id));
    }
    if let Some(id) = namesake(alloc, nodes)? {
        return Err(SchemaFault::SameName(id));
    }
    Ok(())
}

fn check_types(alloc: Global, nodes: &[Node<'_>]) -> Result<(), SchemaFault>
    requires linked { AreLinked nodes.now }
    requires named { AreNamed nodes.now }
    ensures ok { OnOk result (AreTyped nodes.now) }
    ensures err { IfErr result (λ fault. Breaks fault nodes.now) }
{
    check_known(alloc, nodes)?;
    if let Some(id) = miscounted(alloc, nodes)? {
        return Err(SchemaFault::Children(id));
    }
    Ok(())
}

/// Refuses fields that break a rule, whose tree is so never built.
pub fn check_rules(alloc: Global, nodes: &[Node<'_>]) -> Result<(), SchemaFault>
    ensures ok { OnOk result (ObeyRules nodes.now) }
    ensures err { IfErr result (λ fault. Breaks fault nodes.now) }
{
    if nodes.is_empty() {
        return Err(SchemaFault::Empty);
    }
    check_links(alloc, nodes)?;
    check_names(alloc, nodes)?;
    check_types(alloc, nodes)?;
    if let Some(id) = deep_leaf(alloc, nodes)? {
        return Err(SchemaFault::TooDeep(id));
    }
    if leaves_in(nodes) > MAX_LEAVES {
        return Err(SchemaFault::TooManyLeaves);
    }
    Ok(())
}
