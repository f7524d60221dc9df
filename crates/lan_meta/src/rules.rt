ghost use Rattle.std.specs.Prelude.{◌≡◌, ◌↔◌, ◌≤◌, ◌<◌, length, IfOk, OnOk, IfErr, IsTrue, All};
ghost use Rattle.lan_model.specs.Leaves.{plain_leaf};
ghost use Rattle.lan_model.specs.Plain.{plain_type};
ghost use Rattle.lan_levels.specs.Codes.{IsCode};
ghost use Rattle.lan_levels.specs.SlotsOf.{lists_in};
ghost use Rattle.lan_levels.specs.ZipForm.{digits};
ghost use Rattle.lan_meta.specs.PageRules.{codes_in, FitLayers, TakesNull, slots_of, buffers_of, FitCounts, bits_of, IsValue, FitsStored, FitsZip, FitsOne, FitValues, greatest_of, FitBits, ranges_of, EndBefore, Obeys, BreaksRule};

use crate::encoding::SaidPage;
use crate::layout::SaidLayout;
use crate::message::MetaFault;
use crate::page::Layout;
use lan_levels::{Codes, ValueKind, codes_fit, greatest};
use lan_model::{Blob, Layer, Leaf, Primitive, Range, Ranges, Ty, width};
use std::alloc::{AllocError, Global};

/// How many of the layers are lists.
fn lists(layers: &[Layer]) -> usize
    ensures value { result ≡ lists_in layers.now }
    ensures few { result ≤ length layers.now }
{
    let mut count = 0;
    for layer in layers {
        if let Layer::List { .. } = layer {
            count += 1;
        }
    }
    count
}

fn takes_null(codes: &Codes, value: &Option<Blob>) -> bool
    ensures { IsTrue result ↔ TakesNull codes.now value.now }
{
    value.is_some() || codes.as_slice().first() == Some(&3)
}

fn fit_layers(layout: &Layout, leaf: &Leaf) -> bool
    ensures fit { IsTrue result ↔ FitLayers layout.now leaf.now.layers }
    ensures codes { IsTrue result → All IsCode (codes_in layout.now) }
    ensures count { IsTrue result → length (codes_in layout.now) ≡ length leaf.now.layers }
{
    match layout {
        Layout::Constant { codes, value, .. } => {
            codes_fit(codes, leaf) && lists(leaf.layers.as_slice()) == 0 && takes_null(codes, value)
        }
        Layout::Mini { codes, .. } | Layout::Zip { codes, .. } => codes_fit(codes, leaf),
    }
}

fn slots_of(layout: &Layout) -> u64
    ensures { result ≡ slots_of layout.now }
{
    match layout {
        Layout::Constant { slots, .. } | Layout::Mini { slots, .. } | Layout::Zip { slots, .. } => {
            *slots
        }
    }
}

fn buffers_of(layout: &Layout, layers: &[Layer]) -> u64
    ensures { result ≡ buffers_of layout.now layers.now }
{
    let nested = lists(layers) > 0;
    match layout {
        Layout::Constant { .. } => 0,
        Layout::Mini { .. } => if nested { 3 } else { 2 },
        Layout::Zip { values, .. } => match values {
            ValueKind::Variable => 2,
            _ => if nested { 2 } else { 1 },
        },
    }
}

fn fit_counts(page: &SaidPage, layers: &[Layer]) -> bool
    ensures { IsTrue result ↔ FitCounts page.now layers.now }
{
    let slots = slots_of(&page.layout.layout);
    let count = page.offsets.len();
    page.rows > 0
        && page.rows <= slots
        && (lists(layers) > 0 || slots == page.rows)
        && page.sizes.len() == count
        && count == buffers_of(&page.layout.layout, layers)
}

/// How many bits each value of a type has, where all have as many.
fn bits_of(ty: &Ty) -> Option<u64>
    ensures { result ≡ bits_of (plain_type ty.now) }
{
    match ty {
        Ty::Bits(primitive) => Some(u64::from(width(*primitive))),
        Ty::Vector(primitive, count) => Some(u64::from(*count) * u64::from(width(*primitive))),
        _ => None,
    }
}

fn is_value(ty: &Ty, value: &Blob) -> bool
    ensures { IsTrue result ↔ IsValue (plain_type ty.now) value.now }
{
    match bits_of(ty) {
        Some(bits) => value.len() == bits.div_ceil(8),
        None => true,
    }
}

fn fit_values(layout: &Layout, ty: &Ty) -> bool
    ensures { IsTrue result ↔ FitValues layout.now (plain_type ty.now) }
{
    match layout {
        Layout::Constant {
            value: Some(value),
            ..
        } => is_value(ty, value),
        Layout::Constant { .. } => true,
        Layout::Mini { values, .. } => fits_stored(ty, values),
        Layout::Zip { values, .. } => fits_zip(ty, values),
    }
}

fn fits_stored(ty: &Ty, values: &ValueKind) -> bool
    ensures { IsTrue result ↔ FitsStored (plain_type ty.now) values.now }
{
    match values {
        ValueKind::Flat(bits) => bits_of(ty) == Some(*bits),
        ValueKind::Variable => bits_of(ty).is_none(),
        ValueKind::Constant(value) => is_value(ty, value),
    }
}

fn fits_zip(ty: &Ty, values: &ValueKind) -> bool
    ensures { IsTrue result ↔ FitsZip (plain_type ty.now) values.now }
{
    match values {
        ValueKind::Constant(_) => false,
        _ => fits_stored(ty, values),
    }
}

/// How many binary digits a number below 64 has, none for 0.
pub(crate) fn digits(n: u64) -> u64
    ensures { result ≡ digits n }
{
    if n < 1 {
        0
    } else if n < 2 {
        1
    } else if n < 4 {
        2
    } else if n < 8 {
        3
    } else if n < 16 {
        4
    } else if n < 32 {
        5
    } else {
        6
    }
}

fn fit_bits(said: &SaidLayout, leaf: &Leaf) -> bool
    requires few { length (codes_in said.now.layout) ≤ 16 }
    requires codes { All IsCode (codes_in said.now.layout) }
    ensures { IsTrue result ↔ FitBits said.now said.now.layout leaf.now.layers }
{
    match &said.layout {
        Layout::Zip { codes, .. } => {
            said.bits_rep == digits(lists(leaf.layers.as_slice()) as u64)
                && said.bits_def == digits(u64::from(greatest(codes)))
        }
        _ => true,
    }
}

fn end_before(end: u64, buffers: &[Range]) -> bool
    ensures { IsTrue result ↔ EndBefore end buffers.now }
{
    buffers
        .iter()
        .all(|buffer| buffer.at <= end && buffer.len <= end - buffer.at)
}

/// Offsets with their sizes, as far as there are both.
pub(crate) fn ranges(alloc: Global, offsets: &[u64], sizes: &[u64]) -> Result<Ranges, AllocError>
    ensures { IfOk result (λ list. list ≡ ranges_of offsets.now sizes.now) }
{
    let count = offsets.len().min(sizes.len());
    let mut list = Ranges::with_capacity(alloc, count)?;
    for i in 0..count {
        list.push(Range {
            at: offsets[i],
            len: sizes[i],
        })?;
    }
    Ok(list)
}

/// Whether a page with these buffers, whose message lies at a place, keeps to the rules for the leaf where
/// the region of buffers ends at `end`: nothing, or the first rule that it breaks.
pub(crate) fn judge(
    page: &SaidPage,
    buffers: &[Range],
    leaf: &Leaf,
    end: u64,
    at: u64,
) -> Result<(), MetaFault>
    requires layers { length leaf.now.layers ≤ 16 }
    requires buffers { buffers.now ≡ ranges_of page.now.offsets page.now.sizes }
    ensures ok { OnOk result (Obeys (plain_leaf leaf.now) end page.now) }
    ensures fault { IfErr result (BreaksRule (plain_leaf leaf.now) end page.now at) }
{
    let layout = &page.layout.layout;
    if !fit_layers(layout, leaf) {
        return Err(MetaFault::Layers(at));
    }
    if !fit_counts(page, leaf.layers.as_slice()) {
        return Err(MetaFault::Counts(at));
    }
    if !fit_values(layout, &leaf.ty) {
        return Err(MetaFault::Values(at));
    }
    if !fit_bits(&page.layout, leaf) {
        return Err(MetaFault::Bits(at));
    }
    if !end_before(end, buffers) {
        return Err(MetaFault::Region(at));
    }
    Ok(())
}
