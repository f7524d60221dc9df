ghost use Rattle.std.specs.Prelude.{◌≡◌, ◌↔◌, ℕ, ◌+◌, ◌<◌, ◌≤◌, length, map, take, All, Some, None, slice_get, IfOk, IfSome, IfNone, IsTrue};
ghost use Rattle.lan_model.specs.Leaves.{plain_leaf};
ghost use Rattle.lan_levels.specs.Codes.{layer_code, FitsCode, FitCodes, IsCode, code_states, states_from, states_of, HasNumber, IsBare};
ghost use Rattle.lan_levels.specs.SlotsOf.{lists_in};

use crate::slot::State;
use lan_model::{Layer, Leaf, List};
use std::alloc::{AllocError, Global};

pub type Codes = List<u8>;

/// The writer's layer codes, from the leaf outward.
///
/// A nullable item or struct has code 3, else 1; a nullable list 6, else 5.
pub fn codes_of(alloc: Global, leaf: &Leaf) -> Result<Codes, AllocError>
    ensures value { IfOk result (λ codes. codes ≡ map layer_code leaf.now.layers) }
    ensures codes { IfOk result (All IsCode) }
    ensures fit { IfOk result (λ codes. FitCodes codes leaf.now.layers) }
{
    let mut codes = List::new(alloc);
    for layer in leaf.layers.as_slice() {
        codes.push(layer_code(*layer))?;
    }
    Ok(codes)
}

fn layer_code(layer: Layer) -> u8
    ensures { result ≡ layer_code layer }
{
    match layer {
        Layer::Item { nullable } | Layer::Struct { nullable, .. } => {
            if nullable { 3 } else { 1 }
        }
        Layer::List { nullable } => { if nullable { 6 } else { 5 } }
    }
}

/// Whether there is one code for each layer of the leaf, and each may stand for its layer.
#[tactic(auto, using(crate::proofs::LayerCodes::fitting_are, crate::proofs::LayerCodes::fitting_count))]
pub fn codes_fit(codes: &Codes, leaf: &Leaf) -> bool
    ensures fit { IsTrue result ↔ FitCodes codes.now leaf.now.layers }
    ensures codes { IsTrue result → All IsCode codes.now }
    ensures layers { IsTrue result → length codes.now ≡ length leaf.now.layers }
{
    each_fits(codes.as_slice(), leaf.layers.as_slice())
}

fn each_fits(codes: &[u8], layers: &[Layer]) -> bool
    ensures { IsTrue result ↔ FitCodes codes.now layers.now }
{
    if codes.len() != layers.len() {
        return false;
    }
    for i in 0..codes.len() {
        if !code_fits(codes[i], layers[i]) {
            return false;
        }
    }
    true
}

fn code_fits(code: u8, layer: Layer) -> bool
    ensures { IsTrue result ↔ FitsCode code layer }
{
    match layer {
        Layer::List { .. } => code == 2 || code == 4 || code == 5 || code == 6,
        Layer::Item { .. } | Layer::Struct { .. } => code == 1 || code == 3,
    }
}

/// The greatest number that the codes give a state.
///
/// Number 0 is a present value, and each layer outward takes the next numbers: null, then empty.
pub fn greatest(codes: &Codes) -> u16
    requires few { length codes.now ≤ 16 }
    requires codes { All IsCode codes.now }
    ensures count { result + 1 ≡ length (states_of codes.now) }
    ensures few { result ≤ 32 }
{
    numbers(codes.as_slice())
}

/// How many numbers the codes take.
fn numbers(codes: &[u8]) -> u16
    requires few { length codes.now ≤ 16 }
    ensures count { result ≡ length (states_from codes.now 0) }
    ensures few { result ≤ 32 }
{
    let mut count = 0;
    for code in codes {
        count += taken(*code);
    }
    count
}

fn taken(code: u8) -> u16
    ensures few { result ≤ 2 }
    ensures count { (k : ℕ) → result ≡ length (code_states code k) }
{
    if code < 3 {
        0
    } else if code < 6 {
        1
    } else {
        2
    }
}

/// Whether a slot of that state has no value in the value buffer: its layer is a list, or has a
/// list layer between it and the leaf.
pub fn is_bare(leaf: &Leaf, state: State) -> bool
    ensures { IsTrue result ↔ IsBare leaf.now.layers state }
{
    match state {
        State::Here => false,
        State::Null(k) | State::Empty(k) => has_list(up_to(leaf.layers.as_slice(), k)),
    }
}

/// The layers from the leaf to the layer `k`.
fn up_to(layers: &[Layer], k: u8) -> &[Layer]
    ensures { result.now ≡ take (k + 1) layers.now }
{
    let count = k as usize + 1;
    if count < layers.len() {
        &layers[..count]
    } else {
        layers
    }
}

fn has_list(layers: &[Layer]) -> bool
    ensures { IsTrue result ↔ 0 < lists_in layers.now }
{
    for layer in layers {
        if let Layer::List { .. } = layer {
            return true;
        }
    }
    false
}

/// How many of the layers are lists.
pub fn lists_in(layers: &[Layer]) -> u16
    requires { length layers.now ≤ 16 }
    ensures value { result ≡ lists_in layers.now }
    ensures few { result ≤ 16 }
{
    let mut count = 0;
    for layer in layers {
        if let Layer::List { .. } = layer {
            count += 1;
        }
    }
    count
}

/// The state that the number stands for.
pub fn state_of(codes: &Codes, number: u16) -> Option<State>
    requires few { length codes.now ≤ 16 }
    requires codes { All IsCode codes.now }
    ensures { result ≡ slice_get (states_of codes.now) number }
{
    if number == 0 {
        return Some(State::Here);
    }
    layer_state(codes.as_slice(), number - 1)
}

/// The state of the place `number` among those of all layers.
fn layer_state(codes: &[u8], number: u16) -> Option<State>
    requires { length codes.now ≤ 16 }
    ensures { result ≡ slice_get (states_from codes.now 0) number }
{
    let mut left = number;
    for k in 0..codes.len() {
        let count = taken(codes[k]);
        if left < count {
            return Some(named(codes[k], k as u8, left));
        }
        left -= count;
    }
    None
}

/// The state of the place `place` among those of one layer.
fn named(code: u8, k: u8, place: u16) -> State
    requires { place < length (code_states code k) }
    ensures { slice_get (code_states code k) place ≡ Some result }
{
    if code == 5 || place == 1 {
        State::Empty(k)
    } else {
        State::Null(k)
    }
}

/// The number that stands for the state.
pub fn number_of(codes: &Codes, state: State) -> Option<u16>
    requires few { length codes.now ≤ 16 }
    requires codes { All IsCode codes.now }
    ensures some { (n : ℕ) → result ≡ Some n → slice_get (states_of codes.now) n ≡ Some state }
    ensures none { result ≡ None → (n : ℕ) → slice_get (states_of codes.now) n ≡ Some state → ⊥ }
{
    match state {
        State::Here => Some(0),
        state => {
            let place = layer_place(codes.as_slice(), state)?;
            Some(place + 1)
        }
    }
}

/// The number that stands for the state, where one is known to do so.
pub fn known_number(codes: &Codes, state: State) -> u16
    requires few { length codes.now ≤ 16 }
    requires codes { All IsCode codes.now }
    requires numbered { HasNumber (states_of codes.now) state }
    ensures { slice_get (states_of codes.now) result ≡ Some state }
{
    match number_of(codes, state) {
        Some(number) => number,
        None => 0,
    }
}

/// The place of the state among those of all layers.
fn layer_place(codes: &[u8], state: State) -> Option<u16>
    requires { length codes.now ≤ 16 }
    ensures some { IfSome result (λ n. slice_get (states_from codes.now 0) n ≡ Some state) }
    ensures few { IfSome result (λ n. n ≤ 32) }
    ensures none { IfNone result ((n : ℕ) → slice_get (states_from codes.now 0) n ≡ Some state → ⊥) }
{
    let mut count = 0;
    for k in 0..codes.len() {
        match place_in(codes[k], k as u8, state) {
            Some(place) => return Some(count + place),
            None => count += taken(codes[k]),
        }
    }
    None
}

/// The place of the state among those of the layer `k`.
fn place_in(code: u8, k: u8, state: State) -> Option<u16>
    ensures some { IfSome result (λ n. slice_get (code_states code k) n ≡ Some state) }
    ensures few { IfSome result (λ n. n ≤ 1) }
    ensures none { IfNone result ((n : ℕ) → slice_get (code_states code k) n ≡ Some state → ⊥) }
{
    match state {
        State::Null(layer) if layer == k && (code == 3 || code == 4 || code > 5) => Some(0),
        State::Empty(layer) if layer == k && code == 5 => Some(0),
        State::Empty(layer) if layer == k && code > 5 => Some(1),
        _ => None,
    }
}
